// Quotas by the M3 rule: the next slot goes where (slots held + 1) / rate is least, the first place on a tie.
// The crate knows hosts by their place in a list of rates, and no roster.
#![tactic(auto)]

ghost use Rattle.std.specs.Prelude.{◌≡◌, suc, ◌+◌, ◌*◌, ◌<◌, ◌≤◌, ltb, length};
ghost use Rattle.base.specs.Tables.{total};
ghost use Rattle.quota.specs.Quota.{quotas, within_sizes, quotas_given};
ghost use Rattle.quota.specs.Greedy.{least};
ghost use Rattle.quota.specs.Laws.{Positive, MoreClaims, SumIsSlots, LeastGreatestRatio, Bounded, EqualRates};
ghost use Rattle.quota.specs.Laws.{OneWay, AddTakes, DropGives, RiseTakes, FallGives, GreedyGives, CutIsQuotas};
ghost use Rattle.quota.specs.Cut.{Cut};

// Whether rates and slots are within document 01's sizes.
fn within_sizes(rates: &[u32], slots: u32) -> bool
    ensures { result ≡ within_sizes rates.now slots }
{
    rates.len() <= 256 && slots <= 16_384 && rates.iter().all(|&rate| base::rate_fits(rate))
}

// Whether a host's next claim weighs less than another's. Multiplied across in 64 bits, so nothing is lost.
// No `Ord` of a type: the two numbers of a claim stand in two lists, rates lent and slots held, and are paired here alone.
fn next_is_lighter(held: u32, rate: u32, held2: u32, rate2: u32) -> bool
    ensures { result ≡ ltb (suc held * rate2) (suc held2 * rate) }
{
    (u64::from(held) + 1) * u64::from(rate2) < (u64::from(held2) + 1) * u64::from(rate)
}

// The first place whose next claim is lightest.
fn lightest(rates: &[u32], held: &[u32]) -> usize
    requires { length held.now ≡ length rates.now }
    ensures { result ≡ least rates.now held.now (length rates.now) }
{
    let mut best = 0;
    for (i, &rate) in rates.iter().enumerate() {
        if next_is_lighter(held[i], rate, held[best], rates[best]) {
            best = i;
        }
    }
    best
}

// Gives out the slots that are left, one after the other, from any start in which no host is ahead of its claims.
fn give_out(rates: &[u32], left: u32, held: &mut [u32])
    requires hosts { (0 < length rates.now) × Positive rates.now }
    requires start { Cut rates.now held.old }
    requires fits { total held.old + left ≤ 16384 }
    ensures { held.new ≡ quotas rates.now (total held.old + left) }
{
    for _ in 0..left {
        let p = lightest(rates, held);
        held[p] += 1;
    }
}

// The quotas of the hosts in their order, and zeros behind them, in memory that does not grow. Outside the sizes there are none.
pub fn quotas(rates: &[u32], slots: u32) -> [u32; 256]
    ensures { result ≡ quotas_given rates.now slots }
{
    let mut held = base::filled(0);
    if within_sizes(rates, slots) && !rates.is_empty() {
        give_out(rates, slots, &mut held[..rates.len()]);
    }
    held
}

// The laws of quotas: without their proofs this function is not proved.
pub fn promises()
    ensures counted { MoreClaims × SumIsSlots }
    ensures fair { LeastGreatestRatio × Bounded × EqualRates }
    ensures steady { OneWay × AddTakes × DropGives × RiseTakes × FallGives }
    ensures same { GreedyGives × CutIsQuotas }
{}
