// The load question: can the hosts of a roster carry a load, in some division of the slots among them.
#![tactic(auto)]

ghost use Rattle.std.specs.Prelude.{◌≡◌, ◌<◌, ◌≤◌, length, sum_by};
ghost use Rattle.base.specs.Tables.{total};
ghost use Rattle.load.specs.Load.{most_kept};
ghost use Rattle.load.specs.Reply.{load_fits, carried, told};
ghost use Rattle.load.specs.Laws.{RowsRise, CarriesIsDivision, LessIsCarried, QuotasKeepUp, AnsweredIsDivision, RefusedIsNo, LoadFixed};

use base::Refusal;
use roster::{Roster, ValidRoster};

// Whether a load is one that may be asked about.
fn load_fits(load: u32) -> bool
    ensures { result ≡ load_fits load }
{
    (1..=1_000).contains(&load)
}

// A load that is asked about, of so many slots over hosts whose rates sum to `all`: its numbers are small enough for every product below.
#[derive(Clone, Copy)]
struct Question {
    load: u32,
    slots: u32,
    all: u64,
    ghost load_in_range: { (0 < load) × (load ≤ 1000) },
    ghost slots_in_range: { slots ≤ 16384 },
    ghost all_in_range: { (0 < all) × (all ≤ 256000000) },
}

impl Question {
    // The most of the slots that a host could hold and keep up. The code's one place for the rule of keeping up.
    #[tactic(auto, using(crate::proofs::Keeping::most_is))]
    fn most_kept(&self, rate: u32) -> u32
        ensures { result ≡ most_kept self.now.load self.now.slots self.now.all rate }
    {
        let slots = u64::from(self.slots);
        let most = 1_000 * u64::from(rate) * slots / (u64::from(self.load) * self.all);
        slots.min(most) as u32
    }

    // The most that the hosts could hold together and keep up.
    fn most_held(&self, rates: &[u32]) -> u64
        requires { length rates.now ≤ 256 }
        ensures { result ≡ sum_by (most_kept self.now.load self.now.slots self.now.all) rates.now }
    {
        rates
            .iter()
            .map(|rate| u64::from(self.most_kept(*rate)))
            .sum()
    }
}

// The sum of the rates.
#[tactic(auto, using(crate::proofs::Totals::place_by_place))]
fn rate_sum(rates: &[u32]) -> u64
    requires { length rates.now ≤ 256 }
    ensures { result ≡ total rates.now }
{
    rates.iter().map(|rate| u64::from(*rate)).sum()
}

// Whether the hosts of a roster carry a load of so many thousandths of their rates, with so many slots.
#[tactic(auto, using(crate::proofs::Replies::reply_rows))]
pub fn carries(r: Roster, slots: u32, load: u32) -> Result<bool, Refusal>
    ensures { told result ≡ carried r slots load }
{
    if !base::slots_fit(slots) {
        return Err(Refusal::SlotCount);
    }
    let roster = ValidRoster::try_from(r)?;
    if r.count == 0 {
        return Err(Refusal::NoOwner);
    }
    if !load_fits(load) {
        return Err(Refusal::Load);
    }
    let rates = roster.rates();
    let asked = Question {
        load,
        slots,
        all: rate_sum(rates),
    };
    Ok(u64::from(slots) <= asked.most_held(rates))
}

// The laws of the load question: without their proofs this function is not proved.
pub fn promises()
    ensures exact { RowsRise × CarriesIsDivision × AnsweredIsDivision × RefusedIsNo }
    ensures steady { LessIsCarried × QuotasKeepUp }
    ensures fixed { LoadFixed }
{}
