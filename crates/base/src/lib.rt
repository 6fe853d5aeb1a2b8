// What every layer cites: sums, counts and lists, the sizes, and the table of refusals.
#![tactic(auto)]

ghost use Rattle.std.specs.Prelude.{◌≡◌, replicate};
ghost use Rattle.base.specs.Refusals.{number_of};
ghost use Rattle.base.specs.Rows.{LowestIsFirst, LowestIsNone};
ghost use Rattle.base.specs.Sizes.{host_fits, rate_fits, slots_fit};

// Why a call is refused: a row of document 01, Numbers answered. 13 is the line reader's, and 14 is not used again.
#[derive(Clone, Copy, Debug, PartialEq, Eq)]
pub enum Refusal {
    SlotCount,
    BrokenRoster,
    WrongTable,
    HostNumber,
    Rate,
    HostAbsent,
    HostPresent,
    RosterFull,
    LongKey,
    NoOwner,
    Load,
    ListLength,
}

// The paper's number.
impl From<Refusal> for u32 {
    ghost from_gives = { λ reason n. n ≡ number_of reason };

    fn from(reason: Refusal) -> u32 {
        match reason {
            Refusal::SlotCount => 1,
            Refusal::BrokenRoster => 2,
            Refusal::WrongTable => 3,
            Refusal::HostNumber => 4,
            Refusal::Rate => 5,
            Refusal::HostAbsent => 6,
            Refusal::HostPresent => 7,
            Refusal::RosterFull => 8,
            Refusal::LongKey => 9,
            Refusal::NoOwner => 10,
            Refusal::Load => 11,
            Refusal::ListLength => 12,
        }
    }
}

// Three ranges of document 01 under their own names, which callers and definitions cite; the test is the library's `contains`.

// Whether a rate is one that a host may have.
pub fn rate_fits(rate: u32) -> bool
    ensures { result ≡ rate_fits rate }
{
    (1..=1_000_000).contains(&rate)
}

// Whether a host number is one that a host may have.
pub fn host_fits(host: u32) -> bool
    ensures { result ≡ host_fits host }
{
    (1..=65_535).contains(&host)
}

// Whether a slot count is one that a table may have.
pub fn slots_fit(slots: u32) -> bool
    ensures { result ≡ slots_fit slots }
{
    (1..=16_384).contains(&slots)
}

// So many of one value. A function of its own, so that no proof has to carry them.
pub fn filled<T: Copy, const N: usize>(value: T) -> [T; N]
    ensures { result ≡ replicate N value }
{
    [value; N]
}

// The laws of `lowest`: without their proofs this function is not proved.
pub fn promises()
    ensures { LowestIsFirst × LowestIsNone }
{}
