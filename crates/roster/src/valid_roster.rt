// A roster that was checked: what works on one takes this type, so that it is checked once.
ghost use Rattle.std.specs.Prelude.{◌≡◌, true};
ghost use Rattle.roster.specs.Roster.{is_on, hosts_of, rates_of, valid};

use crate::{Roster, is_on, place, valid};
use base::Refusal;

// A roster that breaks no rule under Sizes.
#[derive(Clone, Copy, Debug, PartialEq, Eq)]
pub struct ValidRoster {
    pub roster: Roster,
    ghost valid: { valid roster ≡ true },
}

impl TryFrom<Roster> for ValidRoster {
    ghost use Rattle.roster.specs.Valid.{ChecksRoster};

    type Error = Refusal;

    ghost try_from_gives = { ChecksRoster };

    fn try_from(r: Roster) -> Result<Self, Refusal> {
        if valid(r) {
            Ok(ValidRoster { roster: r })
        } else {
            Err(Refusal::BrokenRoster)
        }
    }
}

impl ValidRoster {
    ghost use Rattle.roster.specs.Changes.{place_in};

    // The host numbers on the roster, in its order.
    pub fn hosts(&self) -> &[u16]
        ensures { result.now ≡ hosts_of self.now.roster }
    {
        &self.roster.hosts[..self.roster.count]
    }

    // Their rates, in the same order.
    pub fn rates(&self) -> &[u32]
        ensures { result.now ≡ rates_of self.now.roster }
    {
        &self.roster.rates[..self.roster.count]
    }

    // Whether a host is on the roster.
    pub fn lists(&self, host: u16) -> bool
        ensures { result ≡ is_on (hosts_of self.now.roster) host }
    {
        is_on(self.hosts(), host)
    }

    // Where a host stands, or would stand.
    pub fn place(&self, host: u16) -> usize
        ensures { result ≡ place_in self.now.roster host }
    {
        place(self.hosts(), host)
    }
}
