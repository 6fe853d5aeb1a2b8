// The workloads, each of which answers a sum of what came out.

use crate::farm::{farm, host_at};
use crate::sum::{mixed, new_rate};
use events::Event;
use roster::Roster;

// How much work is asked for.
#[derive(Clone, Copy)]
pub(crate) struct Task {
    pub(crate) turns: u32,
    pub(crate) hosts: u32,
    pub(crate) slots: u32,
}

// A drop, an add of the same host, and a new rate of it, in turn.
fn event_at(turn: u32, host: u32, rate: u32) -> Event {
    match turn % 3 {
        0 => Event::Drop { host },
        1 => Event::Add { host, rate },
        _ => Event::Rate { host, rate },
    }
}

// The number that a fresh layout answers: 0, or why it is refused.
fn laid_out(r: Roster, slots: u32, table: &mut [u16]) -> u32 {
    table::layout(r, slots, table).err().map_or(0, u32::from)
}

impl Task {
    // The workload that a letter names; 0 where it names none. A match, since a table of closures would be longer.
    pub(crate) fn run(self, letter: Option<u8>) -> u32 {
        let mut owners = [0; 16_384];
        let n = owners.len().min(self.slots as usize);
        match letter {
            Some(b'q') => self.quotas(),
            Some(b'l') => self.layouts(&mut owners[..n]),
            Some(b'e') => self.changes(&mut owners[..n]),
            _ => 0,
        }
    }

    // The host whose turn it is.
    fn host(self, turn: u32) -> u16 {
        host_at(turn.checked_rem(self.hosts).unwrap_or(0))
    }

    // The roster with one new rate.
    fn rerated(self, r: Roster, turn: u32, sum: u32) -> Roster {
        roster::rerated(r, self.host(turn), new_rate(turn, sum))
    }

    // Quotas alone.
    fn quotas(self) -> u32 {
        let mut r = farm(self.hosts);
        let mut sum = 0;
        for turn in 0..self.turns {
            r = self.rerated(r, turn, sum);
            let held = quota::quotas(&r.rates[..r.count.min(256)], self.slots);
            sum = held.iter().copied().fold(sum, mixed);
        }
        sum
    }

    // Fresh layouts.
    fn layouts(self, table: &mut [u16]) -> u32 {
        let mut r = farm(self.hosts);
        let mut sum = 0;
        for turn in 0..self.turns {
            r = self.rerated(r, turn, sum);
            sum = mixed(sum, laid_out(r, self.slots, table));
            sum = table.iter().copied().map(u32::from).fold(sum, mixed);
        }
        sum
    }

    // Events on a table, with no lines read.
    fn changes(self, table: &mut [u16]) -> u32 {
        let mut r = farm(self.hosts);
        let mut sum = laid_out(r, self.slots, table);
        for turn in 0..self.turns {
            let event = event_at(turn, u32::from(self.host(turn / 3)), new_rate(turn, sum));
            match events::apply(r, self.slots, event, table) {
                Ok(change) => {
                    sum = mixed(mixed(sum, 0), change.moved);
                    r = change.roster;
                }
                Err(refused) => sum = mixed(mixed(sum, u32::from(refused.reason)), 0),
            }
        }
        table.iter().copied().map(u32::from).fold(sum, mixed)
    }
}
