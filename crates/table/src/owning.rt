// Who owns slots: which of them a table's slots belong to, and the slots that move from one to another.
ghost use Rattle.std.specs.Prelude.{◌≡◌, not, ◌≤◌, length};
ghost use Rattle.base.specs.Tables.{at};
ghost use Rattle.roster.specs.Roster.{is_on, Rises};
ghost use Rattle.mover.specs.Mover.{quota_of, lacks, runs, freed_below, moved};
ghost use Rattle.mover.specs.Laws.{Fitting};
ghost use Rattle.mover.specs.Pass.{pass, frees};
ghost use Rattle.table.specs.Table.{owners};
ghost use Rattle.table.specs.Seat.{Finds, Seat, NextShort};

use roster::ValidRoster;

// The numbers of those who own slots, in rising order.
// That the room and the lacks are as long is a clause: in arrays of 256 every clause would cut them to the owners.
#[derive(Clone, Copy)]
pub(crate) struct Owners<'a> {
    numbers: &'a [u16],
    ghost rises: { Rises numbers.now },
}

// The first place from one on that still lacks a slot.
fn next_short(lacks: &[u32], from: usize) -> Option<usize>
    requires { from ≤ length lacks.now }
    ensures { NextShort lacks.now from result }
{
    (from..lacks.len()).find(|&p| lacks[p] != 0)
}

impl<'a> Owners<'a> {
    // The hosts, or nobody alone.
    pub(crate) fn of(v: &'a ValidRoster) -> Owners<'a>
        ensures { result.numbers.now ≡ owners v.now.roster }
    {
        Owners {
            numbers: &v.roster.hosts[..v.roster.count.max(1)],
        }
    }

    // How many they are.
    pub(crate) fn count(&self) -> usize
        ensures { result ≡ length self.now.numbers.now }
    {
        self.numbers.len()
    }

    // The first slot whose owner is none of them: slots outside, the search by halves inside, left by a label. Document 01 names this form, Which shape goes where.
    pub(crate) fn first_stranger(&self, table: &[u16]) -> Option<usize>
        ensures { Finds (length table.now) (λ i. not (is_on self.now.numbers.now (at table.now i))) result }
    {
        'slots: {
            for (i, &owner) in table.iter().enumerate() {
                let mut lo = 0;
                let mut hi = self.numbers.len();
                loop {
                    if hi <= lo {
                        break 'slots Some(i);
                    }
                    let mid = lo + (hi - lo) / 2;
                    let number = self.numbers[mid];
                    if number == owner {
                        break;
                    }
                    if number < owner {
                        lo = mid + 1;
                    } else {
                        hi = mid;
                    }
                }
            }
            None
        }
    }

    // Where an owner stands that has room left.
    fn seat(&self, room: &[u32], owner: u16) -> Option<usize>
        requires { length room.now ≡ length self.now.numbers.now }
        ensures { Seat self.now.numbers.now room.now owner result }
    {
        let p = self.numbers.binary_search(&owner).ok()?;
        (room[p] != 0).then_some(p)
    }

    // Counts the slots that would be freed. What is left of the room is what the owners lack.
    pub(crate) fn tally(&self, room: &mut [u32], table: &[u16]) -> u32
        requires { (length room.old ≡ length self.now.numbers.now) × (length table.now ≤ 16384) }
        ensures counted { result ≡ frees (quota_of self.now.numbers.now room.old) table.now }
        ensures left { room.new ≡ lacks self.now.numbers.now room.old table.now }
    {
        let mut freed = 0;
        for &owner in table {
            match self.seat(room, owner) {
                Some(p) => room[p] -= 1,
                None => freed += 1,
            }
        }
        freed
    }

    // Hands every slot whose owner has no room to the next that is short, in one pass.
    fn hand_over(&self, room: &mut [u32], short: &mut [u32], table: &mut [u16])
        requires known { (length room.old ≡ length self.now.numbers.now) × (length short.old ≡ length self.now.numbers.now) }
        requires enough { frees (quota_of self.now.numbers.now room.old) table.old ≤ length (runs self.now.numbers.now short.old) }
        ensures { table.new ≡ pass (quota_of self.now.numbers.now room.old) (runs self.now.numbers.now short.old) table.old }
    {
        let mut next = 0;
        for slot in table.iter_mut() {
            if let Some(p) = self.seat(room, *slot) {
                room[p] -= 1;
                continue;
            }
            next = next_short(short, next).unwrap();
            *slot = self.numbers[next];
            short[next] -= 1;
        }
    }

    // Counts what is freed and what each owner lacks, which is as many, and hands it over.
    pub(crate) fn move_slots(&self, room: &mut [u32], short: &mut [u32], table: &mut [u16]) -> u32
        requires fits { Fitting self.now.numbers.now room.old table.old × (short.old ≡ room.old) }
        requires small { length table.old ≤ 16384 }
        ensures count { result ≡ freed_below self.now.numbers.now room.old table.old (length table.old) }
        ensures slots { table.new ≡ moved self.now.numbers.now room.old table.old }
    {
        let freed = self.tally(short, table);
        self.hand_over(room, short, table);
        freed
    }
}
