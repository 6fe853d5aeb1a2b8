// A stream of the program's lines: what each whole line does to the farm and says, with the library called for it.
#![tactic(auto)]

ghost use Rattle.std.specs.Prelude.{◌≡◌, ◌++◌, take, drop};
ghost use Rattle.events.specs.Events.{reply_of, table_after};
ghost use Rattle.events.specs.Told as changes;
ghost use Rattle.find.specs.Reply as finds;
ghost use Rattle.lines.specs.Lines.{key_of};
ghost use Rattle.stream.specs.Steps as steps;
ghost use Rattle.stream.specs.Passing as passing;
ghost use Rattle.stream.specs.Laws.{StoppedSilent, TakenFixed, AnswerFirst, DecimalReads, PassedTakes, PassedFixed};
ghost use Rattle.stream.specs.Samples.{Empty, CountOnly, LeadingZero, NoSlots, MissingHost, LastWithout10, CommentInRecord};

use base::Refusal;
use events::{Change, Event, Refused};
use find::Owner;
use lines::{Due, Read, Record};
use roster::Roster;

// What is printed: nothing, a change's reply, a find's reply, or 13 with a line's number.
// The answers stay numbers, as they are printed: `text_of` and `put_said` take any number today, and a case for each reason would ask more of callers.
#[derive(Clone, Copy, Debug, PartialEq, Eq)]
pub enum Said {
    Nothing,
    Moved { answer: u32, moved: u32 },
    Owner { answer: u32, slot: usize, host: u16 },
    Wrong { line: u64 },
}

// What a line leaves: the state after it, and what is printed.
#[derive(Clone, Copy, Debug, PartialEq, Eq)]
pub struct Taken {
    pub state: State,
    pub said: Said,
}

// What a line leaves that needs no roster: the line due after it, and what is printed.
// No twin of `Taken`: one generic struct could name neither the state nor the line due.
#[derive(Clone, Copy, Debug, PartialEq, Eq)]
pub struct Passed {
    pub due: Due,
    pub said: Said,
}

// The number of the line that comes next, counted from 1. A word holds no more than the last one.
#[tactic(auto, unfolding(crate::specs::Steps::next_number))]
pub fn next_number(lines: u64) -> u64
    ensures { result ≡ steps.next_number lines }
{
    lines.saturating_add(1)
}

// Whether a slot count is in its range, and so many owners are lent.
fn count_fits(slots: u32, lent: usize) -> bool
    ensures { result ≡ steps.count_fits slots lent }
{
    base::slots_fit(slots) && slots as usize <= lent
}

// A change of the roster and of the table, the first of the lent owners.
fn change(r: Roster, slots: u32, event: Event, owners: &mut [u16]) -> Result<Change, Refused>
    ensures reply { changes.told result ≡ reply_of r slots event (take slots owners.old) }
    ensures table { owners.new ≡ table_after r slots event (take slots owners.old) ++ drop slots owners.old }
{
    let used = owners.len().min(slots as usize);
    events::apply(r, slots, event, &mut owners[..used])
}

// A find in the table, the first of the lent owners.
fn look(owners: &[u16], slots: u32, key: &[u8]) -> Result<Owner, Refusal>
    ensures { finds.told result ≡ finds.found (take slots owners.now) slots key.now }
{
    let used = owners.len().min(slots as usize);
    find::find(&owners[..used], slots as usize, key)
}

// Where a stream stands: what line is due, the slot count, the roster, how many lines were taken, and whether it has stopped.
// `stopped` is a flag, since a stream that has stopped keeps the rest, which `halted` and `StoppedSilent` speak of.
#[derive(Clone, Copy, Debug, PartialEq, Eq)]
pub struct State {
    pub due: Due,
    pub slots: u32,
    pub roster: Roster,
    pub lines: u64,
    pub stopped: bool,
}

impl State {
    // Before the first line.
    pub fn new() -> State
        ensures { result ≡ steps.start }
    {
        State {
            due: Due::Slots,
            slots: 0,
            roster: roster::empty(),
            lines: 0,
            stopped: false,
        }
    }

    // The state after a line with which nothing stops.
    fn goes_on(self, due: Due) -> State
        ensures { result ≡ steps.goes_on self due }
    {
        State {
            due,
            lines: next_number(self.lines),
            stopped: false,
            ..self
        }
    }

    // The state after a line that stops the stream.
    fn halted(self) -> State
        ensures { result ≡ steps.halted self }
    {
        State {
            lines: next_number(self.lines),
            stopped: true,
            ..self
        }
    }

    // The slot count begins the records with no hosts, or stops the stream.
    fn begun(self, slots: u32, owners: &mut [u16]) -> Taken
        ensures reply { result ≡ steps.begins self owners.old slots }
        ensures table { owners.new ≡ steps.owners_begun owners.old slots }
    {
        if !count_fits(slots, owners.len()) {
            return Taken {
                state: self.halted(),
                said: Said::Moved {
                    answer: u32::from(Refusal::SlotCount),
                    moved: 0,
                },
            };
        }
        table::clear(&mut owners[..slots as usize]);
        let begun = State {
            slots,
            roster: roster::empty(),
            ..self
        };
        Taken {
            state: begun.goes_on(Due::Opening),
            said: Said::Nothing,
        }
    }

    // What a change does.
    fn changed_by(self, event: Event, owners: &mut [u16]) -> Taken
        ensures reply { result ≡ steps.changes self (reply_of self.roster self.slots event (take self.slots owners.old)) }
        ensures table { owners.new ≡ table_after self.roster self.slots event (take self.slots owners.old) ++ drop self.slots owners.old }
    {
        let (roster, said) = match change(self.roster, self.slots, event, owners) {
            Ok(Change { roster, moved }) => (roster, Said::Moved { answer: 0, moved }),
            Err(Refused { reason, roster }) => {
                let answer = u32::from(reason);
                (roster, Said::Moved { answer, moved: 0 })
            }
        };
        let changed = State { roster, ..self };
        Taken {
            state: changed.goes_on(Due::Opening),
            said,
        }
    }

    // What a record that is no change says: a find is taken out of it, and a comment goes on.
    fn asked(self, whole: Record, owners: &[u16], line: &[u8]) -> Taken
        ensures { result ≡ steps.asked self owners.now line.now whole }
    {
        let state = self.goes_on(Due::Opening);
        let Record::Find = whole else {
            return Taken {
                state,
                said: Said::Nothing,
            };
        };
        Taken {
            state,
            said: found_by(self.slots, owners, line),
        }
    }

    // What a record does: a change is taken out of it, and any other is asked.
    fn answered(self, whole: Record, owners: &mut [u16], line: &[u8]) -> Taken
        ensures reply { result ≡ steps.answered self owners.old line.now whole }
        ensures table { owners.new ≡ steps.owners_answered self owners.old whole }
    {
        let Record::Change(event) = whole else {
            return self.asked(whole, owners, line);
        };
        self.changed_by(event, owners)
    }

    // What a whole line does to the state and to the lent owners, and what is printed.
    #[tactic(auto, unfolding(crate::specs::Steps::takes, crate::specs::Steps::owners_after))]
    pub fn take_line(self, owners: &mut [u16], line: &[u8]) -> Taken
        ensures reply { result ≡ steps.takes self owners.old line.now }
        ensures table { owners.new ≡ steps.owners_after self owners.old line.now }
    {
        if self.stopped {
            return Taken {
                state: self,
                said: Said::Nothing,
            };
        }
        match lines::read_line(self.due, next_number(self.lines), line) {
            Ok(Read::Count(slots)) => self.begun(slots, owners),
            Ok(Read::Part(due)) => Taken {
                state: self.goes_on(due),
                said: Said::Nothing,
            },
            Ok(Read::Whole(whole)) => self.answered(whole, owners, line),
            Err(malformed) => Taken {
                state: self.halted(),
                said: Said::Wrong {
                    line: malformed.line,
                },
            },
        }
    }
}

// What a find says.
fn found_by(slots: u32, owners: &[u16], line: &[u8]) -> Said
    ensures { result ≡ steps.found_says (finds.found (take slots owners.now) slots (key_of line.now)) }
{
    match look(owners, slots, lines::key(line)) {
        Ok(Owner { slot, host }) => Said::Owner {
            answer: 0,
            slot,
            host,
        },
        Err(reason) => Said::Owner {
            answer: u32::from(reason),
            slot: 0,
            host: 0,
        },
    }
}

// Takes a line with no roster at hand, which would have to be copied, if the line needs none: a part of a record, or a find.
// Its parameters stay apart: it answers for any line due, number and slot count, and not only for those of a state.
#[tactic(auto, unfolding(crate::specs::Passing::passes))]
pub fn pass_line(due: Due, number: u64, slots: u32, owners: &[u16], line: &[u8]) -> Option<Passed>
    ensures { result ≡ passing.passes due number slots owners.now line.now }
{
    match lines::read_line(due, number, line).ok()? {
        Read::Count(_) => None,
        Read::Part(due) => Some(Passed {
            due,
            said: Said::Nothing,
        }),
        Read::Whole(whole) => {
            let Record::Find = whole else {
                return None;
            };
            Some(Passed {
                due: Due::Opening,
                said: found_by(slots, owners, line),
            })
        }
    }
}

// The laws of a stream: without their proofs this function is not proved.
pub fn promises()
    ensures laws { StoppedSilent × TakenFixed }
    ensures texts { AnswerFirst × DecimalReads }
    ensures passed { PassedTakes × PassedFixed }
    ensures ends { Empty × CountOnly × LeadingZero × NoSlots × MissingHost × LastWithout10 × CommentInRecord }
{}
