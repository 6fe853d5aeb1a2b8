// The lines that call a function of the library, each with its reply and the memory after it.

use crate::memory::Memory;
use crate::output::Output;
use crate::words::Words;
use crate::{answer, words};
use find::Owner;
use std::fmt;
use std::fmt::Write as _;
use std::io::Write;
use table::Misfit;

// The memory, and where replies go.
#[derive(Drop)]
pub(crate) struct Exchange<W: Write + Drop> {
    memory: Memory,
    out: Output<W>,
}

impl<W: Write + Drop> Exchange<W> {
    // With the memory all zero.
    pub(crate) fn new(out: Output<W>) -> Self {
        Exchange {
            memory: Memory::new(),
            out,
        }
    }

    // Takes a line. Its answer is put into the output, which never fails.
    pub(crate) fn take_line(&mut self, line: &[u8]) {
        match words::split_word(line) {
            Some((name, rest)) => {
                let _ = self.take(name, Words::new(rest));
            }
            // the one line that is a word alone
            None if line == b"clear".as_slice() => self.memory.clear(),
            None => {}
        }
    }

    // Answers a line that calls a function; any other sets a part of the memory, or is unknown.
    fn take(&mut self, name: &[u8], mut words: Words<'_>) -> fmt::Result {
        match name {
            b"check" => self.check(words.number())?,
            b"layout" => self.layout(words.number())?,
            b"add" | b"drop" | b"rate" => self.event(name, &mut words)?,
            b"ask" => self.ask(&mut words)?,
            b"report" => self.report(words.number())?,
            b"load" => self.load(words.number(), words.number())?,
            b"find" => self.find(words.long_number(), words.rest())?,
            _ => {
                self.memory.set(name, &mut words);
                return Ok(());
            }
        }
        write!(self.out, "{}", self.memory)
    }

    // `check S`.
    fn check(&mut self, slots: u32) -> fmt::Result {
        let reply = table::check(self.memory.roster, slots, self.memory.owners());
        let answer = answer::number(reply);
        let slot = match reply {
            Err(Misfit::WrongTable { slot }) => slot,
            _ => 0,
        };
        writeln!(self.out, "check {answer} {slot}")
    }

    // `layout S`.
    fn layout(&mut self, slots: u32) -> fmt::Result {
        let roster = self.memory.roster;
        let answer = answer::number(table::layout(roster, slots, self.memory.owners_mut()));
        writeln!(self.out, "layout {answer}")
    }

    // `add S H R`, `drop S H`, `rate S H R`.
    fn event(&mut self, name: &[u8], words: &mut Words<'_>) -> fmt::Result {
        let slots = words.number();
        let event = words.event(name);
        let roster = self.memory.roster;
        let (answer, moved, roster) = match events::apply(
            roster,
            slots,
            event,
            self.memory.owners_mut(),
        ) {
            Ok(change) => (0, change.moved, change.roster),
            Err(refused) => (u32::from(refused.reason), 0, refused.roster),
        };
        self.memory.roster = roster;
        writeln!(self.out, "event {answer} {moved}")
    }

    // `ask S add H R X`, `ask S drop H X`, `ask S rate H R X`.
    fn ask(&mut self, words: &mut Words<'_>) -> fmt::Result {
        let slots = words.number();
        let event = words.named_event();
        let reply = events::forecast(self.memory.roster, slots, event, words.number());
        let answer = answer::number(reply);
        let change = reply.unwrap_or(0);
        writeln!(self.out, "ask {answer} {change}")
    }

    // `report S`.
    fn report(&mut self, slots: u32) -> fmt::Result {
        let roster = self.memory.roster;
        let answer = answer::number(report::report(roster, slots, self.memory.records_mut()));
        writeln!(self.out, "report {answer}")
    }

    // `load S P`.
    fn load(&mut self, slots: u32, load: u32) -> fmt::Result {
        let reply = load::carries(self.memory.roster, slots, load);
        let carries = if reply == Ok(true) { "yes" } else { "no" };
        let answer = answer::number(reply);
        writeln!(self.out, "load {answer} {carries}")
    }

    // `find L KEY`.
    fn find(&mut self, stated: u64, key: &[u8]) -> fmt::Result {
        let reply = find::look_up(self.memory.owners(), stated as usize, key);
        let answer = answer::number(reply);
        let Owner { slot, host } = reply.unwrap_or(Owner { slot: 0, host: 0 });
        writeln!(self.out, "find {answer} {slot} {host}")
    }

    // Writes out what is left.
    pub(crate) fn finish(&mut self) {
        self.out.flush();
    }
}
