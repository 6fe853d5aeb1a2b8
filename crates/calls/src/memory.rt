// The memory that the calls work on, and the lines that set a part of it.

use crate::words::Words;
use report::HostRecord;
use roster::Roster;

// As many slots and records as there is memory for, somewhat more than any call takes.
const SLOTS: usize = 16_500;

const RECORDS: usize = 300;

// The roster, the table and how much of it is in use, and the report list with how many records of it are.
// Arrays with their lengths beside them: a line may set a length above the memory, and `fill` and `stale` reach past it.
#[derive(Drop)]
pub(crate) struct Memory {
    pub(crate) roster: Roster,
    table: [u16; SLOTS],
    length: usize,
    list: [HostRecord; RECORDS],
    records: usize,
}

impl Memory {
    // All of it zero.
    pub(crate) fn new() -> Self {
        let none = HostRecord {
            number: 0,
            rate: 0,
            quota: 0,
        };
        Memory {
            roster: roster::empty(),
            table: [0; SLOTS],
            length: 0,
            list: [none; RECORDS],
            records: 0,
        }
    }

    // The part of the table in use.
    pub(crate) fn owners(&self) -> &[u16] {
        &self.table[..self.length.min(SLOTS)]
    }

    // The same, to be changed.
    pub(crate) fn owners_mut(&mut self) -> &mut [u16] {
        &mut self.table[..self.length.min(SLOTS)]
    }

    // The part of the report list in use.
    pub(crate) fn records(&self) -> &[HostRecord] {
        &self.list[..self.records.min(RECORDS)]
    }

    // The same, to be filled.
    pub(crate) fn records_mut(&mut self) -> &mut [HostRecord] {
        &mut self.list[..self.records.min(RECORDS)]
    }

    // No hosts.
    pub(crate) fn clear(&mut self) {
        self.roster = roster::empty();
    }

    // Does what a line sets; nothing where its word is unknown.
    pub(crate) fn set(&mut self, word: &[u8], words: &mut Words<'_>) {
        match word {
            b"host" => self.set_host(words.place(), words.host(), words.number()),
            b"count" => self.roster.count = words.place(),
            b"length" => self.length = words.place(),
            b"fill" => self.fill(words.place(), words.place(), words.host()),
            b"records" => self.records = words.place(),
            b"stale" => self.set_record(words),
            _ => {}
        }
    }

    // `host P N R`.
    fn set_host(&mut self, place: usize, host: u16, rate: u32) {
        if place < self.roster.hosts.len() {
            self.roster.hosts[place] = host;
            self.roster.rates[place] = rate;
        }
    }

    // `fill A B O`.
    fn fill(&mut self, from: usize, to: usize, owner: u16) {
        if let Some(part) = self.table.get_mut(from..to) {
            part.fill(owner);
        }
    }

    // `stale P N R Q`.
    fn set_record(&mut self, words: &mut Words<'_>) {
        if let Some(record) = self.list.get_mut(words.place()) {
            *record = HostRecord {
                number: words.host(),
                rate: words.number(),
                quota: words.number(),
            };
        }
    }
}
