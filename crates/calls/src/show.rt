// The memory in three lines.

use crate::memory::Memory;
use report::HostRecord;
use roster::Roster;
use std::fmt;

// The places of the roster where a host or a rate is set.
fn put_roster<W: fmt::Write>(roster: &Roster, f: &mut fmt::Formatter<W>) -> fmt::Result {
    write!(f, "roster {}", roster.count)?;
    for (i, (host, rate)) in roster.hosts.iter().zip(roster.rates.iter()).enumerate() {
        if *host != 0 || *rate != 0 {
            write!(f, " {i}:{host}:{rate}")?;
        }
    }
    writeln!(f)
}

// The runs of equal owners.
fn put_table<W: fmt::Write>(owners: &[u16], f: &mut fmt::Formatter<W>) -> fmt::Result {
    write!(f, "table")?;
    for run in owners.chunk_by(|a, b| a == b) {
        if let [owner, ..] = run {
            write!(f, " {}*{owner}", run.len())?;
        }
    }
    writeln!(f)
}

// The records in use.
fn put_list<W: fmt::Write>(records: &[HostRecord], f: &mut fmt::Formatter<W>) -> fmt::Result {
    write!(f, "list")?;
    for record in records {
        write!(f, " {}:{}:{}", record.number, record.rate, record.quota)?;
    }
    writeln!(f)
}

impl fmt::Display for Memory {
    fn fmt<W: fmt::Write>(&self, f: &mut fmt::Formatter<W>) -> fmt::Result {
        put_roster(&self.roster, f)?;
        put_table(self.owners(), f)?;
        put_list(self.records(), f)
    }
}
