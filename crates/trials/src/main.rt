// Runs farm F of document 01, Farms to try, at 20 slots through its drop, its drop and add again, and its new rate, and prints the table after each.
// `stdout` is written by hand from the document: hosts 1 to 4 with rates 15, 23, 31, 31 hold 3, 5, 6 and 6 slots of a fresh layout.
#![tactic(auto)]

use base::Refusal;
use events::Event;
use roster::Roster;
use std::io;

const SLOTS: u32 = 20;

// The runs, each of which begins with a fresh layout of farm F: events with their names.
const RUNS: [&[(&str, Event)]; 3] = [
    &[("drop 4", Event::Drop { host: 4 })],
    &[
        ("drop 1", Event::Drop { host: 1 }),
        ("add 1", Event::Add { host: 1, rate: 15 }),
    ],
    &[("rate 1", Event::Rate { host: 1, rate: 46 })],
];

// What was done, the answer, how many slots changed owner, and the table after it.
fn print_trial(
    rt: &impl Print,
    name: &str,
    reply: Result<u32, Refusal>,
    table: &[u16],
) -> io::Result<()> {
    let answer = reply.err().map_or(0, u32::from);
    let moved = reply.unwrap_or(0);
    print!(rt; "{name}: answer {answer}, moved {moved}, slots")?;
    for owner in table {
        print!(rt; " {owner}")?;
    }
    println!(rt)
}

// Farm F.
fn farm() -> Roster {
    let mut farm = roster::empty();
    for (host, rate) in [(1, 15), (2, 23), (3, 31), (4, 31)] {
        farm = roster::added(farm, host, rate);
    }
    farm
}

// A fresh layout of a farm, in which no slot counts as moved.
fn lay_out(farm: Roster, table: &mut [u16]) -> Result<u32, Refusal> {
    table::layout(farm, SLOTS, table)?;
    Ok(0)
}

// A run over a fresh layout of a farm, with the table after each event.
fn try_run(
    rt: &impl Print,
    farm: Roster,
    run: &[(&str, Event)],
    table: &mut [u16],
) -> io::Result<()> {
    let mut roster = farm;
    // the first trial says whether this is refused
    let _ = lay_out(farm, table);
    for (name, event) in run {
        let reply = match events::apply(roster, SLOTS, *event, table) {
            Ok(change) => {
                roster = change.roster;
                Ok(change.moved)
            }
            Err(refused) => Err(refused.reason),
        };
        print_trial(rt, name, reply, table)?;
    }
    Ok(())
}

fn main(rt: HostRuntime) -> io::Result<()> {
    let farm = farm();
    let mut table = [0; SLOTS as usize];
    let fresh = lay_out(farm, &mut table);
    print_trial(&rt, "fresh", fresh, &table)?;
    for run in RUNS {
        try_run(&rt, farm, run, &mut table)?;
    }
    Ok(())
}
