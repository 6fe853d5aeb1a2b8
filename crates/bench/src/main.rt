// Workloads for bench/run that read no lines. Each four arguments are a workload's name, how many turns, how many hosts and how many slots.
// It prints a sum of what came out for each; `stdout` comes from bench/plain.c, never from this program.
#![tactic(auto)]

mod arguments;
mod farm;
mod sum;
mod workloads;

use std::io;
use workloads::Task;

// Each four arguments name a workload; fewer, at the end, name none. What is no number is 0.
fn main(rt: HostRuntime) -> io::Result<()> {
    for turn in 0..usize::MAX / 4 - 1 {
        let i = 4 * turn + 1;
        if !arguments::is_given(&rt, i + 3) {
            break;
        }
        let task = Task {
            turns: arguments::number(&rt, i + 1).unwrap_or(0),
            hosts: arguments::number(&rt, i + 2).unwrap_or(0),
            slots: arguments::number(&rt, i + 3).unwrap_or(0),
        };
        let sum = task.run(arguments::letter(&rt, i));
        println!(rt; "{sum}")?;
    }
    Ok(())
}
