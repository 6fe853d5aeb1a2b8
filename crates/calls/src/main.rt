// Reads lines on standard input, each of which sets a part of the memory or calls a function of the library, and prints each reply with the memory after it.
// Another program can read the same lines: then replies and lent memory are compared byte by byte.
#![tactic(auto)]

mod answer;
mod exchange;
mod input;
mod memory;
mod output;
mod show;
mod words;

use exchange::Exchange;
use input::Input;
use output::Output;

fn main(rt: HostRuntime) {
    let mut exchange = Exchange::new(Output::new(rt.stdout()));
    Input::new(rt.stdin()).take_all(&mut exchange);
    exchange.finish();
}
