// Serving an input: it is read in pieces through a fixed buffer, every line of it is run, and what is printed is written before more is read.
#![tactic(auto)]

ghost use Rattle.std.specs.Prelude.{◌≤◌, ◌<◌, length, IfSome};
ghost use Rattle.std.specs.ControlFlow.{ForBreak, ForContinue};
ghost use Rattle.serving.specs.Served.{Faithful};
ghost use Rattle.serving.specs.Turns.{Holding, Waiting, Longer, Unchanged};

use std::io;
use std::io::{Error, Read, Write};
use std::ops::ControlFlow;
use stream::State;

// How serving an input ended: the last state, and whether nothing read is left to take. A write that fails may leave some.
// `done` is a flag, since the state is there in either case, and `Faithful` tells both.
#[derive(Clone, Copy, Debug, PartialEq, Eq)]
pub struct Ended {
    pub state: State,
    pub done: bool,
}

// What is read, where it is answered, and where what failed is told.
#[derive(Drop)]
struct Channels<R, W, E> {
    input: R,
    output: W,
    errors: E,
}

impl<R: Read, W: Write, E: Write> Channels<R, W, E> {
    // Says what failed and why, in one line; where that fails too nothing is said.
    fn say(&mut self, what: &str, why: Error) {
        let _ = writeln!(self.errors, "farmtable: {what}: {why}");
    }

    // Reads, and says so if it fails.
    fn read(&mut self, buf: &mut [u8]) -> Option<usize>
        ensures { IfSome result (λ n. n ≤ length buf.new) }
    {
        match self.input.read(buf) {
            Ok(n) => Some(n),
            Err(why) => {
                self.say("read", why);
                None
            }
        }
    }

    // Writes, and hands on what the writer holds back, since who reads may wait for it.
    fn put_out(&mut self, text: &[u8]) -> io::Result<()> {
        self.output.write_all(text)?;
        self.output.flush()
    }

    // Writes, and says so if it fails: then nothing more is written.
    fn write(&mut self, text: &[u8]) -> bool {
        match self.put_out(text) {
            Ok(()) => true,
            Err(why) => {
                self.say("write", why);
                false
            }
        }
    }
}

// A farm that is served: where its stream stands, its owners, the bytes held at the front of the buffer, and room for what is printed.
// Three fixed arrays, so that memory does not grow, and no vector of fixed room: a reader fills a slice.
// `Holding` is a clause and no invariant of the type: it holds between two turns, and after the last `Faithful` holds in its place.
#[derive(Drop)]
struct Server {
    state: State,
    owners: [u16; 16384],
    buf: [u8; 65536],
    held: usize,
    out: [u8; 65536],
}

impl Server {
    // Before the first read.
    fn new() -> Server
        ensures { Holding result }
    {
        Server {
            state: State::new(),
            owners: base::filled(0),
            buf: base::filled(0),
            held: 0,
            out: base::filled(0),
        }
    }

    // Runs the bytes held and writes what they print; then keeps what is left, or reads more where nothing was taken.
    // At the end it tells whether nothing read is left to take.
    #[tactic(auto, using(crate::proofs::Holdings::run_fits))]
    fn turn<R: Read, W: Write, E: Write>(
        &mut self,
        channels: &mut Channels<R, W, E>,
    ) -> ControlFlow<bool>
        requires { Holding self.old }
        ensures goes_on { ForContinue result (λ next. Holding self.new) }
        ensures ends { ForBreak result (λ done. Faithful self.new.state done) }
    {
        let ran = buffer::run(
            self.state,
            &mut self.owners,
            &self.buf[..self.held],
            &mut self.out,
        );
        self.state = ran.state;
        if !channels.write(&self.out[..ran.printed]) {
            return ControlFlow::Break(false);
        }
        if self.state.stopped {
            return ControlFlow::Break(true);
        }
        if ran.next == 0 {
            return self.more(channels);
        }
        self.held = buffer::keep(&mut self.buf[..self.held], ran.next);
        ControlFlow::Continue(())
    }

    // Reads behind the bytes held, of which no line is to be taken; at the end of the input writes what that means.
    #[tactic(auto, using(buffer::proofs::Runs::finish_within))]
    fn more<R: Read, W: Write, E: Write>(
        &mut self,
        channels: &mut Channels<R, W, E>,
    ) -> ControlFlow<bool>
        requires waits { Waiting self.old }
        requires room { self.old.held < length self.old.buf }
        ensures stays { Unchanged self.old self.new }
        ensures longer { ForContinue result (λ next. Longer self.old.buf self.new.buf self.old.held self.new.held) }
        ensures goes_on { ForContinue result (λ next. Holding self.new) }
        ensures ends { ForBreak result (λ done. Faithful self.new.state done) }
    {
        match channels.read(&mut self.buf[self.held..]) {
            None => ControlFlow::Break(true),
            Some(0) => {
                let n = buffer::finish(self.state, &self.buf[..self.held], &mut self.out);
                channels.write(&self.out[..n]);
                ControlFlow::Break(true)
            }
            Some(n) => {
                self.held += n;
                ControlFlow::Continue(())
            }
        }
    }
}

// Serves a whole input, from a reader to a writer, in memory that does not grow. A read or a write that fails ends it, and is told in one line among the errors.
// The turns are counted up to a number that no run reaches, since a proved loop has to end.
pub fn serve<R: Read, W: Write, E: Write>(input: &mut R, output: &mut W, errors: &mut E) -> Ended
    ensures { Faithful result.state result.done }
{
    let mut server = Server::new();
    let mut channels = Channels {
        input,
        output,
        errors,
    };
    for _ in 0..u64::MAX {
        if let ControlFlow::Break(done) = server.turn(&mut channels) {
            return Ended {
                state: server.state,
                done,
            };
        }
    }
    Ended {
        state: server.state,
        done: false,
    }
}
