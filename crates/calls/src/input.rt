// The input, read in pieces through a buffer of fixed size and taken line by line.

ghost use Rattle.std.specs.Prelude.{◌<◌, ◌≤◌};
ghost use Rattle.calls.specs.declared.input.TheConstants.{SIZE};

use crate::exchange::Exchange;
use std::io::{Read, Write};

// As many bytes as a line may have, with its end.
const SIZE: usize = 65_536;

// Where the lines come from, the buffer, and how much of it is the beginning of a line. No `BufReader`: it needs an allocator, on which this program does not rest.
#[derive(Drop)]
pub(crate) struct Input<R: Read + Drop> {
    from: R,
    buffer: [u8; SIZE],
    kept: usize,
    ghost room: { kept < SIZE },
}

impl<R: Read + Drop> Input<R> {
    // Before the first read.
    pub(crate) fn new(from: R) -> Self {
        Input {
            from,
            buffer: [0; SIZE],
            kept: 0,
        }
    }

    // Reads once and takes the lines that this ends; answers whether anything was read.
    fn take_piece<W: Write + Drop>(&mut self, exchange: &mut Exchange<W>) -> bool {
        let got = self.from.read(&mut self.buffer[self.kept..]).unwrap_or(0);
        let filled = self.kept + got;
        let held = &self.buffer[..filled];
        let whole = held
            .iter()
            .rposition(|byte| *byte == b'\n')
            .map_or(0, |end| end + 1);
        // behind the last end of a line stands an empty one, which says nothing
        for line in held[..whole].split(|byte| *byte == b'\n') {
            exchange.take_line(line);
        }
        self.keep(whole, filled);
        got > 0
    }

    // Moves what is left to the front of the buffer. What fills the buffer is no line, and is let go.
    fn keep(&mut self, whole: usize, filled: usize)
        requires { (whole ≤ filled) × (filled ≤ SIZE) }
    {
        self.kept = filled - whole;
        if self.kept == SIZE {
            self.kept = 0;
        }
        self.buffer.copy_within(whole..filled, 0);
    }

    // Takes the whole input. A proved loop has to end: it counts up to a number that no run reaches.
    pub(crate) fn take_all<W: Write + Drop>(&mut self, exchange: &mut Exchange<W>) {
        for _ in 0..u64::MAX {
            if !self.take_piece(exchange) {
                break;
            }
        }
    }
}
