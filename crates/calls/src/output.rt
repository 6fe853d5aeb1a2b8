// Text in a buffer of fixed size, written out whenever it is full.

ghost use Rattle.std.specs.Prelude.{◌≡◌, ◌≤◌};
ghost use Rattle.calls.specs.declared.output.TheConstants.{SIZE};

use std::fmt;
use std::io::Write;

// As many bytes as a write takes at once.
const SIZE: usize = 65_536;

// The buffer, how much of it is text, and where that goes. No `BufWriter`, as there is no `BufReader`.
#[derive(Drop)]
pub(crate) struct Output<W: Write + Drop> {
    buffer: [u8; SIZE],
    used: usize,
    to: W,
    ghost within: { used ≤ SIZE },
}

impl<W: Write + Drop> Output<W> {
    // Before the first text.
    pub(crate) fn new(to: W) -> Self {
        Output {
            buffer: [0; SIZE],
            used: 0,
            to,
        }
    }

    // Writes out what the buffer holds. Where that fails the text is lost, and whoever compares it sees that.
    pub(crate) fn flush(&mut self)
        ensures { self.new.used ≡ 0 }
    {
        let _ = self.to.write_all(&self.buffer[..self.used]);
        self.used = 0;
    }

    // Puts a byte. A full buffer is written out once one more comes, so that every write but the last is as long.
    fn put(&mut self, byte: u8) {
        if self.used == SIZE {
            self.flush();
        }
        self.buffer[self.used] = byte;
        self.used += 1;
    }
}

impl<W: Write + Drop> fmt::Write for Output<W> {
    // It never fails.
    fn write_str(&mut self, text: &str) -> fmt::Result {
        for byte in text.as_bytes() {
            self.put(*byte);
        }
        Ok(())
    }
}
