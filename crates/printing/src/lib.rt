// Printing: what a stream says, put as text at a place of a lent output.
#![tactic(auto)]

ghost use Rattle.std.specs.Prelude.{◌≡◌, ◌+◌, ◌≤◌, length};
ghost use Rattle.stream.specs.Text.{decimal, printed_line, text_of};
ghost use Rattle.printing.specs.Wrote.{room_for, place_after, said_at};
ghost use Rattle.printing.specs.Sheet.{Put};
ghost use Rattle.printing.specs.Laws.{SaidFixed};

use stream::Said;

// A lent output, and the place behind what was put into it.
// Put by hand: of `write!` and `Display` the library promises the text only where it is `Ok`, and never that it is, and `put_said` cannot fail.
#[derive(Drop)]
struct Sheet<'a> {
    out: &'a mut [u8],
    at: usize,
}

impl Sheet<'_> {
    // Puts a text.
    fn put(&mut self, text: &[u8])
        requires { self.old.at + length text.now ≤ length self.old.out.now }
        ensures { Put self.old self.new text.now }
    {
        let end = self.at + text.len();
        self.out[self.at..end].copy_from_slice(text);
        self.at = end;
    }

    // Puts a number in decimal.
    fn put_decimal(&mut self, value: u64)
        requires { self.old.at + 20 ≤ length self.old.out.now }
        ensures { Put self.old self.new (decimal value) }
    {
        let mut digits = [0; 20];
        let k = io::decimal(value, &mut digits);
        self.put(&digits[..k]);
    }

    // Puts a printed line: a name with its equals sign, a number and byte 10.
    fn put_line(&mut self, name: &[u8], value: u64)
        requires { self.old.at + length name.now + 21 ≤ length self.old.out.now }
        ensures { Put self.old self.new (printed_line name.now value) }
    {
        self.put(name);
        self.put_decimal(value);
        self.put(b"\n");
    }

    // Puts the lines of what a stream says.
    #[tactic(auto, using(crate::proofs::Texts::length_line))]
    fn put_said(&mut self, said: Said)
        requires { self.old.at + 84 ≤ length self.old.out.now }
        ensures { Put self.old self.new (text_of said) }
    {
        match said {
            Said::Nothing => {}
            Said::Moved { answer, moved } => {
                self.put_line(b"answer=", answer as u64);
                self.put_line(b"moved=", moved as u64);
            }
            Said::Owner { answer, slot, host } => {
                self.put_line(b"answer=", answer as u64);
                self.put_line(b"slot=", slot as u64);
                self.put_line(b"host=", host as u64);
            }
            Said::Wrong { line } => {
                self.put_line(b"answer=", 13);
                self.put_line(b"line=", line);
            }
        }
    }
}

// Whether the output has room for the longest text: 84 bytes.
pub fn has_room(size: usize, at: usize) -> bool
    ensures { result ≡ room_for size at }
{
    size >= 84 && at <= size - 84
}

// Puts what a stream says, and answers the place behind it. Where the output has no room for the longest text it is left as it was.
pub fn put_said(said: Said, out: &mut [u8], at: usize) -> usize
    ensures place { result ≡ place_after said (length out.old) at }
    ensures bytes { out.new ≡ said_at said out.old at }
{
    if !has_room(out.len(), at) {
        return at;
    }
    let mut sheet = Sheet { out, at };
    sheet.put_said(said);
    sheet.at
}

// The law of printing: without its proof this function is not proved.
pub fn promises()
    ensures { SaidFixed }
{}
