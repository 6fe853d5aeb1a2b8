// The reader of the program's lines: a number, a keyed line, and what one line brings where a line of some kind is due.
#![tactic(auto)]

ghost use Rattle.std.specs.Prelude.{◌≡◌};
ghost use Rattle.std.specs.Option.{ok_or};
ghost use Rattle.lines.specs.Numbers as numbers;
ghost use Rattle.lines.specs.Lines as lines;
ghost use Rattle.lines.specs.Laws.{NumberSays, KeyAfterEquals, MalformedCarries, OthersCarry, LongMalformed, CommentInside, NumberFixed, KeyFixed, ReadFixed};

use events::Event;

// What line is due: the slot count, the first line of a record, or a line inside a record, with the host that came before it.
#[derive(Clone, Copy, Debug, PartialEq, Eq)]
pub enum Due {
    Slots,
    Opening,
    HostAdded,
    RateAdded { host: u32 },
    HostDropped,
    HostRerated,
    NewRate { host: u32 },
    Key,
}

// A record: a change, a find or a comment. The key of a find is handed back beside it, by `key`.
#[derive(Clone, Copy, Debug, PartialEq, Eq)]
pub enum Record {
    Change(Event),
    Find,
    Comment,
}

// What a line brings: the slot count, a part of a record with the line due after it, or a record's end.
#[derive(Clone, Copy, Debug, PartialEq, Eq)]
pub enum Read {
    Count(u32),
    Part(Due),
    Whole(Record),
}

// A line that is too long or not the one due, by its number in the input: it is answered with 13.
#[derive(Clone, Copy, Debug, PartialEq, Eq)]
pub struct Malformed {
    pub line: u64,
}

// Whether a text has 1 to 9 bytes and no zero before others.
#[tactic(auto, unfolding(crate::specs::Numbers::well_sized))]
fn well_sized(text: &[u8]) -> bool
    ensures { result ≡ numbers.well_sized text.now }
{
    match text {
        [] => false,
        [_] => true,
        [first, ..] => *first != b'0' && text.len() <= 9,
    }
}

// The number that a text says, if it is one. By hand, since `parse` takes a sign, zeros before others and more than nine digits.
pub fn number_in(text: &[u8]) -> Option<u32>
    ensures { result ≡ numbers.number_of text.now }
{
    if !well_sized(text) {
        return None;
    }
    let mut value = 0;
    for &byte in text {
        if !byte.is_ascii_digit() {
            return None;
        }
        value = value * 10 + u32::from(byte - b'0');
    }
    Some(value)
}

// The number that a line holds after a name and its equals sign.
fn field(name: &[u8], line: &[u8]) -> Option<u32>
    ensures { result ≡ lines.field_of name.now line.now }
{
    number_in(line.strip_prefix(name)?)
}

// The key of a find: the part of the caller's line after the equals sign, no copy. A line that holds no key has an empty one.
pub fn key(line: &[u8]) -> &[u8]
    ensures { result.now ≡ lines.key_of line.now }
{
    line.strip_prefix(b"key=").unwrap_or(&[])
}

// What the first line of a record brings.
fn opened(number: u64, line: &[u8]) -> Result<Read, Malformed>
    ensures { result ≡ lines.opens number line.now }
{
    if line.starts_with(b"#") {
        Ok(Read::Whole(Record::Comment))
    } else if line == b"op=add".as_slice() {
        Ok(Read::Part(Due::HostAdded))
    } else if line == b"op=drop".as_slice() {
        Ok(Read::Part(Due::HostDropped))
    } else if line == b"op=rate".as_slice() {
        Ok(Read::Part(Due::HostRerated))
    } else if line == b"op=find".as_slice() {
        Ok(Read::Part(Due::Key))
    } else {
        Err(Malformed { line: number })
    }
}

// What a line of any length brings where a line is due.
fn read_due(due: Due, number: u64, line: &[u8]) -> Result<Read, Malformed>
    ensures { result ≡ lines.read_due due number line.now }
{
    let malformed = Malformed { line: number };
    match due {
        Due::Slots => {
            let slots = field(b"slots=", line).ok_or(malformed)?;
            Ok(Read::Count(slots))
        }
        Due::Opening => opened(number, line),
        Due::HostAdded => {
            let host = field(b"host=", line).ok_or(malformed)?;
            Ok(Read::Part(Due::RateAdded { host }))
        }
        Due::RateAdded { host } => {
            let rate = field(b"rate=", line).ok_or(malformed)?;
            Ok(Read::Whole(Record::Change(Event::Add { host, rate })))
        }
        Due::HostDropped => {
            let host = field(b"host=", line).ok_or(malformed)?;
            Ok(Read::Whole(Record::Change(Event::Drop { host })))
        }
        Due::HostRerated => {
            let host = field(b"host=", line).ok_or(malformed)?;
            Ok(Read::Part(Due::NewRate { host }))
        }
        Due::NewRate { host } => {
            let rate = field(b"rate=", line).ok_or(malformed)?;
            Ok(Read::Whole(Record::Change(Event::Rate { host, rate })))
        }
        Due::Key if line.starts_with(b"key=") => Ok(Read::Whole(Record::Find)),
        Due::Key => Err(malformed),
    }
}

// What a whole line, the numbered one of its input, brings where a line is due.
#[tactic(auto, unfolding(crate::specs::Lines::read_line))]
pub fn read_line(due: Due, number: u64, line: &[u8]) -> Result<Read, Malformed>
    ensures { result ≡ lines.read_line due number line.now }
{
    if line.len() > 8_192 {
        return Err(Malformed { line: number });
    }
    read_due(due, number, line)
}

// The laws of the line reader: without their proofs this function is not proved.
pub fn promises()
    ensures carried { NumberSays × KeyAfterEquals × MalformedCarries × OthersCarry }
    ensures refused { LongMalformed × CommentInside }
    ensures fixed { NumberFixed × KeyFixed × ReadFixed }
{}
