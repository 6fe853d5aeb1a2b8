// The words and numbers of a line, which single spaces part.

use events::Event;

// What is left of a line.
#[derive(Clone, Copy)]
pub(crate) struct Words<'a> {
    rest: &'a [u8],
}

// A text's first word and what stands behind its space; nothing where there is no space.
pub(crate) fn split_word(text: &[u8]) -> Option<(&[u8], &[u8])> {
    let end = text.iter().position(|byte| *byte == b' ')?;
    Some((&text[..end], &text[end + 1..]))
}

// A number with one digit more, 0 where it has grown too long.
fn with_digit(value: u64, digit: u32) -> u64 {
    if value > 1_000_000_000_000 {
        return 0;
    }
    value * 10 + u64::from(digit)
}

impl<'a> Words<'a> {
    // A text from its beginning.
    pub(crate) fn new(rest: &'a [u8]) -> Self {
        Words { rest }
    }

    // The next word, empty at the end of the line.
    fn word(&mut self) -> &'a [u8] {
        let (word, rest) = split_word(self.rest).unwrap_or((self.rest, b""));
        self.rest = rest;
        word
    }

    // The number that the next word begins with, 0 where it begins with none: by hand, since `parse` takes no number with more behind it.
    pub(crate) fn long_number(&mut self) -> u64 {
        self.word()
            .iter()
            .map_while(|byte| char::from(*byte).to_digit(10))
            .fold(0, with_digit)
    }

    // The same, 0 where it does not fit.
    pub(crate) fn number(&mut self) -> u32 {
        u32::try_from(self.long_number()).unwrap_or(0)
    }

    // The same as a host number.
    pub(crate) fn host(&mut self) -> u16 {
        u16::try_from(self.number()).unwrap_or(0)
    }

    // The same as a place.
    pub(crate) fn place(&mut self) -> usize {
        self.number() as usize
    }

    // The event of a name, `H R` behind it, or `H` alone behind `drop`.
    pub(crate) fn event(&mut self, name: &[u8]) -> Event {
        let host = self.number();
        match name {
            b"drop" => Event::Drop { host },
            b"add" => Event::Add {
                host,
                rate: self.number(),
            },
            _ => Event::Rate {
                host,
                rate: self.number(),
            },
        }
    }

    // `add H R`, `drop H`, `rate H R`.
    pub(crate) fn named_event(&mut self) -> Event {
        let name = self.word();
        self.event(name)
    }

    // All that is left.
    pub(crate) fn rest(self) -> &'a [u8] {
        self.rest
    }
}
