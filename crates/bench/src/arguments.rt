// The program's arguments, read as bytes.

use std::env::{Env, FillError};

// As many bytes as an argument may have.
const LONGEST: usize = 4_096;

// Whether there is an argument, however long.
pub(crate) fn is_given(rt: &impl Env, i: usize) -> bool {
    !matches!(rt.arg(i, &mut [0; LONGEST]), Err(FillError::NotPresent))
}

// An argument, put into a text; an empty one where it is missing or too long.
fn argument<'t>(rt: &impl Env, i: usize, text: &'t mut [u8]) -> &'t [u8] {
    match rt.arg(i, text) {
        Ok(n) => &text[..n],
        Err(_) => b"",
    }
}

// The first letter of an argument.
pub(crate) fn letter(rt: &impl Env, i: usize) -> Option<u8> {
    let mut text = [0; LONGEST];
    argument(rt, i, &mut text).first().copied()
}

// The number that an argument says.
pub(crate) fn number(rt: &impl Env, i: usize) -> Option<u32> {
    let mut text = [0; LONGEST];
    lines::number_in(argument(rt, i, &mut text))
}
