// Feeding a stream from a buffer: the next line of it taken, and what the end of the input means, both against the meaning of the whole input.
#![tactic(auto)]

ghost use Rattle.std.specs.Prelude.{◌≡◌, is_some, IfSome};
ghost use Rattle.stream.specs.Meaning.{may_begin, at_end};
ghost use Rattle.feed.specs.Feed as feed;
ghost use Rattle.feed.specs.Passing as passing;
ghost use Rattle.feed.specs.Laws.{NextGoes, NothingLeft, PieceLeft, LongPiece, EndPrints, FedFixed, EndFixed, PassedFed, PassingFixed};

use lines::Due;
use stream::{Passed, Said, State, Taken};

// What the next line leaves: the state, what is printed, and the place behind it.
#[derive(Clone, Copy, Debug, PartialEq, Eq)]
pub struct Fed {
    pub state: State,
    pub said: Said,
    pub next: usize,
}

// What the next line leaves that needs no roster: the line due after it, what is printed, and the place behind it. No twin of `Fed`, as `Passed` is none of `Taken`.
#[derive(Clone, Copy, Debug, PartialEq, Eq)]
pub struct Passing {
    pub due: Due,
    pub said: Said,
    pub next: usize,
}

// Where the first byte 10 stands.
fn line_end(bytes: &[u8]) -> Option<usize>
    ensures { result ≡ feed.line_end bytes.now }
{
    bytes.iter().position(|&byte| byte == b'\n')
}

// Where a line stands in a buffer: its bytes without its byte 10, and the place behind it.
#[derive(Clone, Copy)]
struct Span<'a> {
    line: &'a [u8],
    next: usize,
}

// The line that begins at a place of the input, if it is whole, or too long already.
fn span_of(input: &[u8], from: usize) -> Option<Span<'_>>
    ensures there { is_some result ≡ feed.has_line input.now from }
    ensures line { IfSome result (λ span. span.line.now ≡ feed.line_at input.now from) }
    ensures next { IfSome result (λ span. span.next ≡ feed.behind input.now from) }
{
    let rest = input.get(from..)?;
    match line_end(rest) {
        Some(end) => Some(Span {
            line: &rest[..end],
            next: from + end + 1,
        }),
        None if rest.len() > 8_192 => Some(Span {
            line: rest,
            next: input.len(),
        }),
        None => None,
    }
}

// Takes the line that begins at a place of the input: a whole one, or one that is too long already. Nothing where only a piece of a line is left.
#[tactic(auto, unfolding(crate::specs::Feed::fed, crate::specs::Feed::owners_fed))]
pub fn next_line(state: State, owners: &mut [u16], input: &[u8], from: usize) -> Option<Fed>
    ensures reply { result ≡ feed.fed_next state owners.old input.now from }
    ensures table { owners.new ≡ feed.owners_fed state owners.old input.now from }
{
    let Span { line, next } = span_of(input, from)?;
    let Taken { state, said } = state.take_line(owners, line);
    Some(Fed { state, said, next })
}

// Takes the line that begins at a place of the input with no roster at hand, if it is a whole one that needs none.
// Its parameters stay apart, as those of `pass_line`.
#[tactic(auto, unfolding(crate::specs::Passing::passes_by))]
pub fn pass_next(
    due: Due,
    number: u64,
    slots: u32,
    owners: &[u16],
    input: &[u8],
    from: usize,
) -> Option<Passing>
    ensures { result ≡ passing.passes_by due number slots owners.now input.now from }
{
    let Span { line, next } = span_of(input, from)?;
    let Passed { due, said } = stream::pass_line(due, number, slots, owners, line)?;
    Some(Passing { due, said, next })
}

// Whether a record may begin.
fn may_begin(due: Due) -> bool
    ensures { result ≡ may_begin due }
{
    matches!(due, Due::Opening)
}

// What the end of the input prints, with a piece of a line left over.
#[tactic(auto, unfolding(stream::specs::Meaning::at_end))]
pub fn end_of_input(state: State, piece: &[u8]) -> Said
    ensures { result ≡ at_end state piece.now }
{
    if state.stopped || may_begin(state.due) && piece.is_empty() {
        return Said::Nothing;
    }
    Said::Wrong {
        line: stream::next_number(state.lines),
    }
}

// The laws of feeding: without their proofs this function is not proved.
pub fn promises()
    ensures laws { NextGoes × NothingLeft × PieceLeft × LongPiece × EndPrints }
    ensures fixed { FedFixed × EndFixed }
    ensures passed { PassedFed × PassingFixed }
{}
