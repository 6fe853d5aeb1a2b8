// Every line that a buffer holds, taken one after the other, and what they print.
#![tactic(auto)]

ghost use Rattle.std.specs.Prelude.{◌≡◌, length, drop};
ghost use Rattle.printing.specs.Wrote.{wrote, said_at, place_after};
ghost use Rattle.stream.specs.Meaning.{at_end};
ghost use Rattle.buffer.specs.Run.{may_go_on, run, ran};
ghost use Rattle.buffer.specs.Laws.{RunGoes, RunEnds, RunWithin, AnyReads, AllPrinted, RanFixed};

use stream::State;

// What running a buffer leaves: the state, the place of the next line, and how long the text is that was put into the output.
#[derive(Clone, Copy, Debug, PartialEq, Eq)]
pub struct Ran {
    pub state: State,
    pub next: usize,
    pub printed: usize,
}

// Whether a line more may be taken: nothing has stopped, and the output has room for what it may say.
fn may_go_on(stopped: bool, size: usize, printed: usize) -> bool
    ensures { result ≡ may_go_on stopped size printed }
{
    !stopped && printing::has_room(size, printed)
}

// Takes every line of a buffer as far as the output has room, and puts what they say into the output from its front.
// A line that needs no roster is taken without the state, which is large to copy.
// No index is counted: the loop goes from line to line, until the stream stops, the output is full or no line is left.
pub fn run(mut state: State, owners: &mut [u16], input: &[u8], out: &mut [u8]) -> Ran
    ensures reply { result ≡ ran (run state owners.old input.now (length out.old)) }
    ensures table { owners.new ≡ (run state owners.old input.now (length out.old)).owners }
    ensures text { out.new ≡ wrote out.old 0 (run state owners.old input.now (length out.old)).text }
{
    let mut next = 0;
    let mut printed = 0;
    while may_go_on(state.stopped, out.len(), printed) {
        let number = stream::next_number(state.lines);
        let passed = feed::pass_next(state.due, number, state.slots, owners, input, next);
        if let Some(passing) = passed {
            printed = printing::put_said(passing.said, out, printed);
            state.due = passing.due;
            state.lines = number;
            next = passing.next;
            continue;
        }
        let Some(fed) = feed::next_line(state, owners, input, next) else {
            break;
        };
        printed = printing::put_said(fed.said, out, printed);
        state = fed.state;
        next = fed.next;
    }
    Ran {
        state,
        next,
        printed,
    }
}

// Moves the bytes from a place on to the front of a buffer, and answers how many they are.
pub fn keep(buf: &mut [u8], from: usize) -> usize
    ensures count { result ≡ length (drop from buf.old) }
    ensures bytes { buf.new ≡ wrote buf.old 0 (drop from buf.old) }
{
    let from = from.min(buf.len());
    buf.copy_within(from.., 0);
    buf.len() - from
}

// Puts what the end of the input prints, with a piece of a line left over, and answers how long it is.
pub fn finish(state: State, piece: &[u8], out: &mut [u8]) -> usize
    ensures place { result ≡ place_after (at_end state piece.now) (length out.old) 0 }
    ensures bytes { out.new ≡ said_at (at_end state piece.now) out.old 0 }
{
    let said = feed::end_of_input(state, piece);
    printing::put_said(said, out, 0)
}

// The laws of running a buffer: without their proofs this function is not proved.
pub fn promises()
    ensures buffers { RunGoes × RunEnds × RunWithin }
    ensures reads { AnyReads × AllPrinted }
    ensures fixed { RanFixed }
{}
