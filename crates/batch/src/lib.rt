// A text of calls: the call of each whole line is made on a lent buffer, and its answer put into a
// lent slice of bytes. Whether the buffer is in form is tested once.
#![tactic(auto)]

mod line;

ghost use Rattle.std.specs.Prelude.{◌≡◌, [], ◌≤◌, length, take, drop};
ghost use Rattle.batch.specs.Batch.{point, text_done, DoesText};
ghost use Rattle.batch.specs.Parts.{Lends};

use form::in_form;
use line::{line_done, line_end};
use print::Line;
use script::Buffers;

// How many bytes of a text were taken, and how many of answers were put.
#[derive(Clone, Copy)]
struct Taken {
    text: usize,
    answers: usize,
}

// Takes whole lines from the front of the text, as many as out has room for.
fn make_lines(
    store: &mut [u32],
    text: &[u8],
    out: &mut [u8],
    scratch: &mut [u32],
    numbers: &mut [u32],
    answer: &mut [u32],
    row: &mut [u8],
) -> Taken
    requires { Lends numbers.old answer.old row.old }
    ensures text_after { point store.new scratch.new
        (take result.answers out.new) result.text
        ≡ text_done store.old scratch.old (length out.old)
        text.now }
    ensures answers_in_bounds { (result.answers ≤ length out.old)
        × (drop result.answers out.new ≡ drop result.answers out.old) }
{
    let mut ready = in_form(store);
    let mut at = 0;
    let mut end = 0;
    // No index is counted here: at moves on by a line, and out may be full before the text ends.
    while Line::ROOM <= out.len() - end {
        let stop = line_end(text, at);
        if stop == text.len() {
            return Taken {
                text: at,
                answers: end,
            };
        }
        let line = &text[at..stop];
        let done = line_done(store, ready, scratch, line, numbers, answer, row, out, end);
        ready = done.ready;
        end = done.end;
        at = stop + 1;
    }
    Taken {
        text: at,
        answers: end,
    }
}

// Makes the calls of a text, on any buffers. The first two counts become the bytes of text taken
// and of answers put, and 2 is answered; where there is no room for them nothing is done, and 0 is
// answered.
pub fn make_text(
    store: &mut [u32],
    text: &[u8],
    out: &mut [u8],
    scratch: &mut [u32],
    counts: &mut [usize],
) -> u32
    ensures { DoesText text.now store.old store.new
        scratch.old scratch.new out.old out.new
        counts.old counts.new result }
{
    if counts.len() < 2 {
        return 0;
    }
    let mut numbers = [0u32; Buffers::NUMBERS];
    let mut answer = [0u32; Buffers::ANSWER];
    let mut row = [0u8; Line::ROOM];
    let taken = make_lines(
        store,
        text,
        out,
        scratch,
        &mut numbers,
        &mut answer,
        &mut row,
    );
    counts[0] = taken.text;
    counts[1] = taken.answers;
    2
}
