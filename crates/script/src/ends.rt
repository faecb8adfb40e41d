// The end of a line: its call is made, and its answer put into out.
ghost use Rattle.std.specs.Prelude.{◌≡◌, ◌++◌, ◌+◌, ◌≤◌, length, take};
ghost use Rattle.layout.specs.Buffer.{in_form};
ghost use Rattle.answers.specs.Answers.{answer_room, max_answer};
ghost use Rattle.print.specs.Print.{line_room};
ghost use Rattle.script.specs.Limits.{over_line, Lent};
ghost use Rattle.script.specs.Script.{line_text, line_leaves};
ghost use Rattle.script.specs.Fold.{progress, ended, words_text};

use super::{Buffers, State};

// The first count words of an answer as a line, `unread` for none.
pub fn print_words(out: &mut [u8], at: usize, answer: &[u32], count: usize) -> usize
    requires line_room_in_bounds { at + line_room ≤ length out.old }
    requires count_le_max_answer { (count ≤ max_answer) × (answer_room ≤ length answer.now) }
    ensures out_after { take result out.new
        ≡ take at out.old ++ words_text (take count answer.now) }
    ensures upper_bound { result ≤ at + line_room }
{
    if count == 0 {
        return print::print_unread(out, at);
    }
    print::print_answer(out, at, &answer[0..count])
}

// A line of any length: read, performed, answered.
fn line_done(
    store: &mut [u32],
    ready: bool,
    line: &[u8],
    numbers: &mut [u32],
    answer: &mut [u32],
    out: &mut [u8],
    at: usize,
) -> State
    requires ready_value { ready ≡ in_form store.old }
    requires over_line_in_bounds { (over_line ≤ length numbers.old) ×
        (answer_room ≤ length answer.old) }
    requires line_room_in_bounds { at + line_room ≤ length out.old }
    ensures ready_value_2 { (result.ready ≡ in_form store.new) × (result.len ≡ 0) }
    ensures store_after { store.new ≡ line_leaves store.old line.now }
    ensures out_after { take result.end out.new
        ≡ take at out.old ++ line_text store.old line.now }
    ensures end_bound { result.end ≤ at + line_room }
{
    let command = lines::read_line(line, numbers);
    let made = calls::perform(store, ready, command, numbers, answer);
    let end = print_words(out, at, answer, made.count);
    State {
        ready: made.ready,
        len: 0,
        end,
    }
}

// The line under way has ended.
pub fn part_done(
    store: &mut [u32],
    state: State,
    line: &[u8],
    numbers: &mut [u32],
    answer: &mut [u32],
    out: &mut [u8],
) -> State
    requires ready_value { state.ready ≡ in_form store.old }
    requires lent { Lent line.now numbers.old answer.old }
    requires line_room_in_bounds { state.end + line_room ≤ length out.old }
    ensures ready_value_2 { result.ready ≡ in_form store.new }
    ensures out_after { progress store.new line.now result.len
        (take result.end out.new)
        ≡ ended (progress store.old line.now state.len
        (take state.end out.old)) }
    ensures end_bound { result.end ≤ state.end + line_room }
{
    if Buffers::LINE < state.len {
        let end = print::print_unread(out, state.end);
        return State {
            len: 0,
            end,
            ..state
        };
    }
    let n = state.len;
    line_done(
        store,
        state.ready,
        &line[0..n],
        numbers,
        answer,
        out,
        state.end,
    )
}
