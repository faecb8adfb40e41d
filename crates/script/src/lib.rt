// An input in chunks of bytes: each line's call is made, and its answer put into out.
#![tactic(auto)]

pub mod ends;

ghost use Rattle.std.specs.Prelude.{◌≡◌, false, [], ◌+◌, ◌*◌, ◌≤◌, length, take};
ghost use Rattle.layout.specs.Buffer.{in_form};
ghost use Rattle.answers.specs.Answers.{answer_room};
ghost use Rattle.lines.specs.Grammar.{max_line};
ghost use Rattle.print.specs.Print.{line_room};
ghost use Rattle.script.specs.Limits.{store_room, over_line, read_room, out_room, max_input, Lent};
ghost use Rattle.script.specs.Script.{lines_of, buffer_after, program, calls_in};
ghost use Rattle.script.specs.Fold.{progress, byte_step, fed, finished};
ghost use Rattle.script.specs.Tie.{Begun};

use ends::part_done;

// What is kept between chunks. ready: the buffer is in form. len: bytes of the line under way,
// Buffers::OVER for one that is too long; no Option, since progress and Served take that number.
// end: bytes of output.
#[derive(Clone, Copy)]
pub struct State {
    pub ready: bool,
    pub len: usize,
    pub end: usize,
}

// How much the buffers hold that the program lends: the words of the store; line, for the line
// under way; numbers and answer, for one call; out, OUT_LINE for each byte read.
#[derive(Clone, Copy)]
pub struct Buffers {}

impl Buffers {
    pub const STORE: usize = 16384;

    pub const LINE: usize = lines::Longest::LINE;

    // The length that stands for a line that is too long.
    pub const OVER: usize = Buffers::LINE + 1;

    pub const NUMBERS: usize = Buffers::OVER;

    pub const ANSWER: usize = answers::Room::ANSWER;

    pub const OUT_LINE: usize = print::Line::ROOM;

    // One read, and the answers to it.
    pub const READ: usize = 1024;

    pub const OUT: usize = Buffers::OUT_LINE * Buffers::READ;

    // The program reads no more bytes than these, so that it can count them.
    pub const INPUT: usize = 36028797018963968;

    // They are those of the definitions.
    pub fn limits()
        ensures store { Buffers.STORE ≡ store_room }
        ensures line { Buffers.LINE ≡ max_line }
        ensures over { Buffers.OVER ≡ over_line }
        ensures numbers { Buffers.NUMBERS ≡ over_line }
        ensures answer { Buffers.ANSWER ≡ answer_room }
        ensures text { Buffers.OUT_LINE ≡ line_room }
        ensures read { Buffers.READ ≡ read_room }
        ensures out { Buffers.OUT ≡ out_room }
        ensures input { Buffers.INPUT ≡ max_input }
    {}
}

// One byte of the input.
fn step_byte(
    store: &mut [u32],
    state: State,
    line: &mut [u8],
    numbers: &mut [u32],
    answer: &mut [u32],
    out: &mut [u8],
    byte: u8,
) -> State
    requires ready_value { state.ready ≡ in_form store.old }
    requires lent { Lent line.old numbers.old answer.old }
    requires line_room_in_bounds { state.end + line_room ≤ length out.old }
    ensures ready_value_2 { result.ready ≡ in_form store.new }
    ensures out_after { progress store.new line.new result.len
        (take result.end out.new)
        ≡ byte_step (progress store.old line.old state.len
        (take state.end out.old)) byte }
    ensures end_bound { result.end ≤ state.end + line_room }
{
    if byte == b'\n' {
        return part_done(store, state, line, numbers, answer, out);
    }
    let n = state.len;
    if n < Buffers::LINE {
        line[n] = byte;
        return State {
            len: n + 1,
            ..state
        };
    }
    State {
        len: Buffers::OVER,
        ..state
    }
}

// A chunk of the input: makes the calls of the lines that end in it. Their answers are the first
// end bytes of out.
pub fn feed(
    store: &mut [u32],
    ready: bool,
    len: usize,
    line: &mut [u8],
    numbers: &mut [u32],
    answer: &mut [u32],
    out: &mut [u8],
    chunk: &[u8],
) -> State
    requires ready_value { ready ≡ in_form store.old }
    requires lent { Lent line.old numbers.old answer.old }
    requires chunk_in_bounds { line_room * length chunk.now ≤ length out.old }
    ensures ready_value_2 { result.ready ≡ in_form store.new }
    ensures out_after { progress store.new line.new result.len
        (take result.end out.new)
        ≡ fed (progress store.old line.old len []) chunk.now }
    ensures end_bound { result.end ≤ line_room * length chunk.now }
{
    let mut state = State { ready, len, end: 0 };
    for byte in chunk {
        state = step_byte(store, state, line, numbers, answer, out, *byte);
    }
    state
}

// The end of the input: the call of a last line that lacks its end. Its answer follows what
// stands in out up to the state's end.
pub fn finish(
    store: &mut [u32],
    state: State,
    line: &mut [u8],
    numbers: &mut [u32],
    answer: &mut [u32],
    out: &mut [u8],
) -> State
    requires ready_value { state.ready ≡ in_form store.old }
    requires lent { Lent line.old numbers.old answer.old }
    requires line_room_in_bounds { state.end + line_room ≤ length out.old }
    ensures ready_value_2 { result.ready ≡ in_form store.new }
    ensures out_after { progress store.new line.new result.len
        (take result.end out.new)
        ≡ finished (progress store.old line.old state.len
        (take state.end out.old)) }
    ensures end_bound { result.end ≤ state.end + line_room }
{
    if state.len == 0 {
        return state;
    }
    part_done(store, state, line, numbers, answer, out)
}

// All of an input at once.
pub fn run_script(
    store: &mut [u32],
    ready: bool,
    line: &mut [u8],
    numbers: &mut [u32],
    answer: &mut [u32],
    out: &mut [u8],
    input: &[u8],
) -> State
    requires ready_value { ready ≡ in_form store.old }
    requires lent { Lent line.old numbers.old answer.old }
    requires input_in_bounds { line_room * (length input.now + 1) ≤ length out.old }
    ensures ready_value_2 { result.ready ≡ in_form store.new }
    ensures out_after { take result.end out.new
        ≡ program store.old input.now }
    ensures store_after { store.new
        ≡ buffer_after store.old (lines_of input.now) }
    ensures begun { in_form store.old ≡ false
        → Begun store.old (calls_in (lines_of input.now))
        store.new }
{
    let state = feed(store, ready, 0, line, numbers, answer, out, input);
    finish(store, state, line, numbers, answer, out)
}
