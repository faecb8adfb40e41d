// The program: reads calls from standard input, a line each, and writes the answers to standard
// output after each read. Up to main, from any reader and to any writer.
#![tactic(auto)]

ghost use Rattle.std.specs.Prelude.{◌≡◌, false, [], ◌+◌, ◌*◌, ◌≤◌, ◌<◌, length, take};
ghost use Rattle.layout.specs.Buffer.{in_form};
ghost use Rattle.print.specs.Print.{line_room};
ghost use Rattle.script.specs.Limits.{read_room, out_room, max_input, Lent};
ghost use Rattle.script.specs.Fold.{progress, fed, finished};
ghost use Rattle.script.specs.Tie.{Served};
ghost use Rattle.streams.specs.Streams.{Reads, Hands, goes_on_of};
ghost use Rattle.sheetdesk.specs.Runs.{Ran};

use script::{Buffers, State};
use std::io::{Read, Write};
use streams::{Input, Output, goes_on, hand_over, read_chunk};

// What is kept from one read to the next. ready, len: as in script's State. input, output: what
// was read and handed to write so far.
#[derive(Drop)]
struct Kept {
    ready: bool,
    len: usize,
    input: Input,
    output: Output,
}

// What is kept after the bytes that were read are fed, and the answers handed over.
fn kept_of(state: State, input: Input, output: Output) -> Kept
    ensures ready_value { (result.ready ≡ state.ready) × (result.len ≡ state.len) }
    ensures input_value { (result.input ≡ input) × (result.output ≡ output) }
{
    Kept {
        ready: state.ready,
        len: state.len,
        input,
        output,
    }
}

// Reads once, and hands the answers to all lines that ended to write.
fn turn<R: Read, W: Write>(
    store: &mut [u32],
    kept: Kept,
    line: &mut [u8],
    numbers: &mut [u32],
    answer: &mut [u32],
    out: &mut [u8],
    chunk: &mut [u8],
    from: &mut R,
    to: &mut W,
) -> Kept
    requires ready_value { kept.ready ≡ in_form store.old }
    requires lent { Lent line.old numbers.old answer.old }
    requires out_room_in_bounds { (out_room ≤ length out.old)
        × (length chunk.old ≤ read_room) }
    requires all_lt_max_input { (kept.input.all < max_input)
        × (kept.output.all ≤ line_room * kept.input.all) }
    ensures ready_value_2 { result.ready ≡ in_form store.new }
    ensures out_after { progress store.new line.new result.len
        (take result.output.count out.new)
        ≡ fed (progress store.old line.old kept.len [])
        (take result.input.got chunk.new) }
    ensures reads { Reads kept.input result.input chunk.new
        × Hands kept.output result.output out.new }
    ensures count_bound { result.output.count ≤ line_room * result.input.got }
{
    let input = read_chunk(kept.input, from, chunk);
    let got = input.got();
    let state = script::feed(
        store,
        kept.ready,
        kept.len,
        line,
        numbers,
        answer,
        out,
        &chunk[0..got],
    );
    let output = hand_over(kept.output, to, out, state.end);
    kept_of(state, input, output)
}

// Turns until the input is over or a write fails.
fn turns<R: Read, W: Write>(
    store: &mut [u32],
    line: &mut [u8],
    numbers: &mut [u32],
    answer: &mut [u32],
    out: &mut [u8],
    chunk: &mut [u8],
    from: &mut R,
    to: &mut W,
) -> Kept
    requires store_value { in_form store.old ≡ false }
    requires lent { Lent line.old numbers.old answer.old }
    requires out_room_in_bounds { (out_room ≤ length out.old)
        × (length chunk.old ≤ read_room) }
    ensures ready_value { result.ready ≡ in_form store.new }
    ensures served { Served store.old store.new line.new result.len
        result.input.all result.output.all }
    ensures output_value { goes_on_of result.input result.output ≡ false }
    ensures all_bound { result.output.all ≤ line_room * (max_input + read_room) }
{
    let input = Input::none();
    let output = Output::none();
    let mut kept = Kept {
        ready: false,
        len: 0,
        input,
        output,
    };
    // No index is counted here: the input ends when it ends.
    while goes_on(kept.input, kept.output) {
        kept = turn(store, kept, line, numbers, answer, out, chunk, from, to);
    }
    kept
}

// The end of the input: hands the answer to a last line that lacks its end to write.
fn last<W: Write>(
    store: &mut [u32],
    kept: Kept,
    line: &mut [u8],
    numbers: &mut [u32],
    answer: &mut [u32],
    out: &mut [u8],
    to: &mut W,
) -> Kept
    requires ready_value { kept.ready ≡ in_form store.old }
    requires lent { Lent line.old numbers.old answer.old }
    requires line_room_in_bounds { line_room ≤ length out.old }
    requires all_bound { kept.output.all ≤ line_room * (max_input + read_room) }
    ensures out_after { progress store.new line.new result.len
        (take result.output.count out.new)
        ≡ finished (progress store.old line.old kept.len []) }
    ensures input_value { (result.input ≡ kept.input)
        × Hands kept.output result.output out.new }
{
    let state = State {
        ready: kept.ready,
        len: kept.len,
        end: 0,
    };
    let ended = script::finish(store, state, line, numbers, answer, out);
    let output = hand_over(kept.output, to, out, ended.end);
    kept_of(ended, kept.input, output)
}

// All of the input, and then a last line that lacks its end.
fn run<R: Read, W: Write>(
    store: &mut [u32],
    line: &mut [u8],
    numbers: &mut [u32],
    answer: &mut [u32],
    out: &mut [u8],
    chunk: &mut [u8],
    from: &mut R,
    to: &mut W,
) -> Kept
    requires store_value { in_form store.old ≡ false }
    requires lent { Lent line.old numbers.old answer.old }
    requires out_room_in_bounds { (out_room ≤ length out.old)
        × (length chunk.old ≤ read_room) }
    ensures { Ran store.old store.new line.new result }
{
    let kept = turns(store, line, numbers, answer, out, chunk, from, to);
    let failed = kept.output.failed();
    if failed {
        return kept;
    }
    last(store, kept, line, numbers, answer, out, to)
}

// "The program lends 16,384 words." "Before any new, the buffer is all zero."
fn main(rt: HostRuntime) {
    let mut from = rt.stdin();
    let mut to = rt.stdout();
    let mut store = [0u32; Buffers::STORE];
    let mut line = [0u8; Buffers::LINE];
    let mut numbers = [0u32; Buffers::NUMBERS];
    let mut answer = [0u32; Buffers::ANSWER];
    let mut out = [0u8; Buffers::OUT];
    let mut chunk = [0u8; Buffers::READ];
    run(
        &mut store,
        &mut line,
        &mut numbers,
        &mut answer,
        &mut out,
        &mut chunk,
        &mut from,
        &mut to,
    );
}
