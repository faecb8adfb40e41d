// Standard input and output, or any reader and writer: the only functions that read and write,
// and what they came to. Only they can make an Input or an Output, but for those before the
// first call.
#![tactic(auto)]

ghost use Rattle.std.specs.Prelude.{◌≡◌, false, not, ◌+◌, ◌*◌, ◌≤◌, ◌<◌, length};
ghost use Rattle.print.specs.Print.{line_room};
ghost use Rattle.script.specs.Limits.{read_room, out_room, max_input};
ghost use Rattle.streams.specs.Streams.{Reads, Hands, told_len, input_over, goes_on_of};

use script::Buffers;
use std::io;
use std::io::{Read, Write};

// What was read. all: how many bytes. got: how many by the last read, to the front of a buffer of
// room bytes. ended: it delivered none, at the end of the input or because it failed; no Option,
// since Reads tells the counts then too.
#[derive(Clone, Copy, Default)]
pub struct Input {
    all: usize,
    got: usize,
    room: usize,
    ended: bool,
}

// What was handed to write. all: how many bytes. count: how many the last time, from the front of
// a buffer of room bytes. failed: write didn't take them all; no Result, since Hands tells the
// counts then too.
#[derive(Clone, Copy, Default)]
pub struct Output {
    all: usize,
    count: usize,
    room: usize,
    failed: bool,
}

// How many bytes of a chunk of most bytes a read delivered. told: what it answered.
fn delivered(told: io::Result<usize>, most: usize) -> usize
    ensures { result ≡ told_len told most }
{
    told.map_or(0, |n| n.min(most))
}

impl Input {
    // Before any read.
    pub fn none() -> Input
        ensures { (result.all ≡ 0) × (result.ended ≡ false) }
    {
        Input::default()
    }

    pub fn got(self) -> usize
        ensures { result ≡ self.got }
    {
        self.got
    }

    // After a read to the front of chunk. told: what read answered, an error if it failed.
    fn after_read(self, told: io::Result<usize>, chunk: &[u8]) -> Input
        requires { (self.all < max_input) × (length chunk.now ≤ read_room) }
        ensures reads { Reads self result chunk.now }
        ensures got_value { result.got ≡ told_len told (length chunk.now) }
    {
        let got = delivered(told, chunk.len());
        Input {
            all: self.all + got,
            got,
            room: chunk.len(),
            ended: got == 0,
        }
    }
}

impl Output {
    // Before any write.
    pub fn none() -> Output
        ensures { (result.all ≡ 0) × (result.failed ≡ false) }
    {
        Output::default()
    }

    pub fn failed(self) -> bool
        ensures { result ≡ self.failed }
    {
        self.failed
    }

    // After the first count bytes of a buffer of room bytes were handed to write. taken: it took
    // them all.
    fn after_write(self, count: usize, room: usize, taken: bool) -> Output
        requires count_le_room { (count ≤ room) × (count ≤ out_room) }
        requires all_bound { self.all ≤ line_room * (max_input + read_room) }
        ensures all_value { (result.all ≡ self.all + count) × (result.count ≡ count) }
        ensures room_value { (result.room ≡ room) × (result.failed ≡ not taken) }
    {
        Output {
            all: self.all + count,
            count,
            room,
            failed: !taken,
        }
    }
}

// Reads once, to the front of chunk.
pub fn read_chunk<R: Read>(input: Input, from: &mut R, chunk: &mut [u8]) -> Input
    requires { (input.all < max_input) × (length chunk.old ≤ read_room) }
    ensures { Reads input result chunk.new }
{
    let told = from.read(chunk);
    input.after_read(told, chunk)
}

// Writes all of text through. If there is none there is no call. Whether all was taken.
fn write_through<W: Write>(to: &mut W, text: &[u8]) -> bool {
    if text.is_empty() {
        return true;
    }
    to.write_all(text).is_ok() && to.flush().is_ok()
}

// Hands the first end bytes of out to write. If there are none there is no call.
pub fn hand_over<W: Write>(output: Output, to: &mut W, out: &[u8], end: usize) -> Output
    requires end_in_bounds { (end ≤ length out.now) × (end ≤ out_room) }
    requires all_bound { output.all ≤ line_room * (max_input + read_room) }
    ensures { Hands output result out.now × (result.count ≡ end) }
{
    let text = &out[0..end];
    let taken = write_through(to, text);
    output.after_write(text.len(), out.len(), taken)
}

// Whether the program reads on.
pub fn goes_on(input: Input, output: Output) -> bool
    ensures { result ≡ goes_on_of input output }
{
    !output.failed & !(input.ended | (Buffers::INPUT <= input.all))
}
