// The program: writes every script of one to three calls after `new 2 2 2 1` with its answers to
// standard output, a line each.
#![tactic(auto)]

ghost use Rattle.std.specs.Prelude.{◌≡◌, ◌⊎◌, ◌+◌, ◌*◌, ◌-◌, ◌≤◌, ◌<◌, length, take};
ghost use Rattle.std.proofs.Math.Bool.{So};
ghost use Rattle.listing.specs.Lines.{lines_from};
ghost use Rattle.lister.specs.Numbered.{line_count, longest, history_room, Lent};
ghost use Rattle.streams.specs.Streams.{Hands};
ghost use Rattle.histories.specs.Written.{chunk_room, Written};

use lister::Listing;
use std::io::Write;
use streams::{Output, hand_over};

// The bytes that are handed to write at once.
const CHUNK: usize = 65536;

// The lines that were handed to write, and what that came to.
#[derive(Drop)]
struct Listed {
    lines: usize,
    output: Output,
}

// Hands the next lines to write, as many as there is room for.
fn turn<W: Write>(
    listed: Listed,
    store: &mut [u32],
    digits: &mut [u32],
    words: &mut [u32],
    answer: &mut [u32],
    out: &mut [u8],
    to: &mut W,
) -> Listed
    requires lines_lt_line_count { (listed.lines < line_count)
        × (listed.output.all ≤ history_room * listed.lines) }
    requires history_room_in_bounds { (history_room ≤ length out.old)
        × (length out.old ≤ chunk_room) }
    requires longest_in_bounds { longest ≤ length digits.old }
    requires lent { Lent store.old words.old answer.old }
    ensures lines_lt_lines { (listed.lines < result.lines) × (result.lines ≤ line_count) }
    ensures hands { Hands listed.output result.output out.new }
    ensures out_after { take result.output.count out.new
        ≡ lines_from listed.lines (result.lines - listed.lines) }
    ensures all_bound { result.output.all ≤ history_room * result.lines }
{
    let filled = lister::fill(out, listed.lines, store, digits, words, answer);
    let output = hand_over(listed.output, to, out, filled.end);
    Listed {
        lines: filled.next,
        output,
    }
}

// All lines, or those up to a write that failed.
fn run<W: Write>(
    store: &mut [u32],
    digits: &mut [u32],
    words: &mut [u32],
    answer: &mut [u32],
    out: &mut [u8],
    to: &mut W,
) -> Listed
    requires history_room_in_bounds { (history_room ≤ length out.old)
        × (length out.old ≤ chunk_room) }
    requires longest_in_bounds { longest ≤ length digits.old }
    requires lent { Lent store.old words.old answer.old }
    ensures written { Written result.lines result.output }
    ensures so { So result.output.failed ⊎ (result.lines ≡ line_count) }
{
    let output = Output::none();
    let mut listed = Listed { lines: 0, output };
    // No index is counted here: a turn lists as many lines as there is room for.
    while listed.lines < Listing::LINES {
        listed = turn(listed, store, digits, words, answer, out, to);
        let failed = listed.output.failed();
        if failed {
            return listed;
        }
    }
    listed
}

fn main(rt: HostRuntime) {
    let mut store = [0u32; Listing::STORE];
    let mut digits = [0u32; Listing::DIGITS];
    let mut words = [0u32; Listing::WORDS];
    let mut answer = [0u32; Listing::ANSWER];
    let mut out = [0u8; CHUNK];
    let mut to = rt.stdout();
    run(
        &mut store,
        &mut digits,
        &mut words,
        &mut answer,
        &mut out,
        &mut to,
    );
}
