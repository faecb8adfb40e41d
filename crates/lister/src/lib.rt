// Every script of one to three calls after `new 2 2 2 1`, a line each: the listing's text, as many
// whole lines at a time as there is room for.
#![tactic(auto)]

mod replies;
mod small;

ghost use Rattle.std.specs.Prelude.{◌≡◌, ◌⊎◌, [], ◌++◌, map, ◌+◌, ◌*◌, ◌-◌, ◌≤◌, ◌<◌, length, get_or, take};
ghost use Rattle.listing.specs.Calls.{calls, listing};
ghost use Rattle.listing.specs.Lines.{desk_room, whole_line, lines_from};
ghost use Rattle.lister.specs.Numbered.{call_at, line_count, longest, words_room, history_room, Lent};
ghost use Rattle.answers.specs.Answers.{answer_room};

use replies::{put_replies, start};
use small::put_calls;

// The first line that isn't put yet, and how many bytes the lines before it have.
#[derive(Clone, Copy)]
pub struct Filled {
    pub next: usize,
    pub end: usize,
}

// How many calls and lines there are, and how much the buffers hold that are lent: the words of
// the store; digits, a script's calls by their numbers; words and answer, for one call.
#[derive(Clone, Copy)]
pub struct Listing {}

impl Listing {
    // The calls that scripts are made of.
    pub const CALLS: usize = 26;

    // Scripts of two calls.
    pub const PAIRS: usize = 676;

    // The scripts of all lengths, a line each.
    pub const LINES: usize = 18278;

    // The most bytes of a line.
    pub const ROOM: usize = 1536;

    pub const STORE: usize = 256;

    pub const DIGITS: usize = 3;

    pub const WORDS: usize = 5;

    pub const ANSWER: usize = answers::Room::ANSWER;

    // They are those of the definitions.
    pub fn limits()
        ensures calls { Listing.CALLS ≡ length (calls 2 2 2) }
        ensures lines { Listing.LINES ≡ length listing }
        ensures room { Listing.ROOM ≡ history_room }
        ensures store { Listing.STORE ≡ desk_room }
        ensures digits { Listing.DIGITS ≡ longest }
        ensures words { Listing.WORDS ≡ words_room }
        ensures answer { Listing.ANSWER ≡ answer_room }
    {}
}

// The calls of a line's script by their numbers, to the front of digits; how many they are stands
// beside them: no heap.
fn digits_of(line: usize, digits: &mut [u32]) -> usize
    requires { (line < line_count) × (longest ≤ length digits.old) }
    ensures result_nonzero { (0 < result) × (result ≤ longest) }
    ensures digits_after { map call_at (take result digits.new) ≡ get_or listing line [] }
{
    if line < Listing::CALLS {
        digits[0] = line as u32;
        return 1;
    }
    if line < Listing::CALLS + Listing::PAIRS {
        let i = line - Listing::CALLS;
        digits[0] = (i / Listing::CALLS) as u32;
        digits[1] = (i % Listing::CALLS) as u32;
        return 2;
    }
    let i = line - (Listing::CALLS + Listing::PAIRS);
    digits[0] = (i / Listing::PAIRS) as u32;
    digits[1] = (i % Listing::PAIRS / Listing::CALLS) as u32;
    digits[2] = (i % Listing::CALLS) as u32;
    3
}

// The line of a script: its calls, and their answers on a fresh desk.
fn put_script(
    out: &mut [u8],
    at: usize,
    store: &mut [u32],
    digits: &[u32],
    words: &mut [u32],
    answer: &mut [u32],
) -> usize
    requires history_room_in_bounds { at + history_room ≤ length out.old }
    requires digits_nonzero { (0 < length digits.now) × (length digits.now ≤ longest) }
    requires lent { Lent store.old words.old answer.old }
    ensures out_after { take result out.new
        ≡ take at out.old ++ whole_line (map call_at digits.now) }
    ensures upper_bound { result ≤ at + history_room }
{
    let calls_end = put_calls(out, at, digits, words);
    let colon_end = text::put_bytes(out, calls_end, b": ");
    start(store, answer);
    let end = put_replies(out, colon_end, store, digits, words, answer);
    text::put_byte(out, end, b'\n')
}

// Puts a line of the listing, counted from 0, after the first at bytes of out, and answers how
// many there are then.
pub fn history_line(
    out: &mut [u8],
    at: usize,
    line: usize,
    store: &mut [u32],
    digits: &mut [u32],
    words: &mut [u32],
    answer: &mut [u32],
) -> usize
    requires line_lt_line_count { (line < line_count) × (at + history_room ≤ length out.old) }
    requires longest_in_bounds { longest ≤ length digits.old }
    requires lent { Lent store.old words.old answer.old }
    ensures out_after { take result out.new
        ≡ take at out.old ++ whole_line (get_or listing line []) }
    ensures upper_bound { result ≤ at + history_room }
{
    let n = digits_of(line, digits);
    put_script(out, at, store, &digits[..n], words, answer)
}

// The lines from one on, to the front of out: as many as there is surely room for.
pub fn fill(
    out: &mut [u8],
    line: usize,
    store: &mut [u32],
    digits: &mut [u32],
    words: &mut [u32],
    answer: &mut [u32],
) -> Filled
    requires line_le_line_count { (line ≤ line_count) × (history_room ≤ length out.old) }
    requires longest_in_bounds { longest ≤ length digits.old }
    requires lent { Lent store.old words.old answer.old }
    ensures line_le_next { (line ≤ result.next) × (result.next ≤ line_count)
        × (result.end ≤ length out.new) }
    ensures out_after { take result.end out.new ≡ lines_from line (result.next - line) }
    ensures end_bound { result.end ≤ history_room * (result.next - line) }
    ensures fact { (line_count ≤ result.next) ⊎ (length out.new < result.end + history_room) }
{
    let mut end = 0;
    for next in line..Listing::LINES {
        if out.len() < end + Listing::ROOM {
            return Filled { next, end };
        }
        end = history_line(out, end, next, store, digits, words, answer);
    }
    Filled {
        next: Listing::LINES,
        end,
    }
}
