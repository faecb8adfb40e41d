// An answer, in words, as a line of text.
#![tactic(auto)]

ghost use Rattle.std.specs.Prelude.{◌≡◌, ◌∷◌, ◌++◌, ◌+◌, ◌*◌, ◌≤◌, ◌<◌, length, take, drop};
ghost use Rattle.answers.specs.Answers.{max_answer};
ghost use Rattle.text.specs.Decimal.{decimal_of};
ghost use Rattle.print.specs.Print.{line_room, body_room, answer_word, numbers_text, answer_body, answer_text, unread_text};

// How much room a line of an answer needs.
#[derive(Clone, Copy)]
pub struct Line {}

impl Line {
    // The most bytes of it, its end included.
    pub const ROOM: usize = 384;

    // It is that of the definitions.
    pub fn rooms()
        ensures { Line.ROOM ≡ line_room }
    {}
}

// The word of an answer's first number; none for a number that has none.
#[tactic(auto, unfolding(crate::specs::Print::answer_word))]
fn word_of(kind: u32) -> &'static [u8]
    ensures word { result.now ≡ answer_word kind }
    ensures upper_bound { length result.now ≤ 8 }
{
    match kind {
        0 => b"ok",
        1 => b"broken",
        2 => b"refused",
        3 => b"clear",
        4 => b"path",
        5 => b"nothing",
        6 => b"through",
        7 => b"breaks",
        8 => b"turned",
        _ => b"",
    }
}

// The word of a first number.
fn put_word(out: &mut [u8], at: usize, kind: u32) -> usize
    requires { at + 8 ≤ length out.old }
    ensures { (result ≤ at + 8)
        × (take result out.new ≡ take at out.old ++ answer_word kind) }
{
    text::put_bytes(out, at, word_of(kind))
}

// A number after a space.
fn put_spaced(out: &mut [u8], at: usize, n: u32) -> usize
    requires { at + 11 ≤ length out.old }
    ensures { (result ≤ at + 11)
        × (take result out.new ≡ take at out.old ++ (32 ∷ decimal_of n)) }
{
    let start = text::put_byte(out, at, b' ');
    text::put_number(out, start, n)
}

// All but the first of an answer's words, each after a space.
pub fn put_numbers(out: &mut [u8], at: usize, answer: &[u32]) -> usize
    requires { (0 < length answer.now) × (at + 11 * length answer.now ≤ length out.old) }
    ensures { (result ≤ at + 11 * length answer.now)
        × (take result out.new
        ≡ take at out.old ++ numbers_text (drop 1 answer.now)) }
{
    let mut end = at;
    for n in &answer[1..] {
        end = put_spaced(out, end, *n);
    }
    end
}

// Puts an answer's text after the first at bytes of out, and answers how many there are then.
pub fn put_answer(out: &mut [u8], at: usize, answer: &[u32]) -> usize
    requires body_room_in_bounds { at + body_room ≤ length out.old }
    requires answer_nonzero { (0 < length answer.now) × (length answer.now ≤ max_answer) }
    ensures out_after { take result out.new
        ≡ take at out.old ++ answer_body answer.now }
    ensures upper_bound { result ≤ at + body_room }
{
    let word_end = put_word(out, at, answer[0]);
    put_numbers(out, word_end, answer)
}

// Puts an answer's line: its text and the line's end.
pub fn print_answer(out: &mut [u8], at: usize, answer: &[u32]) -> usize
    requires line_room_in_bounds { at + line_room ≤ length out.old }
    requires answer_nonzero { (0 < length answer.now) × (length answer.now ≤ max_answer) }
    ensures out_after { take result out.new
        ≡ take at out.old ++ answer_text answer.now }
    ensures upper_bound { result ≤ at + line_room }
{
    let end = put_answer(out, at, answer);
    text::put_byte(out, end, b'\n')
}

// Puts the line `unread`.
pub fn print_unread(out: &mut [u8], at: usize) -> usize
    requires { at + line_room ≤ length out.old }
    ensures out_after { take result out.new ≡ take at out.old ++ unread_text }
    ensures upper_bound { result ≤ at + line_room }
{
    text::put_bytes(out, at, b"unread\n")
}
