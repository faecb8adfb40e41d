// The calls that scripts are made of, by their numbers: their words, the commands that ask for
// them, and their texts.
ghost use Rattle.std.specs.Prelude.{◌≡◌, [], ◌∷◌, ◌++◌, map, ◌+◌, ◌*◌, ◌≤◌, ◌<◌, length, get_or, take, drop};
ghost use Rattle.text.specs.Bytes.{bytes_of};
ghost use Rattle.print.specs.Print.{numbers_text};
ghost use Rattle.listing.specs.Lines.{kind_word, call_text, joined};
ghost use Rattle.lister.specs.Numbered.{call_at, words_room, call_room, next_room, longest, Tells};

use command::Command;

// A call. count: how many words it has, its kind and its numbers. command: what asks for it, with
// these words lent beside it: no heap.
#[derive(Clone, Copy)]
pub struct Small {
    pub count: usize,
    pub command: Command,
}

// A call's words.
fn lay(words: &mut [u32], call: [u32; 5])
    requires { words_room ≤ length words.old }
    ensures { words.new ≡ call ++ drop 5 words.old }
{
    words[..5].copy_from_slice(&call);
}

// Call i, from 0 on.
pub fn small_at(i: u32, words: &mut [u32]) -> Small
    requires { words_room ≤ length words.old }
    ensures { Tells (call_at i) result words.new }
{
    match i {
        0..4 => {
            lay(words, [0, i / 2, i % 2, 0, 0]);
            Small {
                count: 3,
                command: Command::Fetch(i / 2, i % 2),
            }
        }
        4..8 => {
            let j = i - 4;
            lay(words, [1, j / 2, j % 2, 0, 0]);
            Small {
                count: 3,
                command: Command::Evict(j / 2, j % 2),
            }
        }
        8..16 => {
            let j = i - 8;
            lay(words, [2, 0, j / 4, j % 4, 0]);
            Small {
                count: 5,
                command: Command::Open(0, 2, 3),
            }
        }
        16 => {
            lay(words, [3, 0, 0, 0, 0]);
            Small {
                count: 3,
                command: Command::Step(0, 0, 0),
            }
        }
        17..25 => {
            let j = i - 17;
            lay(words, [4, 0, j / 4, j % 4, 0]);
            Small {
                count: 4,
                command: Command::Issue(0, j / 4, j % 4),
            }
        }
        _ => {
            lay(words, [5, 0, 0, 0, 0]);
            Small {
                count: 2,
                command: Command::Drop(0),
            }
        }
    }
}

// The word of a kind; none for a number that is none.
#[tactic(auto, unfolding(listing::specs::Lines::kind_word))]
fn word_of(kind: u32) -> &'static [u8]
    ensures word { result.now ≡ kind_word kind }
    ensures upper_bound { length result.now ≤ 8 }
{
    match kind {
        0 => b"fetch",
        1 => b"evict",
        2 => b"open",
        3 => b"step",
        4 => b"issue",
        5 => b"drop",
        _ => b"",
    }
}

// The text of a call in words.
fn put_words(out: &mut [u8], at: usize, words: &[u32]) -> usize
    requires call_room_in_bounds { at + call_room ≤ length out.old }
    requires words_nonzero { (0 < length words.now) × (length words.now ≤ words_room) }
    ensures { (result ≤ at + call_room) × (take result out.new
        ≡ take at out.old ++ (kind_word (get_or words.now 0 0)
        ++ numbers_text (drop 1 words.now))) }
{
    let word_end = text::put_bytes(out, at, word_of(words[0]));
    print::put_numbers(out, word_end, words)
}

// The text of call i.
fn put_call(out: &mut [u8], at: usize, i: u32, words: &mut [u32]) -> usize
    requires call_room_in_bounds { at + call_room ≤ length out.old }
    requires words_room_in_bounds { words_room ≤ length words.old }
    ensures { (result ≤ at + call_room) × (take result out.new
        ≡ take at out.old ++ call_text (call_at i)) }
{
    let small = small_at(i, words);
    put_words(out, at, &words[..small.count])
}

// What joins two calls, or two answers.
pub fn put_joint(out: &mut [u8], at: usize) -> usize
    requires { at + 2 ≤ length out.old }
    ensures { (result ≡ at + 2)
        × (take result out.new ≡ take at out.old ++ bytes_of "; ") }
{
    text::put_bytes(out, at, b"; ")
}

// The calls of a script, joined.
pub fn put_calls(out: &mut [u8], at: usize, digits: &[u32], words: &mut [u32]) -> usize
    requires digits_nonzero { (0 < length digits.now)
        × (at + next_room * length digits.now ≤ length out.old) }
    requires words_room_in_bounds { words_room ≤ length words.old }
    ensures { (result ≤ at + next_room * length digits.now) × (take result out.new
        ≡ take at out.old
        ++ joined (map call_text (map call_at digits.now))) }
{
    let mut end = put_call(out, at, digits[0], words);
    for digit in &digits[1..] {
        let start = put_joint(out, end);
        end = put_call(out, start, *digit, words);
    }
    end
}
