// The table of commands: their words, and how many numbers may stand after each.
ghost use Rattle.std.specs.Prelude.{◌≡◌, ◌<◌, length, MatchOption};
ghost use Rattle.std.proofs.Math.Bool.{So};
ghost use Rattle.std.proofs.Math.Option.{none};
ghost use Rattle.lines.specs.Grammar.{forms, form_of, form_at, takes};
ghost use Rattle.lines.specs.Rows.{is_row, agree};

use crate::Longest;

// A command's word, and the least and the most numbers after it.
#[derive(Clone, Copy)]
struct Row {
    word: &'static [u8],
    least: usize,
    most: usize,
}

// How many commands there are.
const COMMANDS: usize = 20;

// The commands: a command's number is its row's. Document 01's nine, then the later ones.
const ROWS: [Row; COMMANDS] = [
    Row {
        word: b"new",
        least: 4,
        most: 4,
    },
    Row {
        word: b"open",
        least: 1,
        most: Longest::LINE,
    },
    Row {
        word: b"fetch",
        least: 2,
        most: 2,
    },
    Row {
        word: b"evict",
        least: 2,
        most: 2,
    },
    Row {
        word: b"prepare",
        least: 1,
        most: 1,
    },
    Row {
        word: b"step",
        least: 2,
        most: 3,
    },
    Row {
        word: b"issue",
        least: 3,
        most: 3,
    },
    Row {
        word: b"drop",
        least: 1,
        most: 1,
    },
    Row {
        word: b"look",
        least: 3,
        most: 3,
    },
    Row {
        word: b"explain",
        least: 2,
        most: 3,
    },
    Row {
        word: b"stale",
        least: 1,
        most: 1,
    },
    Row {
        word: b"admit",
        least: 0,
        most: 0,
    },
    Row {
        word: b"allow",
        least: 2,
        most: 2,
    },
    Row {
        word: b"pick",
        least: 0,
        most: 0,
    },
    Row {
        word: b"mayhold",
        least: 2,
        most: 2,
    },
    Row {
        word: b"maysave",
        least: 2,
        most: 2,
    },
    Row {
        word: b"fork",
        least: 1,
        most: 1,
    },
    Row {
        word: b"join",
        least: 1,
        most: 1,
    },
    Row {
        word: b"forecast",
        least: 1,
        most: 1,
    },
    Row {
        word: b"audit",
        least: 0,
        most: Longest::LINE,
    },
];

// The table: each command's row is that of its form.
fn rows() -> [Row; COMMANDS]
    ensures { So (agree result) }
{
    ROWS
}

// A command's row.
fn row_at(number: usize) -> Row
    requires { number < length forms }
    ensures { So (is_row (form_at forms number) result) }
{
    let rows = rows();
    rows[number]
}

// The number of a command's word.
pub fn command_number(word: &[u8]) -> Option<usize>
    ensures { MatchOption result (form_of forms word.now ≡ none)
        (λ i. form_at forms i ≡ form_of forms word.now) }
{
    let rows = rows();
    rows.iter().position(|row| text::is_word(word, row.word))
}

// Whether n numbers may stand after the word of a command.
pub fn has_count(number: usize, n: usize) -> bool
    ensures { result ≡ takes (form_at forms number) n }
{
    if COMMANDS <= number {
        return false;
    }
    let row = row_at(number);
    (row.least <= n) & (n <= row.most)
}
