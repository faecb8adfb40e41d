// Header and length of a buffer. The counts are tested before any size is computed from them.
ghost use Rattle.std.specs.Prelude.{◌≡◌, ◌≤◌, ◌<◌, eqb, leb, length};
ghost use Rattle.sizes.specs.Bounds.{header_size, Ranged, total_of};
ghost use Rattle.layout.specs.Reading.{read_word_of, counts_in};
ghost use Rattle.layout.specs.Buffer.{header_right, shaped};

use sizes::Counts;
use sizes::header::HeaderOffset;

// The counts in the header.
pub fn counts(words: &[u32]) -> Counts
    requires { header_size ≤ length words.now }
    ensures { result ≡ counts_in words.now }
{
    Counts {
        keys: words[HeaderOffset::KEYS] as usize,
        writers: words[HeaderOffset::WRITERS] as usize,
        sites: words[HeaderOffset::SITES] as usize,
        runs: words[HeaderOffset::RUNS] as usize,
    }
}

// Whether word i is x.
pub fn word_is(words: &[u32], i: usize, x: usize) -> bool
    requires { i < length words.now }
    ensures { result ≡ eqb (read_word_of words.now i) x }
{
    words[i] as usize == x
}

// Whether the offsets and the total in the header follow from the counts.
pub fn header_right(words: &[u32], z: Counts) -> bool
    requires ranged { Ranged z }
    requires header_size_in_bounds { header_size ≤ length words.now }
    ensures { result ≡ header_right words.now z }
{
    let s = z.areas();
    word_is(words, HeaderOffset::MASTER, s.master)
        & (word_is(words, HeaderOffset::SITES_AT, s.sites)
            & (word_is(words, HeaderOffset::WRITERS_AT, s.writers)
                & (word_is(words, HeaderOffset::RUNS_AT, s.runs)
                    & word_is(words, HeaderOffset::TOTAL, s.total))))
}

// Whether the buffer has the words that the counts ask for.
pub fn fits(words: &[u32], z: Counts) -> bool
    requires { Ranged z }
    ensures { result ≡ leb (total_of z) (length words.now) }
{
    z.areas().total <= words.len()
}

// Whether header and length are right.
pub fn shaped(words: &[u32]) -> bool
    ensures { result ≡ shaped words.now }
{
    if words.len() < HeaderOffset::SIZE {
        return false;
    }
    let z = counts(words);
    if !z.is_ranged() {
        return false;
    }
    header_right(words, z) & fits(words, z)
}
