// Clocks in a buffer of words.
#![tactic(auto)]

pub mod count;

ghost use Rattle.std.specs.Prelude.{◌≡◌, ◌+◌, ◌≤◌, length};
ghost use Rattle.words.specs.Words.{put, Apart};
ghost use Rattle.clock.specs.Clock.{standing, standing_of, standing_number, covering, flipped, covered, differing, present, join, clock_at};

use count::{count_at, set_count};

// How two clocks stand.
#[derive(Clone, Copy, PartialEq, Eq)]
pub enum Standing {
    Equal,
    Older,
    Newer,
    Rival,
}

// The number of a standing.
impl From<Standing> for u32 {
    ghost from_gives = { λ s n. n ≡ standing_number s };

    fn from(s: Standing) -> u32 {
        match s {
            Standing::Equal => 0,
            Standing::Older => 1,
            Standing::Newer => 2,
            Standing::Rival => 3,
        }
    }
}

// Whether a clock of this standing covers the other: it is equal or newer.
pub fn covering(s: Standing) -> bool
    ensures { result ≡ covering s }
{
    matches!(s, Standing::Equal | Standing::Newer)
}

// The standing seen from the other clock.
fn flipped(s: Standing) -> Standing
    ensures { result ≡ flipped s }
{
    match s {
        Standing::Equal => Standing::Equal,
        Standing::Older => Standing::Newer,
        Standing::Newer => Standing::Older,
        Standing::Rival => Standing::Rival,
    }
}

// Whether a clock of this standing is covered by the other: it is equal or older.
pub fn covered(s: Standing) -> bool
    ensures { result ≡ covered s }
{
    let other = flipped(s);
    covering(other)
}

// Whether a clock of this standing is another one: it isn't equal.
pub fn differing(s: Standing) -> bool
    ensures { result ≡ differing s }
{
    s != Standing::Equal
}

// The standing by whether some count differs, whether some is larger, and whether some is smaller.
fn standing_of(unequal: bool, over: bool, under: bool) -> Standing
    requires { unequal ≡ differing (standing_of over under) }
    ensures { result ≡ standing_of over under }
{
    if !unequal {
        return Standing::Equal;
    }
    if !under {
        return Standing::Newer;
    }
    if over {
        Standing::Rival
    } else {
        Standing::Older
    }
}

// How the clock at a in p stands against the clock at b in q, of w counts. The two may be lent
// from one buffer. Whether some count differs follows from the other two, and is kept beside them
// all the same: where a caller asks for that alone the compiler drops the others.
pub fn compare(p: &[u32], a: usize, q: &[u32], b: usize, w: usize) -> Standing
    requires { (a + w ≤ length p.now) × (b + w ≤ length q.now) }
    ensures { result ≡ standing w (clock_at p.now a) (clock_at q.now b) }
{
    let mut unequal = false;
    let mut over = false;
    let mut under = false;
    for i in 0..w {
        let x = count_at(p, a + i);
        let y = count_at(q, b + i);
        unequal = unequal | (x != y);
        over = over | (x > y);
        under = under | (x < y);
    }
    standing_of(unequal, over, under)
}

// Whether some writer is present in the clock at an index. All counts are read: that is quicker
// than to stop at the first.
pub fn present(words: &[u32], at: usize, w: usize) -> bool
    requires { at + w ≤ length words.now }
    ensures { result ≡ present w (clock_at words.now at) }
{
    let mut all: u32 = 0;
    for i in 0..w {
        all |= words[at + i];
    }
    1 <= all
}

// Merges n counts at src into those at dst: each becomes the larger of the two.
pub fn merge_into(words: &mut [u32], dst: usize, src: usize, n: usize)
    requires { Apart (length words.old) dst src n }
    ensures { words.new ≡ put words.old dst n
        (join (clock_at words.old dst) (clock_at words.old src)) }
{
    for i in 0..n {
        let x = count_at(words, dst + i);
        let y = count_at(words, src + i);
        set_count(words, dst + i, x.max(y));
    }
}
