// Counts, one for each writer, in arrays (memory is fixed), and those of the reads of an issue.
ghost use Rattle.std.specs.Prelude.{◌≡◌, ◌+◌, ◌≤◌, ◌<◌, ℕ, length, get_or};
ghost use Rattle.clock.specs.Clock.{clock_at};
ghost use Rattle.records.specs.Walk.{read_reach};
ghost use Rattle.audit.specs.Parts.{Raised, Lowered, Least};

use crate::issues::Issue;
use crate::reading::fold_reads;

// Raises the counts by those of the issue's reads.
pub fn raise(issue: Issue<'_>, reach: &mut [u32; 16])
    ensures { Raised issue.entry.w (read_reach issue.entry.words.now issue.entry.i)
        reach.old reach.new }
{
    let words = issue.words;
    let w = issue.w;
    fold_reads(
        issue,
        reach,
        |reach, read|
            requires { (w ≤ 16) × (read.counts + w ≤ length words.now) }
            ensures { Raised w (clock_at words.entry.now read.counts) reach.old reach.new }
        { merge(reach, words, read.counts, w) },
    )
}

// The least counts of the issue's reads, apart from 0: no read counts up to an issue before those.
pub fn least_counts(issue: Issue<'_>) -> [u32; 16]
    ensures { Least issue.entry.words.now issue.entry.w issue.entry.i result }
{
    let words = issue.words;
    let w = issue.w;
    let mut least = [u32::MAX; 16];
    fold_reads(
        issue,
        &mut least,
        |least, read|
            requires { (w ≤ 16) × (read.counts + w ≤ length words.now) }
            ensures { Lowered w (clock_at words.entry.now read.counts) least.old least.new }
        { lower(least, words, read.counts, w) },
    );
    least
}

// Each count becomes the larger of itself and that of the clock at an index.
fn merge(reach: &mut [u32; 16], words: &[u32], at: usize, w: usize)
    requires { (w ≤ 16) × (at + w ≤ length words.now) }
    ensures { Raised w (clock_at words.now at) reach.old reach.new }
{
    combine(reach, words, at, w, |count, other| count.max(other))
}

// No count stays above that of the clock at an index, unless that is 0, and none rises.
fn lower(least: &mut [u32; 16], words: &[u32], at: usize, w: usize)
    requires { (w ≤ 16) × (at + w ≤ length words.now) }
    ensures { Lowered w (clock_at words.now at) least.old least.new }
{
    combine(least, words, at, w, least_of)
}

// The smaller of two counts, or the first where the second is 0.
fn least_of(least: u32, count: u32) -> u32
    ensures { (result ≤ least) × (1 ≤ count → result ≤ count) }
{
    if count == 0 { least } else { least.min(count) }
}

// Puts each count together with that of the clock at an index.
fn combine<F: Fn(u32, u32) -> u32>(
    counts: &mut [u32; 16],
    words: &[u32],
    at: usize,
    w: usize,
    join: F,
)
    requires in_bounds { (w ≤ 16) × (at + w ≤ length words.now) }
    requires callable { F.IsAlwaysCallable join }
    ensures { (u : ℕ) → u < w
        → F.post join (get_or counts.old u 0) (get_or words.now (at + u) 0)
        (get_or counts.new u 0) }
{
    for u in 0..w {
        counts[u] = join(counts[u], words[at + u]);
    }
}
