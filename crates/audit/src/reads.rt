// The reads of a record's issues: whether they are in order.
ghost use Rattle.std.specs.Prelude.{◌≡◌, ◌&&◌, ◌+◌, ◌≤◌, ◌<◌, eqb, ltb, length};
ghost use Rattle.words.specs.Tests.{all_below};
ghost use Rattle.masks.specs.Mask.{test_bit};
ghost use Rattle.clock.specs.Clock.{dominates, present, clock_at};
ghost use Rattle.model.specs.Algebra.{implies};
ghost use Rattle.records.specs.Format.{keys_in, writer_at, mask_at, all_reads, rank, read_ok};
ghost use Rattle.audit.specs.Parts.{IssuesOf, KeysLow, Ranked, Least, counted, count_saved};

use crate::counts::least_counts;
use crate::issues::{Earlier, Issue, count_issue, step_back};
use crate::reading::each_read;
use clock::{compare, covering, present};
use masks::has;

// Whether the reads of each issue are in order.
pub fn reads_fit(words: &[u32], k: usize, w: usize, n: usize) -> bool
    requires { IssuesOf words.now w n × (k ≡ keys_in words.now) }
    ensures { let b = words.now in
        result ≡ all_below n (λ i. all_reads b i (read_ok b i)) }
{
    let mut before = [0u32; 16];
    for i in 0..n {
        let issue = Issue { words, w, n, i };
        if !issue_reads_fit(issue, k, before) {
            return false;
        }
        count_issue(issue, &mut before);
    }
    true
}

// Whether the reads of the issue are in order: their words, then the issues that they count.
fn issue_reads_fit(issue: Issue<'_>, k: usize, prior: [u32; 16]) -> bool
    requires { (k ≡ keys_in issue.words.now) × Ranked issue.words.now issue.w issue.i prior }
    ensures { let b = issue.entry.words.now in let i = issue.entry.i in
        result ≡ all_reads b i (read_ok b i) }
{
    if issue.words[7 + 4 * issue.i + 3] == 0 {
        return true;
    }
    if !reads_counted(issue, k, &prior) {
        return false;
    }
    counts_saved(issue, &least_counts(issue), prior)
}

// Whether each read of the issue has a key below k and some count, none beyond these.
fn reads_counted(issue: Issue<'_>, k: usize, before: &[u32; 16]) -> bool
    ensures { let b = issue.entry.words.now in
        result ≡ all_reads b issue.entry.i (counted b k issue.entry.w (clock_at before.now 0)) }
{
    let words = issue.words;
    let w = issue.w;
    each_read(
        issue,
        |read| read_counted(words, read.counts, k, w, read.key, before),
    )
}

// Whether a key is below k, and counts at an index are not all 0 and none beyond these.
fn read_counted(words: &[u32], at: usize, k: usize, w: usize, key: u32, before: &[u32]) -> bool
    requires { (at + w ≤ length words.now) × (w ≤ length before.now) }
    ensures { let c = clock_at words.now at in
        result ≡ ltb key k && (present w c && dominates w (clock_at before.now 0) c) }
{
    if k <= key as usize {
        return false;
    }
    if !present(words, at, w) {
        return false;
    }
    covering(compare(before, 0, words, at, w))
}

// Whether each issue before this one, back from the last, saved the keys of those of its reads
// that count up to just it.
fn counts_saved(issue: Issue<'_>, least: &[u32; 16], prior: [u32; 16]) -> bool
    requires low { KeysLow issue.words.now issue.i }
    requires ranked { Ranked issue.words.now issue.w issue.i prior }
    requires least { Least issue.words.now issue.w issue.i least.now }
    ensures { let b = issue.entry.words.now in let i = issue.entry.i in
        result ≡ all_below i (λ j.
        all_reads b i (count_saved b (writer_at b j) (mask_at b j) (rank b j))) }
{
    let mut ranks = prior;
    for j in (0..issue.i).rev() {
        let earlier = step_back(issue, j, &mut ranks);
        if !reads_fine(issue, earlier, least) {
            return false;
        }
    }
    true
}

// As reads_saved: that isn't asked of an issue before all that are counted up to.
fn reads_fine(issue: Issue<'_>, earlier: Earlier, least: &[u32; 16]) -> bool
    requires low { KeysLow issue.words.now issue.i × (earlier.u < issue.w) }
    requires least { Least issue.words.now issue.w issue.i least.now × (1 ≤ earlier.rank) }
    ensures { let b = issue.entry.words.now in
        result ≡ all_reads b issue.entry.i (count_saved b earlier.u earlier.mask earlier.rank) }
{
    if earlier.rank < least[earlier.u] {
        return true;
    }
    reads_saved(issue, earlier)
}

// Whether each read of the issue that counts up to just the earlier one has a key that it saved.
fn reads_saved(issue: Issue<'_>, earlier: Earlier) -> bool
    requires { KeysLow issue.words.now issue.i × (earlier.u < issue.w) }
    ensures { let b = issue.entry.words.now in
        result ≡ all_reads b issue.entry.i (count_saved b earlier.u earlier.mask earlier.rank) }
{
    let words = issue.words;
    each_read(
        issue,
        |read| count_saved(read.key, words[read.counts + earlier.u], earlier),
    )
}

// Whether the mask has the key, if the count is this rank.
fn count_saved(key: u32, count: u32, earlier: Earlier) -> bool
    requires { key < 32 }
    ensures { result ≡ implies (eqb earlier.rank count) (test_bit earlier.mask key) }
{
    earlier.rank != count || has(earlier.mask, key)
}
