// Snapshots by a walk back over the earlier issues (CR 14), with a count for each writer.
ghost use Rattle.std.specs.Prelude.{◌≡◌, ◌&&◌, ◌+◌, ◌%◌, ◌≤◌, ◌<◌, eqb, length};
ghost use Rattle.clock.specs.Clock.{dominates, clock_at};
ghost use Rattle.records.specs.Format.{Readable};
ghost use Rattle.records.specs.Snapshots.{is_snapshot};
ghost use Rattle.records.specs.Walk.{walk};
ghost use Rattle.records.specs.Audit.{audit_number};
ghost use Rattle.audit.specs.Parts.{ReadableOf, KeysAmong, Ranked};

use crate::counts::raise;
use crate::issues::{Issue, count_issue, step_back};
use crate::saves::{keys_read, rest_counted, saves_fine};
use clock::{compare, covering};

// The number, from 1, of the first issue whose reads are no snapshot, 0 for none.
pub fn first_unsound(words: &[u32], w: usize, n: usize) -> u32
    requires { ReadableOf words.now w n }
    ensures { result ≡ audit_number words.now }
{
    let mut before = [0u32; 16];
    for i in 0..n {
        let issue = Issue { words, w, n, i };
        if !is_snapshot(issue, before) {
            return (i + 1) as u32;
        }
        count_issue(issue, &mut before);
    }
    0
}

// Whether the reads of the issue are a snapshot: the walk starts at what they count.
fn is_snapshot(issue: Issue<'_>, prior: [u32; 16]) -> bool
    requires { Readable issue.words.now × Ranked issue.words.now issue.w issue.i prior }
    ensures { result ≡ is_snapshot issue.entry.words.now issue.entry.i }
{
    if issue.words[7 + 4 * issue.i + 3] == 0 {
        return true;
    }
    let mut reach = [0; 16];
    raise(issue, &mut reach);
    walk_back(issue, keys_read(issue), prior, &mut reach)
}

// The walk from the issue before this one back to the first. Once the counts reach all that is
// left, none of them is raised any more.
fn walk_back(issue: Issue<'_>, keys: u32, prior: [u32; 16], reach: &mut [u32; 16]) -> bool
    requires readable { Readable issue.words.now }
    requires among { KeysAmong issue.words.now issue.i keys }
    requires ranked { Ranked issue.words.now issue.w issue.i prior }
    ensures { let i = issue.entry.i in
        result ≡ walk issue.entry.words.now i i (clock_at reach.old 0) }
{
    let mut ranks = prior;
    for j in (0..issue.i).rev() {
        if reach_all(&ranks, reach, issue.w, j + 1) {
            return rest_counted(issue, j + 1, keys, &mut ranks);
        }
        if !visit(issue, j, keys, &mut ranks, reach) {
            return false;
        }
    }
    true
}

// Whether the counts reach every issue before issue j. It is asked at each eighth issue.
fn reach_all(ranks: &[u32], reach: &[u32], w: usize, j: usize) -> bool
    requires { (w ≤ length ranks.now) × (w ≤ length reach.now) }
    ensures { result ≡ eqb (j % 8) 0
        && dominates w (clock_at reach.now 0) (clock_at ranks.now 0) }
{
    if j % 8 != 0 {
        return false;
    }
    covering(compare(reach, 0, ranks, 0, w))
}

// Issue j on the walk of the issue. It is passed over where the counts don't reach it. Otherwise
// each read of the issue must have its saves, and its own reads raise the counts.
fn visit(
    issue: Issue<'_>,
    j: usize,
    keys: u32,
    ranks: &mut [u32; 16],
    reach: &mut [u32; 16],
) -> bool
    requires readable { Readable issue.words.now × (j < issue.i) }
    requires among { KeysAmong issue.words.now issue.i keys }
    requires ranked { Ranked issue.words.now issue.w (j + 1) ranks.old }
    ensures reach_value { let b = issue.entry.words.now in let i = issue.entry.i in
        walk b i (j + 1) (clock_at reach.old 0)
        ≡ result && walk b i j (clock_at reach.new 0) }
    ensures ranks { Ranked issue.entry.words.now issue.entry.w j ranks.new }
{
    let earlier = step_back(issue, j, ranks);
    if reach[earlier.u] < earlier.rank {
        return true;
    }
    if !saves_fine(issue, earlier, keys) {
        return false;
    }
    raise(issue.at(j), reach);
    true
}
