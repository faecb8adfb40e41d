// The issues of a record, and their counts.
ghost use Rattle.std.specs.Prelude.{◌≡◌, ◌&&◌, ◌+◌, ◌*◌, ◌≤◌, ◌<◌, eqb, length};
ghost use Rattle.words.specs.Tests.{all_below};
ghost use Rattle.records.specs.Format.{keys_in, writer_at, mask_at, issues_in, reads_in_of, first_at, read_at_of, reads_before, rank, issue_ok};
ghost use Rattle.audit.specs.Parts.{HeaderOf, IssuesOf, Ranked};

// An issue of a record whose header and issues are in order: the record's words, with w writers
// and n issues, and the issue's number.
#[derive(Clone, Copy)]
pub struct Issue<'a> {
    pub words: &'a [u32],
    pub w: usize,
    pub n: usize,
    pub i: usize,
    pub ghost in_order: { IssuesOf words.now w n × (i < n) },
    pub ghost inside: { (7 + 4 * n ≤ length words.now) × (w ≤ 16) },
}

// An issue on a walk back: its writer, the mask of the keys that it saved, and its rank.
#[derive(Clone, Copy)]
pub struct Earlier {
    pub u: usize,
    pub mask: u32,
    pub rank: u32,
}

impl<'a> Issue<'a> {
    // Issue j of the same record.
    pub fn at(self, j: usize) -> Issue<'a>
        requires { j < self.n }
        ensures { (result.words ≡ self.entry.words) × (result.w ≡ self.entry.w)
            × (result.n ≡ self.entry.n) × (result.i ≡ j) }
    {
        Issue {
            words: self.words,
            w: self.w,
            n: self.n,
            i: j,
        }
    }
}

// Whether each issue is in order, and their reads are all of the record's.
pub fn issues_fit(words: &[u32], k: usize, w: usize, n: usize) -> bool
    requires { HeaderOf words.now w n × (k ≡ keys_in words.now) }
    ensures { let b = words.now in
        result ≡ all_below n (issue_ok b) && eqb (reads_before b n) (reads_in_of b) }
{
    let mut before = 0;
    for i in 0..n {
        if !issue_fits(words, k, w, i, before) {
            return false;
        }
        before += words[7 + 4 * i + 3] as usize;
    }
    before == words[3] as usize
}

// Whether issue i has a writer below w, some keys, each below k, and so many reads before it.
fn issue_fits(words: &[u32], k: usize, w: usize, i: usize, before: usize) -> bool
    requires header_of { HeaderOf words.now w (issues_in words.now) × (k ≡ keys_in words.now) }
    requires i_bound { (i < issues_in words.now) × (before ≡ reads_before words.now i) }
    ensures { result ≡ issue_ok words.now i }
{
    let at = 7 + 4 * i;
    if w <= words[at] as usize {
        return false;
    }
    let mask = words[at + 1] as usize;
    if mask < 1 {
        return false;
    }
    if 1usize << k <= mask {
        return false;
    }
    words[at + 2] as usize == before
}

// The index of the issue's first read.
pub fn reads_at(issue: Issue<'_>) -> usize
    ensures { result ≡ read_at_of issue.entry.words.now (first_at issue.entry.words.now
        issue.entry.i) }
{
    7 + 4 * issue.n + issue.words[7 + 4 * issue.i + 2] as usize * (1 + issue.w)
}

// Counts the issue: one more by its writer.
pub fn count_issue(issue: Issue<'_>, ranks: &mut [u32; 16])
    requires { Ranked issue.words.now issue.w issue.i ranks.old }
    ensures { Ranked issue.entry.words.now issue.entry.w (issue.entry.i + 1) ranks.new }
{
    let u = issue.words[7 + 4 * issue.i] as usize;
    ranks[u] += 1;
}

// Issue j, on a walk back from the issue. The count of its writer, which is its rank, falls by 1.
pub fn step_back(issue: Issue<'_>, j: usize, ranks: &mut [u32; 16]) -> Earlier
    requires { (j < issue.i) × Ranked issue.words.now issue.w (j + 1) ranks.old }
    ensures earlier { let b = issue.entry.words.now in
        (result.u ≡ writer_at b j) × (result.mask ≡ mask_at b j) × (result.rank ≡ rank b j) }
    ensures ranks { Ranked issue.entry.words.now issue.entry.w j ranks.new }
    ensures known { (result.u < issue.entry.w) × (1 ≤ result.rank) }
{
    let at = 7 + 4 * j;
    let u = issue.words[at] as usize;
    let rank = ranks[u];
    ranks[u] = rank - 1;
    let mask = issue.words[at + 1];
    Earlier { u, mask, rank }
}
