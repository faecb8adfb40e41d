// Issue numbers: a type of their own, so that none is taken for a writer's count. Only this crate
// takes one out of a word or puts one into it.
#![tactic(auto)]

ghost use Rattle.std.specs.Prelude.{◌≡◌, ◌≤◌, ◌<◌, eqb, leb, length, get_or, set};
ghost use Rattle.clock.specs.Count.{max_word};
ghost use Rattle.sizes.specs.Bounds.{header_size, last_offset};
ghost use Rattle.numbers.specs.Rising.{issue_after, risen};

use clock::count::{MAX, WriterCount};
use sizes::header::HeaderOffset;

// The number of an issue; 0 where nothing is held. (No Option: the interface for C hands out 0.)
#[derive(Clone, Copy, PartialEq, Eq, PartialOrd, Ord)]
pub struct IssueNumber(u32);

// What an issue raises: the last issue number and its writer's count.
#[derive(Clone, Copy)]
pub struct Tally {
    pub issue: IssueNumber,
    pub count: WriterCount,
}

// The number in an answer.
impl From<IssueNumber> for u32 {
    ghost from_gives = { λ i n. n ≡ i.0 };

    fn from(number: IssueNumber) -> u32 {
        number.0
    }
}

impl IssueNumber {
    // The number where nothing is held, or saved.
    pub fn none() -> IssueNumber
        ensures { result.0 ≡ 0 }
    {
        IssueNumber(0)
    }

    // Whether a version with this number is held.
    pub fn is_held(self) -> bool
        ensures { result ≡ leb 1 self.0 }
    {
        1 <= self.0
    }

    // Whether no issue can follow.
    pub fn is_last(self) -> bool
        ensures { result ≡ eqb self.0 max_word }
    {
        self.0 == MAX
    }

    // The number of the next issue.
    pub fn next(self) -> IssueNumber
        requires { self.0 < max_word }
        ensures { result ≡ issue_after self }
    {
        IssueNumber(self.0 + 1)
    }
}

// Both after one more issue: "the issue number and the writer's count rise by 1".
pub fn raised(issue: IssueNumber, count: WriterCount) -> Tally
    requires issue_lt_max_word { issue.0 < max_word }
    requires count_lt_max_word { count.0 < max_word }
    ensures { result ≡ risen issue count }
{
    Tally {
        issue: issue.next(),
        count: count.next(),
    }
}

// The last issue number, a word of the header.
pub fn last_issue(words: &[u32]) -> IssueNumber
    requires { header_size ≤ length words.now }
    ensures { result.0 ≡ get_or words.now last_offset 0 }
{
    IssueNumber(words[HeaderOffset::LAST])
}

pub fn set_last_issue(words: &mut [u32], new: IssueNumber)
    requires { header_size ≤ length words.old }
    ensures { words.new ≡ set words.old last_offset new.0 }
{
    words[HeaderOffset::LAST] = new.0;
}

// The issue number of the version at an index.
pub fn version_issue(words: &[u32], at: usize) -> IssueNumber
    requires { at < length words.now }
    ensures { result.0 ≡ get_or words.now at 0 }
{
    IssueNumber(words[at])
}

pub fn set_version_issue(words: &mut [u32], at: usize, new: IssueNumber)
    requires { at < length words.old }
    ensures { words.new ≡ set words.old at new.0 }
{
    words[at] = new.0;
}
