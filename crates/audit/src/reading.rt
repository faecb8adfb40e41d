// Walks over the reads of an issue: a test of each, and a value that all of them change in place.
ghost use Rattle.std.specs.Prelude.{◌≡◌, ◌+◌, ℕ, Bool};
ghost use denote.Ref.{MutBor};
ghost use Rattle.words.specs.Tests.{Items};
ghost use Rattle.records.specs.Format.{first_at, number_at, all_reads, ReadOf};
ghost use Rattle.audit.specs.Steps.{read_of, InPlace, Folds};

use crate::issues::{Issue, reads_at};
use reader::{Read, read_from};

// Whether each read of an issue passes a test.
pub fn each_read<F: Fn(Read) -> bool>(issue: Issue<'_>, test: F) -> bool
    requires callable { (x : ℕ) → ReadOf issue.words.now issue.i x
        → F.pre test (read_of issue.words.now x) }
    ensures { let b = issue.entry.words.now in
        (p : Items) → ((x : ℕ) (t : Bool) → ReadOf b issue.entry.i x
        → F.post test (read_of b x) t → t ≡ p x) → result ≡ all_reads b issue.entry.i p }
{
    let mut at = reads_at(issue);
    for _r in 0..issue.words[7 + 4 * issue.i + 3] {
        let Some(read) = read_from(issue.words, at, issue.w) else {
            return false;
        };
        if !test(read) {
            return false;
        }
        at = read.next;
    }
    true
}

// What a step makes of a value in place, from read to read of an issue.
pub fn fold_reads<T: Copy, F: Fn(&mut T, Read)>(issue: Issue<'_>, value: &mut T, step: F)
    requires callable { (x : ℕ) (t : MutBor T) → ReadOf issue.words.now issue.i x
        → F.pre step t (read_of issue.words.now x) }
    ensures { let b = issue.entry.words.now in
        Folds (λ r. InPlace (λ t s. F.post step t (read_of b (first_at b issue.entry.i + r)) tt s))
        (number_at b issue.entry.i) value.old value.new }
{
    let mut at = reads_at(issue);
    for _r in 0..issue.words[7 + 4 * issue.i + 3] {
        let Some(read) = read_from(issue.words, at, issue.w) else {
            return;
        };
        step(value, read);
        at = read.next;
    }
}
