// Fork and join (CR 10): a run gets a second branch, and the two become one again. What a join
// would move is found first, and nothing is stored before that.
#![tactic(auto)]

ghost use Rattle.std.specs.Prelude.{◌≡◌, not, ◌<◌, eqb, length, set};
ghost use Rattle.std.proofs.Math.Bool.{So};
ghost use Rattle.sizes.specs.Bounds.{read_at_of, mark_at};
ghost use Rattle.model.specs.Store.{with_run};
ghost use Rattle.model.specs.Stays.{moved_set};
ghost use Rattle.model.specs.Outcome.{answer, refuse, run_cause};
ghost use Rattle.model.specs.Calls.Fork.{forked_run, joined_run};
ghost use Rattle.model.specs.Calls.{fork, join};
ghost use Rattle.layout.specs.Reading.{store_of};
ghost use Rattle.layout.specs.Buffer.{written, in_form};
ghost use Rattle.layout.specs.Calls.{on, call_on, leaves};
ghost use Rattle.form.specs.Parts.{StoreArea, FormWith};
ghost use Rattle.answers.specs.Answers.{answered_words};
ghost use Rattle.answers.specs.Refusals.{cause_number};
ghost use Rattle.states.specs.Rows.{row_number};
ghost use Rattle.fork.specs.Answers.{joined_words, union_words};
ghost use Rattle.fork.specs.Few.{few-union};
ghost use Rattle.fork.specs.Branches.{merged_run};

use answers::refusal::Refusal;
use answers::{Answer, put_two};
use form::header::counts;
use sizes::Counts;
use states::{FORKED_MARK, JOINED_MARK, Row};
use status::{mark_broken, run_cause};
use version::held_mask;
use version::merge::merge_keys;
use version::moved::moved_keys;
use words::{copy, zero};

// The branches are one; or the keys that were read and would move. An Option would say less: the
// join that is done would be its None.
#[derive(Clone, Copy, PartialEq, Eq, Debug)]
pub enum Joined {
    Done,
    Broken(u32),
}

// A run gets a second branch, which is as the first. Answers 0.
pub fn fork(words: &mut [u32], run: u32) -> Result<u32, Refusal>
    requires { So (in_form words.old) }
    ensures answers { answered_words result
        ≡ answer (call_on (on (fork run)) words.old) }
    ensures leaves { words.new
        ≡ leaves (call_on (on (fork run)) words.old) words.old }
{
    let z = counts(words);
    let r = run as usize;
    mark_cause(words, z, Row::Fork, 0, r)?;
    divide(words, z, r);
    Ok(0)
}

// The second branch of a run is merged into the first, unless a key that was read would move.
pub fn join(words: &mut [u32], run: u32) -> Result<Joined, Refusal>
    requires { So (in_form words.old) }
    ensures answers { joined_words result
        ≡ answer (call_on (on (join run)) words.old) }
    ensures leaves { words.new
        ≡ leaves (call_on (on (join run)) words.old) words.old }
{
    let z = counts(words);
    let r = run as usize;
    mark_cause(words, z, Row::Join, FORKED_MARK, r)?;
    let moved = moved_of(words, z, r);
    if moved != 0 {
        let at = z.run_at(r);
        mark_broken(words, at);
        return Ok(Joined::Broken(moved));
    }
    unite(words, z, r);
    Ok(Joined::Done)
}

// Why a call, a row of the table of states, that asks for a mark is refused on run r.
fn mark_cause(words: &[u32], z: Counts, row: Row, mark: u32, r: usize) -> Result<(), Refusal>
    requires { FormWith words.now z }
    ensures { cause_number result ≡ run_cause (store_of words.now) (row_number row) r
        (refuse (not (eqb ((store_of words.now).run r).mark mark)) 14 0) }
{
    run_cause(words, z, row, r)?;
    let at = z.mark_at(r);
    if words[at] != mark {
        return Err(Refusal::WrongLine);
    }
    Ok(())
}

// The second branch of run r becomes as the first, and the run is forked.
fn divide(words: &mut [u32], z: Counts, r: usize)
    requires form_with { FormWith words.old z }
    requires r_lt_runs { r < z.runs }
    ensures { words.new ≡ written (with_run (store_of words.old) r
        (forked_run ((store_of words.old).run r))) words.old }
{
    let first = z.snapshot_on(r, 0);
    let second = z.snapshot_on(r, 1);
    let at = z.read_on(r, 0);
    let read = words[at];
    let n = z.place_size();
    copy(words, second, first, n);
    put_marks(words, z, r, read, FORKED_MARK);
}

// The keys that a join of run r would move though they were read.
fn moved_of(words: &[u32], z: Counts, r: usize) -> u32
    requires form_with { FormWith words.now z }
    requires r_lt_runs { r < z.runs }
    ensures { result ≡ moved_set z ((store_of words.now).run r).branch
        ((store_of words.now).run r).second }
{
    let first = z.snapshot_on(r, 0);
    let second = z.snapshot_on(r, 1);
    let mine = z.read_on(r, 0);
    let theirs = z.read_on(r, 1);
    let m = words[mine];
    let n = words[theirs];
    moved_keys(words, z, first, second, m, n)
}

// The second branch of run r is merged into the first, and cleared: the run is joined.
fn unite(words: &mut [u32], z: Counts, r: usize)
    requires form_with { FormWith words.old z }
    requires r_lt_runs { r < z.runs }
    ensures { words.new ≡ written (with_run (store_of words.old) r
        (joined_run (store_of words.old) r)) words.old }
{
    merge_branches(words, z, r);
    let second = z.snapshot_on(r, 1);
    let n = z.place_size();
    zero(words, second, n);
    put_marks(words, z, r, 0, JOINED_MARK);
}

// The first branch of run r takes in the second: the keys that the second's snapshot holds are
// merged, and it has then read what either has.
fn merge_branches(words: &mut [u32], z: Counts, r: usize)
    requires form_with { FormWith words.old z }
    requires r_lt_runs { r < z.runs }
    ensures { words.new ≡ written (with_run (store_of words.old) r
        (merged_run (store_of words.old) r)) words.old }
{
    let first = z.snapshot_on(r, 0);
    let second = z.snapshot_on(r, 1);
    let mine = z.read_on(r, 0);
    let theirs = z.read_on(r, 1);
    let read = words[mine] | words[theirs];
    let held = held_mask(words, z, second);
    merge_keys(words, z, first, second, held);
    words[mine] = read;
}

// Stores the second read mask of run r, and the mark.
fn put_marks(words: &mut [u32], z: Counts, r: usize, read: u32, mark: u32)
    requires store_area { StoreArea (length words.old) z }
    requires r_lt_runs { r < z.runs }
    ensures { words.new
        ≡ set (set words.old (read_at_of z r 1) read) (mark_at z r) mark }
{
    let theirs = z.read_on(r, 1);
    let at = z.mark_at(r);
    words[theirs] = read;
    words[at] = mark;
}

impl Answer for Joined {
    ghost words = { union_words };

    fn put(self, answer: &mut [u32]) -> usize {
        match self {
            Joined::Done => put_two(answer, 0, 0),
            Joined::Broken(moved) => put_two(answer, 1, moved),
        }
    }

    ghost few = { few-union };
}
