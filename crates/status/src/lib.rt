// One run of a store in form: the causes that calls on a run share, and how a run is freed, marked
// and broken in its words.
#![tactic(auto)]

pub mod lent;

ghost use Rattle.std.specs.Prelude.{◌≡◌, ◌+◌, ◌≤◌, ◌<◌, length};
ghost use Rattle.answers.specs.Refusals.{cause_number};
ghost use Rattle.states.specs.Rows.{row_number};
ghost use Rattle.sizes.specs.Runs.{read_offset, plan_offset};
ghost use Rattle.model.specs.Store.{free_run};
ghost use Rattle.model.specs.Outcome.{run_cause};
ghost use Rattle.layout.specs.Reading.{store_of};
ghost use Rattle.layout.specs.Stored.{put_run};
ghost use Rattle.form.specs.Parts.{RunArea, FormWith};
ghost use Rattle.status.specs.Lent.{status_at, put_status, freed, marked, spoiled};

use answers::refusal::Refusal;
use lent::{RunStatus, freed, marked, spoiled};
use sizes::Counts;
use sizes::run::RunOffset;
use states::{Row, is_allowed};
use words::zero;

// Why a call on run r is refused by the run alone: there is no such run, or its state isn't one
// that the call, a row of the table, allows.
pub fn run_cause(words: &[u32], z: Counts, row: Row, r: usize) -> Result<(), Refusal>
    requires { FormWith words.now z }
    ensures { cause_number result
        ≡ run_cause (store_of words.now) (row_number row) r 0 }
{
    if z.runs <= r {
        return Err(Refusal::OutOfRange);
    }
    let at = z.run_at(r);
    if !is_allowed(row, words[at]) {
        return Err(Refusal::WrongState);
    }
    Ok(())
}

// Makes the run at an index a free one: all its words are zero.
pub fn clear_run(words: &mut [u32], z: Counts, at: usize)
    requires { RunArea (length words.old) z at }
    ensures { words.new ≡ put_run z words.old at free_run }
{
    let n = z.run_size();
    free_status(words, at);
    zero(words, at + RunOffset::PLAN, n - RunOffset::PLAN);
}

// Frees what stands first in the run at an index.
fn free_status(words: &mut [u32], at: usize)
    requires { at + plan_offset ≤ length words.old }
    ensures { words.new
        ≡ put_status words.old at (at + read_offset)
        (freed (status_at words.old at (at + read_offset))) }
{
    let read = at + RunOffset::READ;
    let s = freed(status_at(words, at, read));
    put_status(words, at, read, s);
}

// Marks in the run at an index which jobs are done, and at the index of a branch's read mask which
// keys it has read.
pub fn mark_done(words: &mut [u32], at: usize, read: usize, done: u32, reads: u32)
    requires { (at + plan_offset ≤ length words.old) × (read < length words.old) }
    ensures { words.new
        ≡ put_status words.old at read
        (marked (status_at words.old at read) done reads) }
{
    let s = marked(status_at(words, at, read), done, reads);
    put_status(words, at, read, s);
}

// Breaks the run at an index.
pub fn mark_broken(words: &mut [u32], at: usize)
    requires { at + plan_offset ≤ length words.old }
    ensures { words.new
        ≡ put_status words.old at (at + read_offset)
        (spoiled (status_at words.old at (at + read_offset))) }
{
    let read = at + RunOffset::READ;
    let s = spoiled(status_at(words, at, read));
    put_status(words, at, read, s);
}

// What stands first in the run at an index, with the read mask at another.
fn status_at(words: &[u32], at: usize, read: usize) -> RunStatus
    requires { (at + plan_offset ≤ length words.now) × (read < length words.now) }
    ensures { result ≡ status_at words.now at read }
{
    RunStatus {
        state: words[at],
        jobs: words[at + RunOffset::JOBS],
        done: words[at + RunOffset::DONE],
        read: words[read],
    }
}

// Stores what stands first in the run at an index, with the read mask at another.
fn put_status(words: &mut [u32], at: usize, read: usize, s: RunStatus)
    requires { (at + plan_offset ≤ length words.old) × (read < length words.old) }
    ensures { words.new ≡ put_status words.old at read s }
{
    words[at] = s.state;
    words[at + RunOffset::JOBS] = s.jobs;
    words[at + RunOffset::DONE] = s.done;
    words[read] = s.read;
}
