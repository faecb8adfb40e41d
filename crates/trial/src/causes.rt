// The causes of step that its run decides alone: the job's range, the state, the branch, the jobs
// done.
ghost use Rattle.std.specs.Prelude.{◌≡◌, ◌^◌, ◌<◌};
ghost use Rattle.answers.specs.Refusals.{cause_number};
ghost use Rattle.sizes.specs.Runs.{max_jobs};
ghost use Rattle.model.specs.Step.{job_limit, off_branch, not_ready, job_cause};
ghost use Rattle.layout.specs.Reading.{store_of};
ghost use Rattle.form.specs.Parts.{FormWith};

use crate::jobs::job_of;
use answers::refusal::Refusal;
use masks::{has, without};
use sizes::run::RunOffset;
use sizes::{Counts, Sizes};
use states::{FORKED_MARK, FREE_STATE, Row, is_allowed};

// What the number of a job must be below, in a run of this state and number of jobs.
pub fn job_limit(state: u32, jobs: u32) -> usize
    ensures { result ≡ job_limit state jobs }
{
    if state == FREE_STATE {
        Sizes::MAX_JOBS
    } else {
        jobs as usize
    }
}

// Whether there is no branch n in a run with this mark.
pub fn is_off_branch(mark: u32, n: usize) -> bool
    ensures { result ≡ off_branch mark n }
{
    (2 <= n) | ((n == 1) & (mark != FORKED_MARK))
}

// Whether job j is done, or one of its upstream jobs isn't.
pub fn is_unready(done: u32, upstream: u32, j: u32) -> bool
    requires { (j < max_jobs) × (upstream < 2 ^ max_jobs) }
    ensures { result ≡ not_ready done upstream j }
{
    has(done, j) | (without(upstream, done) != 0)
}

// Why job j of run r is refused on branch n, of these causes.
pub fn job_cause(words: &[u32], z: Counts, r: usize, j: usize, n: usize) -> Result<(), Refusal>
    requires form_with { FormWith words.now z }
    requires r_lt_runs { r < z.runs }
    ensures { cause_number result ≡ job_cause ((store_of words.now).run r) j n 0 }
{
    let at = z.run_at(r);
    let state = words[at];
    let jobs = words[at + RunOffset::JOBS];
    let done = words[at + RunOffset::DONE];
    if job_limit(state, jobs) <= j {
        return Err(Refusal::OutOfRange);
    }
    if !is_allowed(Row::Step, state) {
        return Err(Refusal::WrongState);
    }
    let off = is_off_branch(words[z.mark_at(r)], n);
    let job = job_of(words, z, r, j);
    let unready = is_unready(done, job.upstream, j as u32);
    if off {
        return Err(Refusal::WrongLine);
    }
    if unready {
        return Err(Refusal::WrongTurn);
    }
    Ok(())
}
