// The jobs of a run that isn't free: how many, each of them, and the plan of all.
ghost use Rattle.std.specs.Prelude.{◌≡◌, ◌<◌};
ghost use Rattle.sizes.specs.Runs.{every_job};
ghost use Rattle.layout.specs.Reading.{store_of};
ghost use Rattle.form.specs.Parts.{reads_of};
ghost use Rattle.trial.specs.Jobs.{UsedRun, planned_job};

use form::job::reads_of;
use sizes::run::{JobOffset, RunOffset};
use sizes::{Counts, Sizes, job_at};

// A job of a plan: its site, what it reads, and the jobs before it.
#[derive(Clone, Copy)]
pub struct PlannedJob {
    pub site: u32,
    pub reads: u32,
    pub upstream: u32,
}

// The number of jobs of run r.
pub fn job_count(words: &[u32], z: Counts, r: usize) -> u32
    requires { UsedRun words.now z r }
    ensures { result ≡ ((store_of words.now).run r).jobs }
{
    let at = z.run_at(r);
    words[at + RunOffset::JOBS]
}

// Job j of run r.
pub fn job_of(words: &[u32], z: Counts, r: usize, j: usize) -> PlannedJob
    requires used_run { UsedRun words.now z r }
    requires j_bound { j < ((store_of words.now).run r).jobs }
    ensures { result ≡ planned_job (((store_of words.now).run r).job j) }
{
    let at = z.run_at(r);
    let job = job_at(at + RunOffset::PLAN, j);
    PlannedJob {
        site: words[job],
        reads: words[job + JobOffset::READS],
        upstream: words[job + JobOffset::UPSTREAM],
    }
}

// The plan of run r: all that its jobs read.
pub fn plan_keys(words: &[u32], z: Counts, r: usize) -> u32
    requires { UsedRun words.now z r }
    ensures { result ≡ reads_of ((store_of words.now).run r).jobs
        ((store_of words.now).run r).job every_job }
{
    let n = job_count(words, z, r);
    let at = z.run_at(r);
    reads_of(words, at + RunOffset::PLAN, n, Sizes::EVERY_JOB)
}
