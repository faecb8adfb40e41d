// The jobs of a run that may be stepped: not done, and their upstreams are.
ghost use Rattle.std.specs.Prelude.{◌≡◌, ◌<◌};
ghost use Rattle.model.specs.Calls.Pick.{ready, waiting, ready_job};
ghost use Rattle.layout.specs.Reading.{store_of};
ghost use Rattle.form.specs.Parts.{FormWith};
ghost use Rattle.trial.specs.Jobs.{UsedRun};
ghost use Rattle.pick.specs.Answers.{if_below};

use sizes::Counts;
use sizes::run::RunOffset;
use states::OPEN_STATE;
use trial::causes::is_unready;
use trial::jobs::{job_count, job_of};

// Whether job j of run r is ready.
fn is_ready(words: &[u32], z: Counts, r: usize, j: usize) -> bool
    requires used_run { UsedRun words.now z r }
    requires j_bound { j < ((store_of words.now).run r).jobs }
    ensures { result ≡ ready ((store_of words.now).run r) j }
{
    let at = z.run_at(r);
    let done = words[at + RunOffset::DONE];
    let job = job_of(words, z, r, j);
    !is_unready(done, job.upstream, j as u32)
}

// The lowest job of run r that is ready.
pub fn ready_job(words: &[u32], z: Counts, r: usize) -> Option<usize>
    requires { UsedRun words.now z r }
    ensures { result ≡ if_below ((store_of words.now).run r).jobs
        (ready_job ((store_of words.now).run r)) }
{
    (0..job_count(words, z, r) as usize).find(|j| is_ready(words, z, r, *j))
}

// Whether run r is open and has a job that is ready.
pub fn is_waiting(words: &[u32], z: Counts, r: usize) -> bool
    requires form_with { FormWith words.now z }
    requires r_lt_runs { r < z.runs }
    ensures { result ≡ waiting ((store_of words.now).run r) }
{
    let at = z.run_at(r);
    if words[at] != OPEN_STATE {
        return false;
    }
    ready_job(words, z, r).is_some()
}
