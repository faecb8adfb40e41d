// Open and drop: a run begins, and is freed. Each call tests its causes before it stores a word.
#![tactic(auto)]

pub mod jobs;

ghost use Rattle.std.specs.Prelude.{◌≡◌};
ghost use Rattle.std.proofs.Math.Bool.{So};
ghost use Rattle.model.specs.Outcome.{answer};
ghost use Rattle.model.specs.Runs.{open_cause};
ghost use Rattle.model.specs.Calls.{open_run, drop_run};
ghost use Rattle.layout.specs.Reading.{store_of};
ghost use Rattle.layout.specs.Buffer.{in_form};
ghost use Rattle.layout.specs.Calls.{on, call_on, leaves};
ghost use Rattle.form.specs.Parts.{FormWith};
ghost use Rattle.answers.specs.Answers.{answered_words};
ghost use Rattle.answers.specs.Refusals.{cause_number};

use answers::refusal::Refusal;
use form::header::counts;
use jobs::{list_valid, put_jobs};
use sizes::Counts;
use states::Row;
use status::{clear_run, run_cause};

// Frees the run. Answers 0.
pub fn drop(words: &mut [u32], run: u32) -> Result<u32, Refusal>
    requires { So (in_form words.old) }
    ensures answers { answered_words result
        ≡ answer (call_on (on (drop_run run)) words.old) }
    ensures leaves { words.new
        ≡ leaves (call_on (on (drop_run run)) words.old) words.old }
{
    let r = run as usize;
    let z = counts(words);
    run_cause(words, z, Row::Drop, r)?;
    let at = z.run_at(r);
    clear_run(words, z, at);
    Ok(0)
}

// Why open is refused on a buffer in form.
pub fn open_cause(words: &[u32], z: Counts, r: usize, jobs: &[u32]) -> Result<(), Refusal>
    requires { FormWith words.now z }
    ensures { cause_number result ≡ open_cause (store_of words.now) r jobs.now }
{
    run_cause(words, z, Row::Open, r)?;
    if !list_valid(z, jobs) {
        return Err(Refusal::BadJobs);
    }
    Ok(())
}

// Begins a run of the jobs in a list, three words for each. The list may have any length. Answers
// the number of jobs.
pub fn open(words: &mut [u32], run: u32, jobs: &[u32]) -> Result<u32, Refusal>
    requires { So (in_form words.old) }
    ensures answers { answered_words result
        ≡ answer (call_on (on (open_run run jobs.now)) words.old) }
    ensures leaves { words.new
        ≡ leaves (call_on (on (open_run run jobs.now)) words.old)
        words.old }
{
    let r = run as usize;
    let z = counts(words);
    open_cause(words, z, r, jobs)?;
    let at = z.run_at(r);
    let n = put_jobs(words, at, jobs);
    Ok(n)
}
