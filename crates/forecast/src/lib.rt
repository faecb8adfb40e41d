// Forecast (CR 12): the jobs of a run that aren't done are stepped on a copy of the store, lowest
// first, until one breaks the run or is refused.
#![tactic(auto)]

ghost use Rattle.std.specs.Prelude.{◌≡◌, ◌≤◌, ◌<◌, length};
ghost use Rattle.std.proofs.Math.Bool.{So};
ghost use Rattle.sizes.specs.Bounds.{total_of};
ghost use Rattle.sizes.specs.Runs.{max_jobs};
ghost use Rattle.answers.specs.Answers.{answer_room, Lays};
ghost use Rattle.answers.specs.Refusals.{cause_number};
ghost use Rattle.model.specs.Outcome.{answer};
ghost use Rattle.model.specs.Calls.Forecast.{undone_at, walk, forecast_cause, forecast_walk};
ghost use Rattle.model.specs.Calls.{ask, forecast};
ghost use Rattle.layout.specs.Reading.{store_of};
ghost use Rattle.layout.specs.Buffer.{written, in_form};
ghost use Rattle.layout.specs.Forecast.{foreseen};
ghost use Rattle.layout.specs.Calls.{on, call_on};
ghost use Rattle.form.specs.Parts.{FormWith};
ghost use Rattle.forecast.specs.Answers.{outcome_words, foretold_words, ended_of, stopped_at};
ghost use Rattle.forecast.specs.Few.{few-outcome};

use answers::refusal::Refusal;
use answers::{Answer, put_one, put_three};
use form::header::counts;
use masks::has;
use sizes::Counts;
use sizes::run::RunOffset;
use states::{FORKED_MARK, Row};
use status::run_cause;
use step::{Stepped, step};
use trial::jobs::job_count;
use words::copy_from;

// All steps are done; or this job breaks the run, with the mask of the keys that move; or this job
// is turned down, for this cause.
#[derive(Clone, Copy, PartialEq, Eq, Debug)]
pub enum Foretold {
    Through,
    Breaks(u32, u32),
    Turned(u32, Refusal),
}

// What stepping the jobs of a run that aren't done would come to, in a buffer that is in form. The
// scratch becomes the store that they would leave.
pub fn forecast(words: &[u32], scratch: &mut [u32], run: u32) -> Result<Foretold, Refusal>
    requires { So (in_form words.now) }
    ensures answers { foretold_words result ≡ answer
        (call_on (on (ask (forecast (length scratch.old) run))) words.now) }
    ensures leaves { scratch.new
        ≡ foreseen words.now scratch.old run }
{
    let z = counts(words);
    let r = run as usize;
    forecast_cause(words, z, scratch.len(), r)?;
    copy_store(words, scratch, z);
    let jobs = job_count(words, z, r);
    let at = z.run_at(r);
    Ok(walk_jobs(scratch, run, jobs, words[at + RunOffset::DONE]))
}

// Why a forecast of run r is refused, with a scratch of so many words.
fn forecast_cause(words: &[u32], z: Counts, room: usize, r: usize) -> Result<(), Refusal>
    requires { FormWith words.now z }
    ensures { cause_number result ≡ forecast_cause (store_of words.now) room r }
{
    let areas = z.areas();
    let total = areas.total;
    if room < total {
        return Err(Refusal::NotInForm);
    }
    run_cause(words, z, Row::Forecast, r)?;
    let at = z.mark_at(r);
    if words[at] == FORKED_MARK {
        return Err(Refusal::WrongLine);
    }
    Ok(())
}

// Copies the store to the front of the scratch.
fn copy_store(words: &[u32], scratch: &mut [u32], z: Counts)
    requires form_with { FormWith words.now z }
    requires z_in_bounds { total_of z ≤ length scratch.old }
    ensures { scratch.new
        ≡ written (store_of words.now) scratch.old }
{
    let areas = z.areas();
    let total = areas.total;
    copy_from(scratch, 0, words, 0, total);
}

// Steps the jobs that the mask lacks, lowest first, until one isn't done.
fn walk_jobs(scratch: &mut [u32], run: u32, jobs: u32, done: u32) -> Foretold
    requires so { So (in_form scratch.old) }
    requires jobs_value { (jobs ≡ ((store_of scratch.old).run run).jobs)
        × (done ≡ ((store_of scratch.old).run run).done) × (jobs ≤ max_jobs) }
    ensures answers { ended_of result
        ≡ (forecast_walk run (store_of scratch.old)).ended }
    ensures leaves { scratch.new
        ≡ written (forecast_walk run (store_of scratch.old)).store
        scratch.old }
{
    for j in 0..jobs {
        let told = turn(scratch, run, done, j);
        let Foretold::Through = told else {
            return told;
        };
    }
    Foretold::Through
}

// Steps job j on line 0, if the mask lacks it.
fn turn(scratch: &mut [u32], run: u32, done: u32, j: u32) -> Foretold
    requires so { So (in_form scratch.old) }
    requires j_lt_max_jobs { j < max_jobs }
    ensures answers { ended_of result
        ≡ (walk run (undone_at done j) (store_of scratch.old)).ended }
    ensures leaves { scratch.new
        ≡ written (walk run (undone_at done j) (store_of scratch.old)).store
        scratch.old }
{
    if has(done, j) {
        return Foretold::Through;
    }
    let answer = step(scratch, run, j, 0);
    let Ok(Stepped::Done(_, _, _)) = answer else {
        return stopped(j, answer);
    };
    Foretold::Through
}

// What an answer of the step of job j comes to.
#[tactic(auto, unfolding(crate::specs::Answers::stopped_at, crate::specs::Answers::ended_of))]
fn stopped(j: u32, answer: Result<Stepped, Refusal>) -> Foretold
    ensures { ended_of result ≡ stopped_at j answer }
{
    match answer {
        Ok(Stepped::Done(_, _, _)) => Foretold::Through,
        Ok(Stepped::Broken(moved)) => Foretold::Breaks(j, moved),
        Err(refusal) => Foretold::Turned(j, refusal),
    }
}

impl Answer for Foretold {
    ghost words = { outcome_words };

    fn put(self, answer: &mut [u32]) -> usize {
        match self {
            Foretold::Through => put_one(answer, 6),
            Foretold::Breaks(j, moved) => put_three(answer, 7, j, moved),
            Foretold::Turned(j, refusal) => put_three(answer, 8, j, u32::from(refusal)),
        }
    }

    ghost few = { few-outcome };
}
