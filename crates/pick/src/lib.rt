// Pick: the next job, of the first run that waits, going round the runs from the one after the
// last picked.
#![tactic(auto)]

pub mod ready;

ghost use Rattle.std.specs.Prelude.{◌≡◌, ◌≤◌, ◌<◌, length, set};
ghost use Rattle.std.proofs.Math.Bool.{So};
ghost use Rattle.words.specs.Turns.{turn};
ghost use Rattle.sizes.specs.Bounds.{max_runs_of, round_at_of};
ghost use Rattle.answers.specs.Answers.{answer_room, Lays};
ghost use Rattle.model.specs.Outcome.{answer};
ghost use Rattle.model.specs.Calls.{pick};
ghost use Rattle.model.specs.Calls.Pick.{waiting, pick_turn};
ghost use Rattle.layout.specs.Reading.{store_of};
ghost use Rattle.layout.specs.Buffer.{in_form};
ghost use Rattle.layout.specs.Calls.{on, call_on, leaves};
ghost use Rattle.form.specs.Parts.{FormWith};
ghost use Rattle.pick.specs.Answers.{picked_words, if_below};
ghost use Rattle.pick.specs.Fairness.{Exact};

use answers::{put_one, put_three};
use form::header::counts;
use ready::{is_waiting, ready_job};
use sizes::Counts;

// A run and the job of it that is next.
#[derive(Clone, Copy)]
pub struct Picked {
    pub run: u32,
    pub job: u32,
}

// The last picked run.
fn last_picked(words: &[u32], z: Counts) -> usize
    requires { FormWith words.now z }
    ensures { result ≡ (store_of words.now).tail.round }
{
    let at = z.round_at();
    words[at] as usize
}

// The run at turn i, of so many runs, after the last picked one.
fn turn_run(runs: usize, last: usize, i: usize) -> usize
    requires { (last < max_runs_of) × (i < max_runs_of) }
    ensures { result ≡ turn runs last i }
{
    let next = last + 1 + i;
    if next < runs { next } else { next - runs }
}

// Whether the run at turn i, after the last picked one, waits.
fn waits_at(words: &[u32], z: Counts, last: usize, i: usize) -> bool
    requires form_with { FormWith words.now z }
    requires last_value { last ≡ (store_of words.now).tail.round }
    requires i_lt_runs { i < z.runs }
    ensures { result ≡ waiting ((store_of words.now).run (turn z.runs last i)) }
{
    let r = turn_run(z.runs, last, i);
    is_waiting(words, z, r)
}

// The turn of the first run that waits.
fn pick_turn(words: &[u32], z: Counts, last: usize) -> Option<usize>
    requires form_with { FormWith words.now z }
    requires last_value { last ≡ (store_of words.now).tail.round }
    ensures { result ≡ if_below z.runs (pick_turn (store_of words.now)) }
{
    (0..z.runs).find(|i| waits_at(words, z, last, *i))
}

// Stores the run that is the last picked one now.
fn store_round(words: &mut [u32], z: Counts, r: u32)
    requires { FormWith words.old z }
    ensures { words.new ≡ set words.old (round_at_of z) r }
{
    let at = z.round_at();
    words[at] = r;
}

// The next job, if there is one. Nothing but the round is stored, and not even that if there is
// nothing to do.
pub fn pick(words: &mut [u32]) -> Option<Picked>
    requires { So (in_form words.old) }
    ensures answers { picked_words result ≡ answer (call_on (on pick) words.old) }
    ensures leaves { words.new
        ≡ leaves (call_on (on pick) words.old) words.old }
    ensures exact { Exact (store_of words.old) (picked_words result) }
{
    let z = counts(words);
    let last = last_picked(words, z);
    let i = pick_turn(words, z, last)?;
    let r = turn_run(z.runs, last, i);
    let j = ready_job(words, z, r).unwrap();
    let run = r as u32;
    store_round(words, z, run);
    Some(Picked { run, job: j as u32 })
}

// Puts the words of the answer.
pub fn put_picked(answer: &mut [u32], p: Option<Picked>) -> usize
    requires { answer_room ≤ length answer.old }
    ensures { Lays (picked_words p) answer.old answer.new result }
{
    match p {
        Some(picked) => put_three(answer, 0, picked.run, picked.job),
        None => put_one(answer, 5),
    }
}
