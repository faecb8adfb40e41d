// Step: a job reads its keys on a branch of its run, from that branch's snapshot, its site's cache
// or the master. What it would do is found first, and nothing is stored before that.
#![tactic(auto)]

ghost use Rattle.std.specs.Prelude.{◌≡◌, [], ◌∷◌, ◌≤◌, length};
ghost use Rattle.std.proofs.Math.Bool.{So};
ghost use Rattle.std.specs.Int.Bits.{bit_and};
ghost use Rattle.answers.specs.Answers.{answer_room, Lays};
ghost use Rattle.masks.specs.Mask.{without};
ghost use Rattle.model.specs.Outcome.{answer};
ghost use Rattle.model.specs.Step.{step_done};
ghost use Rattle.model.specs.Calls.{step};
ghost use Rattle.layout.specs.Reading.{store_of};
ghost use Rattle.layout.specs.Buffer.{in_form};
ghost use Rattle.layout.specs.Calls.{on, call_on, leaves};
ghost use Rattle.trial.specs.Trials.{Finds};
ghost use Rattle.step.specs.Answers.{outcome_words, stepped_words};
ghost use Rattle.step.specs.Few.{few-outcome};

use answers::refusal::Refusal;
use answers::{Answer, put_two};
use fetching::take_keys;
use form::header::counts;
use masks::{with_item, without};
use sizes::Counts;
use sizes::run::RunOffset;
use status::{mark_broken, mark_done};
use trial::{Trial, Visit, try_job};
use version::merge::merge_keys;

// The reads from the snapshot, from the cache and from the master; or the keys that would move
// though the branch has read them.
#[derive(Clone, Copy, PartialEq, Eq, Debug)]
pub enum Stepped {
    Done(u32, u32, u32),
    Broken(u32),
}

// A job of a run reads its keys, on a branch (CR 10: a line).
#[tactic(auto, using(crate::proofs::Steps::turned_answer))]
pub fn step(words: &mut [u32], run: u32, job: u32, line: u32) -> Result<Stepped, Refusal>
    requires { So (in_form words.old) }
    ensures answers { stepped_words result
        ≡ answer (call_on (on (step run job line)) words.old) }
    ensures leaves { words.new
        ≡ leaves (call_on (on (step run job line)) words.old) words.old }
{
    let z = counts(words);
    let r = run as usize;
    let n = line as usize;
    let (visit, trial) = try_job(words, z, r, job as usize, n)?;
    Ok(act(words, z, r, job, n, visit, trial))
}

// Breaks the run or finishes the job, by what the trial found.
fn act(
    words: &mut [u32],
    z: Counts,
    r: usize,
    job: u32,
    n: usize,
    visit: Visit,
    trial: Trial,
) -> Stepped
    requires { Finds words.old z r job n visit trial }
    ensures answers { stepped_words (Ok result)
        ≡ answer (call_on (on (step r job n)) words.old) }
    ensures leaves { words.new
        ≡ leaves (call_on (on (step r job n)) words.old) words.old }
{
    let at = z.run_at(r);
    let moved = trial.pulled & visit.read;
    if moved != 0 {
        mark_broken(words, at);
        return Stepped::Broken(moved);
    }
    finish(words, z, r, job, n, visit, trial);
    divided(visit.reads, trial)
}

// The cache takes T, and its mark is set; the branch's snapshot takes C; the job is done, and the
// branch has read its reads.
fn finish(words: &mut [u32], z: Counts, r: usize, job: u32, n: usize, visit: Visit, trial: Trial)
    requires { Finds words.old z r job n visit trial }
    ensures { words.new
        ≡ leaves (step_done (store_of words.old) r job n) words.old }
{
    let at = z.run_at(r);
    let read = z.read_on(r, n);
    let jobs_done = with_item(words[at + RunOffset::DONE], job);
    take_keys(words, z, visit.site, trial.taken);
    merge_keys(words, z, visit.snapshot, visit.cache, trial.pulled);
    mark_done(words, at, read, jobs_done, visit.read | visit.reads);
}

// The reads divided by where they come from.
fn divided(reads: u32, trial: Trial) -> Stepped
    ensures { result ≡ Stepped.Done (without reads trial.pulled)
        (without (bit_and reads trial.pulled) trial.taken)
        (bit_and (bit_and reads trial.pulled) trial.taken) }
{
    let reads_pulled = reads & trial.pulled;
    let from_snapshot = without(reads, trial.pulled);
    let from_cache = without(reads_pulled, trial.taken);
    let from_master = reads_pulled & trial.taken;
    Stepped::Done(from_snapshot, from_cache, from_master)
}

// Done and three masks.
fn put_masks(answer: &mut [u32], a: u32, b: u32, c: u32) -> usize
    requires { answer_room ≤ length answer.old }
    ensures { Lays (0 ∷ a ∷ b ∷ c ∷ []) answer.old answer.new result }
{
    answer[0] = 0;
    answer[1] = a;
    answer[2] = b;
    answer[3] = c;
    4
}

impl Answer for Stepped {
    ghost words = { outcome_words };

    fn put(self, answer: &mut [u32]) -> usize {
        match self {
            Stepped::Done(a, b, c) => put_masks(answer, a, b, c),
            Stepped::Broken(mask) => put_two(answer, 1, mask),
        }
    }

    ghost few = { few-outcome };
}
