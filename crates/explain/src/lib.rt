// Explain: why a step would break its run, found without a store. A path of keys: the first a read
// of the job that the snapshot lacks, each next one drawn in by the one before, the last a key
// that the branch has read.
#![tactic(auto)]

mod drawing;
pub mod put;

ghost use Rattle.std.specs.Prelude.{◌≡◌, Ok};
ghost use Rattle.std.proofs.Math.Bool.{So};
ghost use Rattle.model.specs.Outcome.{answer};
ghost use Rattle.model.specs.Calls.{explain, ask};
ghost use Rattle.layout.specs.Buffer.{in_form};
ghost use Rattle.layout.specs.Calls.{on, call_on};
ghost use Rattle.explain.specs.Answers.{explained_words, Listed};
ghost use Rattle.explain.specs.Drawing.{Draws, drawn_words};

use answers::refusal::Refusal;
use drawing::path_of;
use form::header::counts;
use paths::ItemPath;
use sizes::Counts;
use trial::{Trial, Visit, try_job};

// What a step of a job of a run would come to, on a branch (CR 10: a line), in a buffer that is in
// form: nothing where it would go through, and the path by which it would break its run.
pub fn explain(words: &[u32], run: u32, job: u32, line: u32) -> Result<Option<ItemPath>, Refusal>
    requires { So (in_form words.now) }
    ensures answers { explained_words result
        ≡ answer (call_on (on (ask (explain run job line))) words.now) }
    ensures listed { Listed result }
{
    let z = counts(words);
    let (visit, trial) = try_job(words, z, run as usize, job as usize, line as usize)?;
    Ok(judge(words, z, visit, trial))
}

// The path, where C has a key that the branch has read.
fn judge(words: &[u32], z: Counts, visit: Visit, trial: Trial) -> Option<ItemPath>
    requires { Draws words.now z visit trial }
    ensures answers { explained_words (Ok result) ≡ drawn_words z words.now visit trial }
    ensures listed { Listed (Ok result) }
{
    if trial.pulled & visit.read == 0 {
        return None;
    }
    Some(path_of(words, z, visit, trial))
}
