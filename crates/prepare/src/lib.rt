// Prepare: what the jobs of a run read is fetched, and the snapshot becomes the merge of their
// caches. Every cause is tested before a word is stored.
#![tactic(auto)]

pub mod fetches;
pub mod merges;

ghost use Rattle.std.specs.Prelude.{◌≡◌};
ghost use Rattle.std.proofs.Math.Bool.{So};
ghost use Rattle.model.specs.Outcome.{answer};
ghost use Rattle.model.specs.Calls.{prepare};
ghost use Rattle.layout.specs.Reading.{store_of};
ghost use Rattle.layout.specs.Buffer.{in_form};
ghost use Rattle.layout.specs.Calls.{on, call_on, leaves};
ghost use Rattle.form.specs.Parts.{FormWith};
ghost use Rattle.answers.specs.Answers.{answered_words};
ghost use Rattle.answers.specs.Refusals.{cause_number};
ghost use Rattle.prepare.specs.Turns.{early_cause};

use answers::refusal::Refusal;
use fetches::{is_crowded, is_unentitled, is_unpreparable, site_sets, take_sets};
use form::header::counts;
use merges::merge_run;
use sizes::Counts;
use sizes::run::RunOffset;
use states::{FORKED_MARK, Row};
use status::run_cause;
use version::held_mask;

// Fetches what the jobs of a run read, and makes the snapshot the merge of their caches. Answers
// the mask of the keys that it carries.
pub fn prepare(words: &mut [u32], run: u32) -> Result<u32, Refusal>
    requires { So (in_form words.old) }
    ensures answers { answered_words result
        ≡ answer (call_on (on (prepare run)) words.old) }
    ensures leaves { words.new
        ≡ leaves (call_on (on (prepare run)) words.old) words.old }
{
    let z = counts(words);
    let r = run as usize;
    early_cause(words, z, r)?;
    let sets = site_sets(words, z, r);
    let barred = is_unentitled(words, z, &sets);
    let lacked = is_unpreparable(words, z, &sets);
    if barred {
        return Err(Refusal::NoRight);
    }
    if lacked {
        return Err(Refusal::NotOnMaster);
    }
    if is_crowded(words, z, &sets) {
        return Err(Refusal::OverAllowance);
    }
    take_sets(words, z, &sets);
    merge_run(words, z, r);
    let snapshot = z.snapshot_at(r);
    let carried = held_mask(words, z, snapshot);
    Ok(carried)
}

// Why a prepare is refused by its run alone.
fn early_cause(words: &[u32], z: Counts, r: usize) -> Result<(), Refusal>
    requires { FormWith words.now z }
    ensures { cause_number result ≡ early_cause (store_of words.now) r 0 }
{
    run_cause(words, z, Row::Prepare, r)?;
    let mark = z.mark_at(r);
    let at = z.run_at(r);
    let forked = words[mark] == FORKED_MARK;
    let begun = words[at + RunOffset::DONE] != 0;
    if forked {
        return Err(Refusal::WrongLine);
    }
    if begun {
        return Err(Refusal::WrongTurn);
    }
    Ok(())
}
