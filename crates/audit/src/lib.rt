// Audit (CR 14): whether a record of issues is readable, and which issue's reads are no snapshot.
#![tactic(auto)]

mod counts;
mod header;
mod issues;
mod reading;
mod reads;
mod saves;
mod walk;

ghost use Rattle.std.specs.Prelude.{◌≡◌};
ghost use Rattle.answers.specs.Answers.{answered_words};
ghost use Rattle.model.specs.Outcome.{answer};
ghost use Rattle.records.specs.Format.{readable};
ghost use Rattle.records.specs.Audit.{audit_of};

use answers::refusal::Refusal;
use header::layout_fits;
use issues::issues_fit;
use reads::reads_fit;
use walk::first_unsound;

// The number from 1 of the first issue of a record whose reads are no snapshot, 0 for none. The
// words may be any words.
pub fn audit(words: &[u32]) -> Result<u32, Refusal>
    ensures { answered_words result ≡ answer (audit_of words.now) }
{
    if !readable(words) {
        return Err(Refusal::NotReadable);
    }
    Ok(first_unsound(words, words[1] as usize, words[2] as usize))
}

// Whether the record is readable: its layout, then its issues, then their reads.
fn readable(words: &[u32]) -> bool
    ensures { result ≡ readable words.now }
{
    if !layout_fits(words) {
        return false;
    }
    let k = words[0] as usize;
    let w = words[1] as usize;
    let n = words[2] as usize;
    if !issues_fit(words, k, w, n) {
        return false;
    }
    reads_fit(words, k, w, n)
}
