// Allow: a site gets another allowance.
#![tactic(auto)]

ghost use Rattle.std.specs.Prelude.{◌≡◌};
ghost use Rattle.std.proofs.Math.Bool.{So};
ghost use Rattle.model.specs.Outcome.{answer};
ghost use Rattle.model.specs.Calls.Allow.{allow_cause};
ghost use Rattle.model.specs.Calls.{allow};
ghost use Rattle.layout.specs.Reading.{store_of};
ghost use Rattle.layout.specs.Buffer.{in_form};
ghost use Rattle.layout.specs.Calls.{on, call_on, leaves};
ghost use Rattle.form.specs.Parts.{FormWith};
ghost use Rattle.answers.specs.Answers.{answered_words};
ghost use Rattle.answers.specs.Refusals.{cause_number};

use answers::refusal::Refusal;
use form::header::counts;
use sizes::Counts;
use version::count_with;

// Sets how many keys a site may hold. Answers 0.
pub fn allow(words: &mut [u32], site: u32, number: u32) -> Result<u32, Refusal>
    requires { So (in_form words.old) }
    ensures answers { answered_words result
        ≡ answer (call_on (on (allow site number)) words.old) }
    ensures leaves { words.new
        ≡ leaves (call_on (on (allow site number)) words.old) words.old }
{
    let z = counts(words);
    let o = site as usize;
    allow_cause(words, z, o, number)?;
    let cache = z.site_at(o);
    let at = z.allowance_at(cache);
    words[at] = number;
    Ok(0)
}

// Why an allow is refused.
fn allow_cause(words: &[u32], z: Counts, o: usize, number: u32) -> Result<(), Refusal>
    requires { FormWith words.now z }
    ensures { cause_number result ≡ allow_cause (store_of words.now) o number }
{
    if z.sites <= o || z.keys < number as usize {
        return Err(Refusal::OutOfRange);
    }
    let cache = z.site_at(o);
    if number < count_with(words, z, cache, 0) {
        return Err(Refusal::OverAllowance);
    }
    Ok(())
}
