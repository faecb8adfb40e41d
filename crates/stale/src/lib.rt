// Stale: the mark of a site, which tells the keys of its cache that are behind the master.
#![tactic(auto)]

ghost use Rattle.std.specs.Prelude.{◌≡◌};
ghost use Rattle.std.proofs.Math.Bool.{So};
ghost use Rattle.answers.specs.Answers.{answered_words};
ghost use Rattle.model.specs.Outcome.{answer};
ghost use Rattle.model.specs.Calls.{stale, ask};
ghost use Rattle.layout.specs.Buffer.{in_form};
ghost use Rattle.layout.specs.Calls.{on, call_on};

use answers::refusal::Refusal;
use form::header::counts;

// The mask of the stale keys of a site's cache, in a buffer that is in form.
pub fn stale(words: &[u32], site: u32) -> Result<u32, Refusal>
    requires { So (in_form words.now) }
    ensures { answered_words result
        ≡ answer (call_on (on (ask (stale site))) words.now) }
{
    let z = counts(words);
    let o = site as usize;
    if z.sites <= o {
        return Err(Refusal::OutOfRange);
    }
    let site = z.site_at(o);
    let at = z.stale_at(site);
    Ok(words[at])
}
