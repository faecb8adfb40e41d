// Fetch and evict: a site's cache takes keys from the master, or leaves them.
#![tactic(auto)]

ghost use Rattle.std.specs.Prelude.{◌≡◌};
ghost use Rattle.std.proofs.Math.Bool.{So};
ghost use Rattle.model.specs.Outcome.{answer};
ghost use Rattle.model.specs.Calls.{fetch, evict};
ghost use Rattle.layout.specs.Buffer.{in_form};
ghost use Rattle.layout.specs.Calls.{on, call_on, leaves};
ghost use Rattle.caches.specs.Range.{out_of_range_of};
ghost use Rattle.answers.specs.Answers.{answered_words};

use answers::refusal::Refusal;
use fetching::{find_taken, take_keys, taking_cause};
use form::header::counts;
use masks::with_item;
use sets::evict_keys;
use sizes::Counts;
use version::held;

// Whether there is no such site or no such key.
fn out_of_range(z: Counts, site: usize, key: usize) -> bool
    ensures { result ≡ out_of_range_of z site key }
{
    (z.sites <= site) | (z.keys <= key)
}

// A site's cache takes a key from the master, and with it what its version needs. Answers the mask
// of the keys taken.
pub fn fetch(words: &mut [u32], site: u32, key: u32) -> Result<u32, Refusal>
    requires { So (in_form words.old) }
    ensures answers { answered_words result
        ≡ answer (call_on (on (fetch site key)) words.old) }
    ensures leaves { words.new
        ≡ leaves (call_on (on (fetch site key)) words.old) words.old }
{
    let z = counts(words);
    let o = site as usize;
    let k = key as usize;
    if out_of_range(z, o, k) {
        return Err(Refusal::OutOfRange);
    }
    let wanted = with_item(0, key);
    let taken = find_taken(words, z, o, wanted);
    taking_cause(words, z, o, taken, taken)?;
    take_keys(words, z, o, taken);
    Ok(taken)
}

// A key leaves a site's cache, and with it the keys whose versions need it. Answers the mask of
// the keys gone.
pub fn evict(words: &mut [u32], site: u32, key: u32) -> Result<u32, Refusal>
    requires { So (in_form words.old) }
    ensures answers { answered_words result
        ≡ answer (call_on (on (evict site key)) words.old) }
    ensures leaves { words.new
        ≡ leaves (call_on (on (evict site key)) words.old) words.old }
{
    let z = counts(words);
    let o = site as usize;
    let k = key as usize;
    if out_of_range(z, o, k) {
        return Err(Refusal::OutOfRange);
    }
    let at = z.site_at(o);
    if !held(words, z, at, k) {
        return Err(Refusal::NotHeld);
    }
    let areas = z.areas();
    let unwanted = with_item(0, key);
    let gone = evict_keys(words, z, areas.master, at, unwanted);
    Ok(gone)
}
