// Who may hold and who may save: a site gets another mask of the keys that it may hold, a writer
// one of those that it may save.
#![tactic(auto)]

ghost use Rattle.std.specs.Prelude.{◌≡◌, ◌||◌, ◌<◌, ◌^◌, leb, length};
ghost use Rattle.std.proofs.Math.Bool.{So};
ghost use Rattle.masks.specs.Mask.{mask_below};
ghost use Rattle.sizes.specs.Bounds.{Ranged};
ghost use Rattle.model.specs.Version.{versions};
ghost use Rattle.model.specs.Store.{with_cache};
ghost use Rattle.model.specs.Outcome.{answer};
ghost use Rattle.model.specs.Calls.Rights.{taken_away, mayhold_cache};
ghost use Rattle.model.specs.Calls.{mayhold, maysave};
ghost use Rattle.layout.specs.Reading.{read_place, store_of};
ghost use Rattle.layout.specs.Buffer.{written, in_form};
ghost use Rattle.layout.specs.Calls.{on, call_on, leaves};
ghost use Rattle.version.specs.Places.{Area};
ghost use Rattle.form.specs.Parts.{FormWith};
ghost use Rattle.answers.specs.Answers.{answered_words};

use answers::refusal::Refusal;
use form::header::counts;
use form::job::is_below;
use masks::without;
use sets::evict_keys;
use sizes::Counts;
use version::held_mask;

// Whether i is none of n, or the mask has a bit at K or above.
fn out_of_range(z: Counts, n: usize, i: usize, mask: u32) -> bool
    requires { Ranged z }
    ensures { result ≡ leb n i || leb (2 ^ z.keys) mask }
{
    (n <= i) | !is_below(mask, z.keys)
}

// The keys that the cache at an index holds and the mask lacks.
fn taken_away(words: &[u32], z: Counts, at: usize, mask: u32) -> u32
    requires { Area (length words.now) z at }
    ensures { result ≡ mask_below z.keys (taken_away (versions z.writers)
        (read_place z words.now at) mask) }
{
    let kept = held_mask(words, z, at);
    without(kept, mask)
}

// E leaves the cache of site o, from the keys held there that the mask lacks. Where there are none
// nothing is stored.
fn take_away(words: &mut [u32], z: Counts, o: usize, mask: u32)
    requires { FormWith words.old z × (o < z.sites) }
    ensures { words.new ≡ written (with_cache (store_of words.old) o
        (mayhold_cache (store_of words.old) o mask)) words.old }
{
    let at = z.site_at(o);
    let barred = taken_away(words, z, at, mask);
    if barred == 0 {
        return;
    }
    let areas = z.areas();
    evict_keys(words, z, areas.master, at, barred);
}

// Sets the keys that a site may hold. Those of its cache that it may hold no more leave it, and
// with them the keys whose versions need them. Answers 0.
pub fn mayhold(words: &mut [u32], site: u32, mask: u32) -> Result<u32, Refusal>
    requires { So (in_form words.old) }
    ensures answers { answered_words result
        ≡ answer (call_on (on (mayhold site mask)) words.old) }
    ensures leaves { words.new
        ≡ leaves (call_on (on (mayhold site mask)) words.old) words.old }
{
    let z = counts(words);
    let o = site as usize;
    if out_of_range(z, z.sites, o, mask) {
        return Err(Refusal::OutOfRange);
    }
    take_away(words, z, o, mask);
    let right = z.may_hold_at(o);
    words[right] = mask;
    Ok(0)
}

// Sets the keys that a writer may save. Answers 0.
pub fn maysave(words: &mut [u32], writer: u32, mask: u32) -> Result<u32, Refusal>
    requires { So (in_form words.old) }
    ensures answers { answered_words result
        ≡ answer (call_on (on (maysave writer mask)) words.old) }
    ensures leaves { words.new
        ≡ leaves (call_on (on (maysave writer mask)) words.old) words.old }
{
    let z = counts(words);
    let w = writer as usize;
    if out_of_range(z, z.writers, w, mask) {
        return Err(Refusal::OutOfRange);
    }
    let at = z.may_save_at(w);
    words[at] = mask;
    Ok(0)
}
