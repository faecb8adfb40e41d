// A fetch at a site, in three parts: T is found, asked for the causes of a refusal, and taken.
#![tactic(auto)]

ghost use Rattle.std.specs.Prelude.{◌≡◌, ◌<◌, ◌^◌};
ghost use Rattle.answers.specs.Refusals.{cause_number};
ghost use Rattle.masks.specs.Mask.{test_bit, mask_below};
ghost use Rattle.model.specs.Version.{versions};
ghost use Rattle.model.specs.Sets.{fetch_set, unfetchable};
ghost use Rattle.model.specs.Tail.{barred};
ghost use Rattle.model.specs.Store.{with_cache};
ghost use Rattle.layout.specs.Reading.{store_of};
ghost use Rattle.layout.specs.Buffer.{written};
ghost use Rattle.version.specs.Places.{choice};
ghost use Rattle.form.specs.Parts.{FormWith};
ghost use Rattle.fetching.specs.Takes.{takes_over, takes_cause};

use answers::refusal::Refusal;
use masks::without;
use sets::fetch_set;
use sets::missing::is_unfetchable;
use sizes::Counts;
use version::mark::mark_site;
use version::{copy_keys, count_with};

// T: the keys that the cache of site o takes from the master.
pub fn find_taken(words: &[u32], z: Counts, o: usize, start: u32) -> u32
    requires form_with { FormWith words.now z × (o < z.sites) }
    requires start_bound { start < 2 ^ z.keys }
    ensures { result ≡ mask_below z.keys (fetch_set (versions z.writers) z.keys
        (store_of words.now).master ((store_of words.now).site o).cache
        (test_bit start)) }
{
    let areas = z.areas();
    let cache = z.site_at(o);
    fetch_set(words, z, areas.master, cache, start)
}

// Whether site o may not hold a key of a mask.
pub fn is_barred(words: &[u32], z: Counts, o: usize, asked: u32) -> bool
    requires form_with { FormWith words.now z × (o < z.sites) }
    requires asked_bound { asked < 2 ^ z.keys }
    ensures { result ≡ barred z.keys ((store_of words.now).tail.may_hold o)
        (test_bit asked) }
{
    let at = z.may_hold_at(o);
    without(asked, words[at]) != 0
}

// Whether the master lacks a key of T.
pub fn is_lacked(words: &[u32], z: Counts, taken: u32) -> bool
    requires form_with { FormWith words.now z }
    requires taken_bound { taken < 2 ^ z.keys }
    ensures { result ≡ unfetchable (versions z.writers) z.keys
        (store_of words.now).master (test_bit taken) }
{
    let areas = z.areas();
    is_unfetchable(words, z, areas.master, taken)
}

// Whether site o would hold more than it may with T.
pub fn is_over(words: &[u32], z: Counts, o: usize, taken: u32) -> bool
    requires { FormWith words.now z × (o < z.sites) }
    ensures { result ≡ takes_over z ((store_of words.now).site o) taken }
{
    let cache = z.site_at(o);
    let at = z.allowance_at(cache);
    let count = count_with(words, z, cache, taken);
    words[at] < count
}

// Why a fetch at site o that takes T is refused. The site must have the right to each key that is
// asked.
pub fn taking_cause(
    words: &[u32],
    z: Counts,
    o: usize,
    asked: u32,
    taken: u32,
) -> Result<(), Refusal>
    requires form_with { FormWith words.now z × (o < z.sites) }
    requires asked_bound { (asked < 2 ^ z.keys) × (taken < 2 ^ z.keys) }
    ensures { cause_number result
        ≡ takes_cause z (store_of words.now) o asked taken }
{
    let barred = is_barred(words, z, o, asked);
    let lacked = is_lacked(words, z, taken);
    let over = is_over(words, z, o, taken);
    if barred {
        return Err(Refusal::NoRight);
    }
    if lacked {
        return Err(Refusal::NotOnMaster);
    }
    if over {
        return Err(Refusal::OverAllowance);
    }
    Ok(())
}

// The cache of site o takes the master's version of each key in T, and its mark is set. Where T
// is empty nothing is stored: the mark is true already.
pub fn take_keys(words: &mut [u32], z: Counts, o: usize, taken: u32)
    requires { FormWith words.old z × (o < z.sites) }
    ensures { words.new ≡ written (with_cache (store_of words.old) o
        (choice (test_bit taken) (store_of words.old).master
        ((store_of words.old).site o).cache)) words.old }
{
    if taken == 0 {
        return;
    }
    let areas = z.areas();
    let cache = z.site_at(o);
    copy_keys(words, z, cache, areas.master, taken);
    mark_site(words, z, areas.master, cache);
}
