// The fetches of a prepare, one at each site: what the jobs there read and the cache lacks is
// fetched together. T of every site is found before a word is stored.
ghost use Rattle.std.specs.Prelude.{◌≡◌, ◌<◌};
ghost use Rattle.words.specs.Tests.{any_below};
ghost use Rattle.words.specs.Words.{put};
ghost use Rattle.masks.specs.Mask.{test_bit, mask_below};
ghost use Rattle.model.specs.Version.{versions};
ghost use Rattle.model.specs.Sets.{unfetchable};
ghost use Rattle.model.specs.Tail.{barred};
ghost use Rattle.layout.specs.Reading.{store_of};
ghost use Rattle.layout.specs.Buffer.{written};
ghost use Rattle.form.specs.Parts.{FormWith};
ghost use Rattle.fetching.specs.Takes.{takes_over};
ghost use Rattle.trial.specs.Jobs.{UsedRun};
ghost use Rattle.prepare.specs.Turns.{no_sets, reads_at_of, taken_at_of, set_of_at, SetsOf, Fitting, taken_sites};

use fetching::{find_taken, is_barred, is_lacked, is_over, take_keys};
use masks::mask_if;
use sets::missing::lacking;
use sizes::Counts;
use trial::jobs::{job_count, job_of};

// What the jobs of run r at site o read.
fn reads_at(words: &[u32], z: Counts, r: usize, o: usize) -> u32
    requires { UsedRun words.now z r }
    ensures { result ≡ reads_at_of (store_of words.now) r o }
{
    let mut all = 0;
    for j in 0..job_count(words, z, r) as usize {
        let job = job_of(words, z, r, j);
        all |= mask_if(job.site as usize == o, job.reads);
    }
    all
}

// T of site o: from what the jobs of run r there read and its cache lacks.
fn taken_at(words: &[u32], z: Counts, r: usize, o: usize) -> u32
    requires { UsedRun words.now z r × (o < z.sites) }
    ensures { result ≡ mask_below z.keys (taken_at_of z (store_of words.now) r o) }
{
    let reads = reads_at(words, z, r, o);
    let at = z.site_at(o);
    let start = lacking(words, z, at, reads);
    find_taken(words, z, o, start)
}

// T of each site, for run r: an array for the most sites, since there is no heap.
pub fn site_sets(words: &[u32], z: Counts, r: usize) -> [u32; 8]
    requires { UsedRun words.now z r }
    ensures { result ≡ put no_sets 0 z.sites
        (λ o. mask_below z.keys (taken_at_of z (store_of words.now) r o)) }
{
    let mut sets = [0u32; 8];
    for o in 0..z.sites {
        sets[o] = taken_at(words, z, r, o);
    }
    sets
}

// Whether a site may not hold a key of its T.
pub fn is_unentitled(words: &[u32], z: Counts, sets: &[u32]) -> bool
    requires form_with { FormWith words.now z }
    requires sets_of { SetsOf z sets.now }
    ensures { result ≡ any_below z.sites (λ o. barred z.keys
        ((store_of words.now).tail.may_hold o)
        (test_bit (set_of_at sets.now o))) }
{
    (0..z.sites).any(|o| is_barred(words, z, o, sets[o]))
}

// Whether the master lacks a key of the T of a site.
pub fn is_unpreparable(words: &[u32], z: Counts, sets: &[u32]) -> bool
    requires form_with { FormWith words.now z }
    requires sets_of { SetsOf z sets.now }
    ensures { result ≡ any_below z.sites (λ o. unfetchable (versions z.writers) z.keys
        (store_of words.now).master (test_bit (set_of_at sets.now o))) }
{
    (0..z.sites).any(|o| is_lacked(words, z, sets[o]))
}

// Whether a site would hold more than it may with its T.
pub fn is_crowded(words: &[u32], z: Counts, sets: &[u32]) -> bool
    requires form_with { FormWith words.now z }
    requires sets_of { SetsOf z sets.now }
    ensures { result ≡ any_below z.sites (λ o. takes_over z
        ((store_of words.now).site o) (set_of_at sets.now o)) }
{
    (0..z.sites).any(|o| is_over(words, z, o, sets[o]))
}

// Each site takes its T.
pub fn take_sets(words: &mut [u32], z: Counts, sets: &[u32])
    requires form_with { FormWith words.old z }
    requires fitting { Fitting words.old z sets.now }
    ensures { words.new ≡ written (taken_sites (store_of words.old)
        (set_of_at sets.now) z.sites) words.old }
{
    for o in 0..z.sites {
        take_keys(words, z, o, sets[o]);
    }
}
