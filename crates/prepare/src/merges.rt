// The snapshot of a run becomes the merge of its jobs' caches, cut down to its plan.
ghost use Rattle.std.specs.Prelude.{◌≡◌, ◌<◌, length};
ghost use Rattle.masks.specs.Mask.{test_bit};
ghost use Rattle.sizes.specs.Bounds.{site_at};
ghost use Rattle.model.specs.Version.{versions};
ghost use Rattle.model.specs.Store.{empty_place};
ghost use Rattle.model.specs.Prepare.{uses_site, sites_merged};
ghost use Rattle.layout.specs.Reading.{read_place, store_of};
ghost use Rattle.layout.specs.Stored.{put_place};
ghost use Rattle.layout.specs.Buffer.{written};
ghost use Rattle.version.specs.Places.{Area, Areas};
ghost use Rattle.trial.specs.Jobs.{UsedRun};
ghost use Rattle.prepare.specs.Turns.{MergeArea, site_merged, merged};

use masks::{has, with_item};
use sizes::Counts;
use trial::jobs::{job_count, job_of, plan_keys};
use version::merge::merge_keys;
use words::zero;

// The sites that a job of run r is at.
pub fn sites_used(words: &[u32], z: Counts, r: usize) -> u32
    requires { UsedRun words.now z r }
    ensures { test_bit result ≡ uses_site ((store_of words.now).run r).jobs
        ((store_of words.now).run r).job }
{
    let mut mask = 0;
    for j in 0..job_count(words, z, r) as usize {
        let job = job_of(words, z, r, j);
        mask = with_item(mask, job.site);
    }
    mask
}

// Clears the place at an index: it holds nothing.
pub fn clear_place(words: &mut [u32], z: Counts, at: usize)
    requires { Area (length words.old) z at }
    ensures { words.new ≡ put_place z words.old at empty_place }
{
    let n = z.place_size();
    zero(words, at, n);
}

// Merges the cache of site o into the snapshot at an index, cut down to a plan, if the site is
// one of a mask.
pub fn merge_site(words: &mut [u32], z: Counts, snapshot: usize, o: usize, sites: u32, plan: u32)
    requires areas { Areas (length words.old) z snapshot (site_at z o) }
    requires o_lt_sites { o < z.sites }
    ensures { words.new ≡ put_place z words.old snapshot
        (site_merged z words.old snapshot o sites plan) }
{
    if has(sites, o as u32) {
        let at = z.site_at(o);
        merge_keys(words, z, snapshot, at, plan);
    }
}

// Merges the caches of the sites of a mask, lowest number first, into the empty snapshot at an
// index, cut down to a plan.
pub fn merge_sites(words: &mut [u32], z: Counts, snapshot: usize, sites: u32, plan: u32)
    requires { MergeArea words.old z snapshot }
    ensures { words.new ≡ put_place z words.old snapshot
        (sites_merged (versions z.writers) z.sites (test_bit sites) (test_bit plan)
        (λ o. read_place z words.old (site_at z o))) }
{
    for o in 0..z.sites {
        merge_site(words, z, snapshot, o, sites, plan);
    }
}

// The snapshot of run r becomes the merge of its jobs' caches, cut down to its plan.
pub fn merge_run(words: &mut [u32], z: Counts, r: usize)
    requires { UsedRun words.old z r }
    ensures { words.new
        ≡ written (merged (store_of words.old) r) words.old }
{
    let sites = sites_used(words, z, r);
    let plan = plan_keys(words, z, r);
    let snapshot = z.snapshot_at(r);
    clear_place(words, z, snapshot);
    merge_sites(words, z, snapshot, sites, plan);
}
