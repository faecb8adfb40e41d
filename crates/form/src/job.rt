// The jobs of a run: one job as three numbers, and 8 jobs of three words from an index on.
ghost use Rattle.std.specs.Prelude.{◌≡◌, ◌+◌, ◌^◌, ◌≤◌, ◌<◌, ltb, length};
ghost use Rattle.words.specs.Tests.{all_below};
ghost use Rattle.sizes.specs.Bounds.{Ranged, max_keys};
ghost use Rattle.sizes.specs.Runs.{max_jobs, plan_size};
ghost use Rattle.model.specs.Form.{valid_job, zero_job};
ghost use Rattle.layout.specs.Reading.{read_jobs};
ghost use Rattle.form.specs.Parts.{job_of, job_formed, reads_of};

use masks::{has, mask_if};
use sizes::run::JobOffset;
use sizes::{Counts, Sizes, job_at};

// Whether a mask has only items below n. The power is one of 64 bits: n may be 32.
pub fn is_below(mask: u32, n: usize) -> bool
    requires { n ≤ max_keys }
    ensures { result ≡ ltb mask (2 ^ n) }
{
    (mask as usize) < (1 << n)
}

// Whether the job is valid as job i.
pub fn valid_job(z: Counts, i: usize, site: u32, reads: u32, upstream: u32) -> bool
    requires ranged { Ranged z }
    requires i_le_max_jobs { i ≤ max_jobs }
    ensures { result ≡ valid_job z i (job_of site reads upstream) }
{
    ((site as usize) < z.sites) & (is_below(reads, z.keys) & is_below(upstream, i))
}

// Whether the job has no words.
pub fn zero_job(site: u32, reads: u32, upstream: u32) -> bool
    ensures { result ≡ zero_job (job_of site reads upstream) }
{
    (site == 0) & ((reads == 0) & (upstream == 0))
}

// Whether job i of the jobs at an index is in form, in a run of n jobs.
pub fn job_formed(words: &[u32], z: Counts, at: usize, n: usize, i: usize) -> bool
    requires ranged { Ranged z }
    requires plan_size_in_bounds { (at + plan_size ≤ length words.now) × (i < max_jobs) }
    ensures { result ≡ job_formed z n i (read_jobs words.now at i) }
{
    let job = job_at(at, i);
    let site = words[job];
    let reads = words[job + JobOffset::READS];
    let upstream = words[job + JobOffset::UPSTREAM];
    if i < n {
        valid_job(z, i, site, reads, upstream)
    } else {
        zero_job(site, reads, upstream)
    }
}

// Whether each of the 8 jobs at an index is in form, in a run of n jobs.
pub fn each_job(words: &[u32], z: Counts, at: usize, n: usize) -> bool
    requires ranged { Ranged z }
    requires plan_size_in_bounds { at + plan_size ≤ length words.now }
    ensures { result ≡ all_below max_jobs
        (λ i. job_formed z n i (read_jobs words.now at i)) }
{
    (0..Sizes::MAX_JOBS).all(|i| job_formed(words, z, at, n, i))
}

// What the jobs of a mask read, of the first n jobs at an index.
pub fn reads_of(words: &[u32], at: usize, n: u32, mask: u32) -> u32
    requires { (at + plan_size ≤ length words.now) × (n ≤ max_jobs) }
    ensures { result ≡ reads_of n (read_jobs words.now at) mask }
{
    let mut all = 0;
    for j in 0..n {
        let job = job_at(at, j as usize);
        all |= mask_if(has(mask, j), words[job + JobOffset::READS]);
    }
    all
}
