// The counts of a store, their limits, and the offsets and total that follow from them.
#![tactic(auto)]

pub mod header;
pub mod past;
pub mod run;
pub mod tail;

ghost use Rattle.std.specs.Prelude.{◌≡◌, ◌+◌, ◌*◌, ◌<◌, ◌^◌};
ghost use Rattle.sizes.specs.Bounds.{between, ranged, Ranged, counts_of, sizes_of, max_keys, max_writers, max_sites, max_runs_of, place_limit, version_limit, site_rest, past_size, version_size, place_size, site_size, writer_size, run_size, site_at, stale_at, allowance_at, writer_at, run_at_of, key_at, past_row_at};
ghost use Rattle.sizes.specs.Runs.{max_jobs, every_job, job_size, job_at_of};

use header::HeaderOffset;
use past::{VersionOffset, WriterOffset};
use run::RunOffset;

// Sheets, writers, offices and runs (document 01: K, W, N, P).
#[derive(Clone, Copy)]
pub struct Counts {
    pub keys: usize,
    pub writers: usize,
    pub sites: usize,
    pub runs: usize,
}

// Where each area begins, and how many words there are. Behind the runs stands the tail.
#[derive(Clone, Copy)]
pub struct Sizes {
    pub master: usize,
    pub sites: usize,
    pub writers: usize,
    pub runs: usize,
    pub tail: usize,
    pub total: usize,
}

impl Sizes {
    pub const MAX_KEYS: usize = 32;

    pub const MAX_WRITERS: usize = 16;

    pub const MAX_SITES: usize = 8;

    pub const MAX_RUNS: usize = 8;

    pub const MAX_JOBS: usize = 8;

    // The mask of every job.
    pub const EVERY_JOB: u32 = 255;

    pub const JOB_SIZE: usize = 3;

    // The words of a site behind its cache.
    pub const SITE_REST: usize = 2;

    // Offsets and total from four counts. The tail: the round, a mask for each site and writer.
    pub fn of(keys: usize, writers: usize, sites: usize, runs: usize) -> Sizes
        requires { Ranged (counts_of keys writers sites runs) }
        ensures { result ≡ sizes_of (counts_of keys writers sites runs) }
    {
        let past = keys * writers;
        let place = keys * (VersionOffset::PAST + past);
        let sites_at = HeaderOffset::SIZE + place;
        let writers_at = sites_at + sites * (place + Sizes::SITE_REST);
        let runs_at = writers_at + writers * (WriterOffset::PAST + past);
        let run = RunOffset::SNAPSHOT + place + (RunOffset::SECOND + place);
        let tail = runs_at + runs * run;
        Sizes {
            master: HeaderOffset::SIZE,
            sites: sites_at,
            writers: writers_at,
            runs: runs_at,
            tail,
            total: tail + (1 + (sites + writers)),
        }
    }

    // The constants above are those of the definitions.
    pub fn limits()
        ensures keys { Sizes.MAX_KEYS ≡ max_keys }
        ensures writers { Sizes.MAX_WRITERS ≡ max_writers }
        ensures sites { Sizes.MAX_SITES ≡ max_sites }
        ensures runs { Sizes.MAX_RUNS ≡ max_runs_of }
        ensures jobs { Sizes.MAX_JOBS ≡ max_jobs }
        ensures every { Sizes.EVERY_JOB ≡ every_job }
        ensures job { Sizes.JOB_SIZE ≡ job_size }
        ensures rest { Sizes.SITE_REST ≡ site_rest }
    {}
}

// Whether a count is 1 to top.
pub fn is_between(x: usize, top: usize) -> bool
    ensures { result ≡ between top x }
{
    (1..=top).contains(&x)
}

// Where part i begins, of parts of one size from an index on.
fn nth(first: usize, size: usize, i: usize) -> usize
    requires { first + i * size < 2 ^ 62 }
    ensures { result ≡ first + i * size }
{
    first + i * size
}

// Where job i begins in the jobs at an index.
pub fn job_at(at: usize, i: usize) -> usize
    requires { (at < 2 ^ 62) × (i < max_jobs) }
    ensures { result ≡ job_at_of at i }
{
    at + i * Sizes::JOB_SIZE
}

impl Counts {
    // Whether the four counts are in range.
    pub fn is_ranged(self) -> bool
        ensures { result ≡ ranged self }
    {
        is_between(self.keys, Sizes::MAX_KEYS)
            & (is_between(self.writers, Sizes::MAX_WRITERS)
                & (is_between(self.sites, Sizes::MAX_SITES)
                    & is_between(self.runs, Sizes::MAX_RUNS)))
    }

    // Where each area begins, and the total.
    pub fn areas(self) -> Sizes
        requires { Ranged self }
        ensures { result ≡ sizes_of self }
    {
        Sizes::of(self.keys, self.writers, self.sites, self.runs)
    }

    // How many words a past, a version, a place, a site, a writer and a run have.
    pub fn past_size(self) -> usize
        requires { Ranged self }
        ensures { result ≡ past_size self }
    {
        self.keys * self.writers
    }

    pub fn version_size(self) -> usize
        requires { Ranged self }
        ensures { result ≡ version_size self }
    {
        VersionOffset::PAST + self.past_size()
    }

    pub fn place_size(self) -> usize
        requires { Ranged self }
        ensures { result ≡ place_size self }
    {
        let v = self.version_size();
        self.keys * v
    }

    pub fn site_size(self) -> usize
        requires { Ranged self }
        ensures { result ≡ site_size self }
    {
        self.place_size() + Sizes::SITE_REST
    }

    pub fn writer_size(self) -> usize
        requires { Ranged self }
        ensures { result ≡ writer_size self }
    {
        WriterOffset::PAST + self.past_size()
    }

    pub fn run_size(self) -> usize
        requires { Ranged self }
        ensures { result ≡ run_size self }
    {
        let place = self.place_size();
        RunOffset::SNAPSHOT + place + (RunOffset::SECOND + place)
    }

    // Where site o, writer u and run r begin.
    pub fn site_at(self, o: usize) -> usize
        requires ranged { Ranged self }
        requires o_lt_sites { o < self.sites }
        ensures { result ≡ site_at self o }
    {
        let areas = self.areas();
        nth(areas.sites, self.site_size(), o)
    }

    pub fn writer_at(self, u: usize) -> usize
        requires ranged { Ranged self }
        requires u_lt_writers { u < self.writers }
        ensures { result ≡ writer_at self u }
    {
        let areas = self.areas();
        nth(areas.writers, self.writer_size(), u)
    }

    pub fn run_at(self, r: usize) -> usize
        requires ranged { Ranged self }
        requires r_lt_runs { r < self.runs }
        ensures { result ≡ run_at_of self r }
    {
        let areas = self.areas();
        nth(areas.runs, self.run_size(), r)
    }

    // Where the stale mark stands of the site at an index.
    pub fn stale_at(self, at: usize) -> usize
        requires ranged { Ranged self }
        requires at_lt_place_limit { at < place_limit }
        ensures { result ≡ stale_at self at }
    {
        at + self.place_size()
    }

    // Where its allowance stands, behind the mark.
    pub fn allowance_at(self, at: usize) -> usize
        requires ranged { Ranged self }
        requires at_lt_place_limit { at < place_limit }
        ensures { result ≡ allowance_at self at }
    {
        self.stale_at(at) + 1
    }

    // Where the version of key k begins in the place at an index.
    pub fn key_at(self, at: usize, k: usize) -> usize
        requires ranged { Ranged self }
        requires at_lt_place_limit { (at < place_limit) × (k < self.keys) }
        ensures { result ≡ key_at self at k }
    {
        nth(at, self.version_size(), k)
    }

    // Where row d begins in the past at an index.
    pub fn past_row_at(self, at: usize, d: usize) -> usize
        requires ranged { Ranged self }
        requires at_lt_version_limit { (at < version_limit) × (d < self.keys) }
        ensures { result ≡ past_row_at self at d }
    {
        nth(at, self.writers, d)
    }
}
