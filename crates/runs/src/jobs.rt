// The list of jobs that open is given: three words for each job.
ghost use Rattle.std.specs.Prelude.{◌≡◌, ◌+◌, ◌*◌, ◌≤◌, length};
ghost use Rattle.words.specs.Tests.{all_below};
ghost use Rattle.sizes.specs.Bounds.{Ranged};
ghost use Rattle.sizes.specs.Runs.{max_jobs, job_size, plan_size, snapshot_offset};
ghost use Rattle.model.specs.Form.{valid_job};
ghost use Rattle.model.specs.Runs.{listed_job, listed_count, list_valid};
ghost use Rattle.runs.specs.Runs.{put_jobs};

use form::job::valid_job;
use sizes::run::{JobOffset, RunOffset};
use sizes::{Counts, Sizes, is_between};
use states::OPEN_STATE;
use words::copy_from;

// Whether each of the first n jobs of the list is valid.
pub fn each_valid(z: Counts, jobs: &[u32], n: usize) -> bool
    requires ranged { Ranged z }
    requires n_le_max_jobs { (n ≤ max_jobs) × (n * job_size ≤ length jobs.now) }
    ensures { result ≡ all_below n (λ i. valid_job z i (listed_job jobs.now i)) }
{
    (0..n).all(|i| {
        let at = i * Sizes::JOB_SIZE;
        valid_job(
            z,
            i,
            jobs[at],
            jobs[at + JobOffset::READS],
            jobs[at + JobOffset::UPSTREAM],
        )
    })
}

// Whether the list is one of 1 to 8 valid jobs. It may have any length.
pub fn list_valid(z: Counts, jobs: &[u32]) -> bool
    requires { Ranged z }
    ensures { result ≡ list_valid z jobs.now }
{
    let n = jobs.len() / Sizes::JOB_SIZE;
    if jobs.len() != n * Sizes::JOB_SIZE {
        return false;
    }
    if !is_between(n, Sizes::MAX_JOBS) {
        return false;
    }
    each_valid(z, jobs, n)
}

// Makes the free run at an index an open one with these jobs, and answers their number. The
// other words of the run are zero.
pub fn put_jobs(words: &mut [u32], at: usize, jobs: &[u32]) -> u32
    requires { (at + snapshot_offset ≤ length words.old) × (length jobs.now ≤ plan_size) }
    ensures number { result ≡ listed_count jobs.now }
    ensures stores { words.new
        ≡ put_jobs words.old at jobs.now }
{
    let n = (jobs.len() / Sizes::JOB_SIZE) as u32;
    words[at] = OPEN_STATE;
    words[at + RunOffset::JOBS] = n;
    copy_from(words, at + RunOffset::PLAN, jobs, 0, jobs.len());
    n
}
