// What a step would do, found without a store: the cause for which it is refused, or the keys that
// the cache and the snapshot would take. Step acts by it; a call that only asks stops here.
#![tactic(auto)]

pub mod causes;
pub mod jobs;

ghost use Rattle.std.specs.Prelude.{◌≡◌, ◌<◌};
ghost use Rattle.sizes.specs.Bounds.{snapshot_at};
ghost use Rattle.layout.specs.Reading.{store_of};
ghost use Rattle.form.specs.Parts.{FormWith};
ghost use Rattle.trial.specs.Jobs.{UsedRun};
ghost use Rattle.trial.specs.Trials.{visit_of, tried, tried_of};

use answers::refusal::Refusal;
use causes::job_cause;
use fetching::{find_taken, taking_cause};
use jobs::{job_of, plan_keys};
use sets::missing::lacking;
use sets::{View, draw_set};
use sizes::Counts;

// What a step looks at: the job's site, where three places begin, the plan's keys, the job's reads
// (R), and what the branch has read.
#[derive(Clone, Copy)]
pub struct Visit {
    pub site: usize,
    pub master: usize,
    pub cache: usize,
    pub snapshot: usize,
    pub plan: u32,
    pub reads: u32,
    pub read: u32,
}

// What a step would do: the keys that the cache takes (T), and that the snapshot takes (C).
#[derive(Clone, Copy)]
pub struct Trial {
    pub taken: u32,
    pub pulled: u32,
}

// What a step of job j of run r would do on branch n: with that branch's snapshot and read mask.
pub fn try_job(
    words: &[u32],
    z: Counts,
    r: usize,
    j: usize,
    n: usize,
) -> Result<(Visit, Trial), Refusal>
    requires { FormWith words.now z }
    ensures { tried result ≡ tried_of (store_of words.now) r j n (snapshot_at z r n) }
{
    if z.runs <= r {
        return Err(Refusal::OutOfRange);
    }
    try_at(words, z, r, j, n, z.snapshot_on(r, n))
}

// The same, of one of the runs, with where the branch's snapshot stands. T is found once; the site
// must have the right to it and to what the job reads, even from the snapshot; C is found against
// the cache seen through T, as the fetch would leave it.
fn try_at(
    words: &[u32],
    z: Counts,
    r: usize,
    j: usize,
    n: usize,
    snapshot: usize,
) -> Result<(Visit, Trial), Refusal>
    requires form_with { FormWith words.now z × (r < z.runs) }
    requires snapshot_value { snapshot ≡ snapshot_at z r n }
    ensures { tried result ≡ tried_of (store_of words.now) r j n snapshot }
{
    job_cause(words, z, r, j, n)?;
    let visit = visit_of(words, z, r, j, n, snapshot);
    let wanted = lacking(words, z, snapshot, visit.reads);
    let start = lacking(words, z, visit.cache, wanted);
    let taken = find_taken(words, z, visit.site, start);
    taking_cause(words, z, visit.site, visit.reads | taken, taken)?;
    let source = View {
        mask: taken,
        first: visit.master,
        second: visit.cache,
    };
    let pulled = draw_set(words, z, visit.plan, snapshot, source, wanted);
    Ok((visit, Trial { taken, pulled }))
}

// What a step of job j of run r on branch n looks at.
fn visit_of(words: &[u32], z: Counts, r: usize, j: usize, n: usize, snapshot: usize) -> Visit
    requires { UsedRun words.now z r × (j < ((store_of words.now).run r).jobs) }
    ensures { result ≡ visit_of (store_of words.now) r j n snapshot }
{
    let job = job_of(words, z, r, j);
    let plan = plan_keys(words, z, r);
    let areas = z.areas();
    let site = job.site as usize;
    let cache = z.site_at(site);
    let read = z.read_on(r, n);
    Visit {
        site,
        master: areas.master,
        cache,
        snapshot,
        plan,
        reads: job.reads,
        read: words[read],
    }
}
