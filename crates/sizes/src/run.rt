// Where the parts of a run, and of a job, stand: how many words behind its beginning.
ghost use Rattle.std.specs.Prelude.{◌≡◌, ◌<◌};
ghost use Rattle.sizes.specs.Bounds.{Ranged, mark_at, read_at_of, snapshot_at};
ghost use Rattle.sizes.specs.Runs.{jobs_offset, done_offset, read_offset, plan_offset, snapshot_offset, second_read_offset, second_offset, reads_offset, upstream_offset};

use crate::{Counts, Sizes};

// Inside a run, whose state stands first: the number of jobs, the done and the read mask, the plan
// (8 jobs), the snapshot (document 01: the card). SECOND..: behind the mark, the second of both.
#[derive(Clone, Copy)]
pub struct RunOffset {}

// Inside a job, whose site stands first: the masks of its reads and of its upstream jobs.
#[derive(Clone, Copy)]
pub struct JobOffset {}

impl RunOffset {
    pub const JOBS: usize = 1;

    pub const DONE: usize = 2;

    pub const READ: usize = 3;

    pub const PLAN: usize = 4;

    pub const SNAPSHOT: usize = RunOffset::PLAN + Sizes::MAX_JOBS * Sizes::JOB_SIZE;

    pub const SECOND_READ: usize = 1;

    pub const SECOND: usize = 2;

    // They are those of the definitions.
    pub fn offsets()
        ensures jobs { RunOffset.JOBS ≡ jobs_offset }
        ensures done { RunOffset.DONE ≡ done_offset }
        ensures read { RunOffset.READ ≡ read_offset }
        ensures plan { RunOffset.PLAN ≡ plan_offset }
        ensures snapshot { RunOffset.SNAPSHOT ≡ snapshot_offset }
        ensures second_read { RunOffset.SECOND_READ ≡ second_read_offset }
        ensures second { RunOffset.SECOND ≡ second_offset }
    {}
}

impl JobOffset {
    pub const READS: usize = 1;

    pub const UPSTREAM: usize = 2;

    // They are those of the definitions.
    pub fn offsets()
        ensures reads { JobOffset.READS ≡ reads_offset }
        ensures upstream { JobOffset.UPSTREAM ≡ upstream_offset }
    {}
}

impl Counts {
    // Where the snapshot of run r begins, of branch 0.
    pub fn snapshot_at(self, r: usize) -> usize
        requires ranged { Ranged self }
        requires r_lt_runs { r < self.runs }
        ensures { result ≡ snapshot_at self r 0 }
    {
        self.run_at(r) + RunOffset::SNAPSHOT
    }

    // Where the mark of run r stands.
    pub fn mark_at(self, r: usize) -> usize
        requires ranged { Ranged self }
        requires r_lt_runs { r < self.runs }
        ensures { result ≡ mark_at self r }
    {
        self.snapshot_at(r) + self.place_size()
    }

    // Where the read mask of branch n of run r stands.
    pub fn read_on(self, r: usize, n: usize) -> usize
        requires ranged { Ranged self }
        requires r_lt_runs { r < self.runs }
        ensures { result ≡ read_at_of self r n }
    {
        if n == 0 {
            return self.run_at(r) + RunOffset::READ;
        }
        self.mark_at(r) + RunOffset::SECOND_READ
    }

    // Where the snapshot of branch n of run r begins.
    pub fn snapshot_on(self, r: usize, n: usize) -> usize
        requires ranged { Ranged self }
        requires r_lt_runs { r < self.runs }
        ensures { result ≡ snapshot_at self r n }
    {
        if n == 0 {
            return self.snapshot_at(r);
        }
        self.mark_at(r) + RunOffset::SECOND
    }
}
