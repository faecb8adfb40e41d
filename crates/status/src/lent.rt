// What stands first in a run, lent by `&mut` to those who free it, mark it or break it; and the
// same by value, for callers with plain parameters.
ghost use Rattle.std.specs.Prelude.{◌≡◌};
ghost use Rattle.status.specs.Lent.{freed, marked, spoiled};

use states::BROKEN_STATE;

// A run's state, its number of jobs, and the masks of what is done and read.
#[derive(Clone, Copy)]
pub struct RunStatus {
    pub state: u32,
    pub jobs: u32,
    pub done: u32,
    pub read: u32,
}

// Frees the run: all four are zero.
pub fn free(s: &mut RunStatus)
    ensures { s.new ≡ freed s.old }
{
    s.state = 0;
    s.jobs = 0;
    s.done = 0;
    s.read = 0;
}

// Marks a job done with its reads: the two masks become these.
pub fn mark(s: &mut RunStatus, done: u32, read: u32)
    ensures { s.new ≡ marked s.old done read }
{
    s.done = done;
    s.read = read;
}

// Breaks the run: its state alone changes.
pub fn spoil(s: &mut RunStatus)
    ensures { s.new ≡ spoiled s.old }
{
    s.state = BROKEN_STATE;
}

// A run's status freed.
pub fn freed(s: RunStatus) -> RunStatus
    ensures { result ≡ freed s }
{
    let mut t = s;
    free(&mut t);
    t
}

// A run's status with other masks of what is done and read.
pub fn marked(s: RunStatus, done: u32, read: u32) -> RunStatus
    ensures { result ≡ marked s done read }
{
    let mut t = s;
    mark(&mut t, done, read);
    t
}

// A broken run's status.
pub fn spoiled(s: RunStatus) -> RunStatus
    ensures { result ≡ spoiled s }
{
    let mut t = s;
    spoil(&mut t);
    t
}
