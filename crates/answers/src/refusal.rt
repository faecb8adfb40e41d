// Why a call is refused.
ghost use Rattle.std.specs.Prelude.{◌≡◌};
ghost use Rattle.answers.specs.Refusals.{refusal_number};

// The causes in the order of their numbers, the first of which is 1.
#[derive(Clone, Copy, PartialEq, Eq, Debug)]
pub enum Refusal {
    // The buffer, the scratch or the answer's slice is too short, or the store isn't in form.
    NotInForm = 1,
    // A count of new is out of range.
    BadCount = 2,
    // A site, key, writer, run, place, job or mask is out of range.
    OutOfRange = 3,
    // The run isn't in a state that the call needs.
    WrongState = 4,
    // There is no job, there are over 8, or one isn't valid.
    BadJobs = 5,
    // A job is done already, or one that must be done isn't.
    WrongTurn = 6,
    // The master doesn't hold a key that would be fetched.
    NotOnMaster = 7,
    // The key isn't held there.
    NotHeld = 8,
    // There is no further issue number.
    IssuesSpent = 9,
    // The writer can make no further issue.
    WriterSpent = 10,
    // The store is in form, but none that the calls can have left.
    NotAdmitted = 11,
    // A cache would hold more keys than its allowance.
    OverAllowance = 12,
    // The site may not hold a key, or the writer not save it.
    NoRight = 13,
    // The run is forked, or isn't, or has no such branch.
    WrongLine = 14,
    // The words are no record of issues that can be read.
    NotReadable = 15,
}

impl From<Refusal> for u32 {
    // The number of a cause.
    fn from(refusal: Refusal) -> u32
        ensures { result ≡ refusal_number refusal }
    {
        refusal as u32
    }
}
