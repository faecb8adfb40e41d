// Admit: whether a store read back from disk is taken. It writes nothing, and grows no set.
#![tactic(auto)]

mod place;

ghost use Rattle.std.specs.Prelude.{◌≡◌, ◌+◌, ◌≤◌, ◌<◌, length};
ghost use Rattle.std.proofs.Math.Bool.{So};
ghost use Rattle.words.specs.Tests.{all_below};
ghost use Rattle.answers.specs.Answers.{answered_words};
ghost use Rattle.clock.specs.Clock.{clock_at};
ghost use Rattle.model.specs.Outcome.{answer};
ghost use Rattle.model.specs.Calls.Admit.{admissible};
ghost use Rattle.model.specs.Calls.{admit, ask};
ghost use Rattle.layout.specs.Reading.{read_place, store_of};
ghost use Rattle.layout.specs.Buffer.{in_form};
ghost use Rattle.layout.specs.Calls.{on, call_on};
ghost use Rattle.version.specs.Places.{Area};
ghost use Rattle.form.specs.Parts.{StoreArea, FormWith};
ghost use Rattle.admit.specs.Parts.{row_within, own_counts, counts_at, cache_test, run_test, writer_test};

use answers::refusal::Refusal;
use clock::count::count_at;
use form::header::counts;
use form::job::reads_of;
use numbers::{IssueNumber, last_issue};
use place::{past_covered, place_taken};
use sizes::header::HeaderOffset;
use sizes::past::WriterOffset;
use sizes::run::RunOffset;
use sizes::{Counts, Sizes};
use version::row_of;

// The mask of every key.
const EVERY_KEY: u32 = 4294967295;

// Whether no count of the row at an index is above its writer's.
fn row_within(words: &[u32], z: Counts, row: usize) -> bool
    requires store_area { StoreArea (length words.now) z }
    requires writers_in_bounds { row + z.writers ≤ length words.now }
    ensures { result ≡ row_within z (counts_at z words.now)
        (clock_at words.now row) }
{
    (0..z.writers).all(|u| count_at(words, row + u) <= count_at(words, z.writer_at(u)))
}

// Whether no count of the master's own rows is above its writer's.
fn own_counts(words: &[u32], z: Counts, master: usize) -> bool
    requires { StoreArea (length words.now) z × Area (length words.now) z master }
    ensures { result ≡ own_counts z (counts_at z words.now)
        (read_place z words.now master) }
{
    (0..z.keys).all(|d| row_within(words, z, row_of(z, master, d, d)))
}

// Whether every cache is taken.
fn caches_taken(words: &[u32], z: Counts, master: usize, last: IssueNumber) -> bool
    requires { StoreArea (length words.now) z × Area (length words.now) z master }
    ensures { result ≡ all_below z.sites
        (cache_test z words.now master last.0) }
{
    (0..z.sites).all(|o| place_taken(words, z, master, last, EVERY_KEY, z.site_at(o)))
}

// Whether both snapshots of run r are taken, with the keys of its plan.
fn run_taken(words: &[u32], z: Counts, master: usize, last: IssueNumber, r: usize) -> bool
    requires form_with { FormWith words.now z × Area (length words.now) z master }
    requires r_lt_runs { r < z.runs }
    ensures { result ≡ run_test z words.now master last.0 r }
{
    let at = z.run_at(r);
    let jobs = words[at + RunOffset::JOBS];
    let plan = reads_of(words, at + RunOffset::PLAN, jobs, Sizes::EVERY_JOB);
    let first = z.snapshot_on(r, 0);
    let second = z.snapshot_on(r, 1);
    place_taken(words, z, master, last, plan, first)
        & place_taken(words, z, master, last, plan, second)
}

// Whether every snapshot of every run is taken.
fn snapshots_taken(words: &[u32], z: Counts, master: usize, last: IssueNumber) -> bool
    requires { FormWith words.now z × Area (length words.now) z master }
    ensures { result ≡ all_below z.runs
        (run_test z words.now master last.0) }
{
    (0..z.runs).all(|r| run_taken(words, z, master, last, r))
}

// Whether the master's own rows cover those of every writer's past.
fn pasts_covered(words: &[u32], z: Counts, master: usize) -> bool
    requires { StoreArea (length words.now) z × Area (length words.now) z master }
    ensures { result ≡ all_below z.writers
        (writer_test z words.now master) }
{
    (0..z.writers).all(|w| past_covered(words, z, master, z.writer_at(w) + WriterOffset::PAST))
}

// Whether the store is taken. The master's cut isn't tested: it follows, and so do the counts of
// rows other than the master's own (model's `admissible-small`).
fn is_admissible(words: &[u32], z: Counts) -> bool
    requires { FormWith words.now z }
    ensures { result ≡ admissible (store_of words.now) }
{
    let master = HeaderOffset::SIZE;
    let last = last_issue(words);
    place_taken(words, z, master, last, 0, master)
        & (caches_taken(words, z, master, last)
            & (snapshots_taken(words, z, master, last)
                & (pasts_covered(words, z, master) & own_counts(words, z, master))))
}

// Whether a buffer that is in form is admitted. Answers 0.
pub fn admit(words: &[u32]) -> Result<u32, Refusal>
    requires { So (in_form words.now) }
    ensures { answered_words result
        ≡ answer (call_on (on (ask admit)) words.now) }
{
    let z = counts(words);
    if !is_admissible(words, z) {
        return Err(Refusal::NotAdmitted);
    }
    Ok(0)
}
