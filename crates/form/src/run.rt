// A run that begins at an index: state, number of jobs, done mask, read mask, 8 jobs of
// three words, the snapshot: its front. Behind it the mark, a second read mask and snapshot.
ghost use Rattle.std.specs.Prelude.{◌≡◌, not, ◌&&◌, ◌<◌, ◌^◌, length};
ghost use Rattle.std.proofs.Math.Bool.{So};
ghost use Rattle.words.specs.Tests.{all_below};
ghost use Rattle.sizes.specs.Bounds.{Ranged, run_front};
ghost use Rattle.model.specs.Version.{held};
ghost use Rattle.model.specs.Form.{zero_version, zero_branch, free_formed, jobs_formed, masks_formed, mark_formed, snapshot_formed, branches_formed, run_formed};
ghost use Rattle.layout.specs.Reading.{read_word_of, read_place, read_run};
ghost use Rattle.version.specs.Places.{Area};
ghost use Rattle.version.specs.Branches.{branch_at};
ghost use Rattle.form.specs.Parts.{RunArea};

use crate::header::word_is;
use crate::job::{each_job, is_below, reads_of};
use crate::place::place_formed;
use clock::present;
use masks::without;
use sizes::run::RunOffset;
use sizes::{Counts, Sizes, is_between};
use states::{BROKEN_STATE, FORKED_MARK, FREE_STATE, JOINED_MARK};
use version::held_mask;

// How many words of a run stand before its mark.
pub fn front_size(z: Counts) -> usize
    requires { Ranged z }
    ensures { result ≡ run_front z }
{
    RunOffset::SNAPSHOT + z.place_size()
}

// Whether the run has 1 to 8 jobs, each in form.
#[tactic(auto, unfolding(sizes::specs::Bounds::run_size))]
pub fn jobs_formed(words: &[u32], z: Counts, at: usize) -> bool
    requires { RunArea (length words.now) z at }
    ensures { result ≡ jobs_formed z (read_run z words.now at) }
{
    let n = words[at + RunOffset::JOBS] as usize;
    is_between(n, Sizes::MAX_JOBS) & each_job(words, z, at + RunOffset::PLAN, n)
}

// Whether the done mask is one of the run's jobs, and both read masks together just what these
// read.
#[tactic(auto, unfolding(sizes::specs::Bounds::run_size))]
pub fn masks_formed(words: &[u32], z: Counts, at: usize) -> bool
    requires run_area { RunArea (length words.now) z at }
    requires so { So (jobs_formed z (read_run z words.now at)) }
    ensures { result ≡ masks_formed z (read_run z words.now at) }
{
    let front = front_size(z);
    let n = words[at + RunOffset::JOBS];
    let done = words[at + RunOffset::DONE];
    let reads = reads_of(words, at + RunOffset::PLAN, n, done);
    let first = words[at + RunOffset::READ];
    let second = words[at + (front + RunOffset::SECOND_READ)];
    is_below(done, n as usize) & ((first | second) == reads)
}

// Whether of a branch, by the indices of its read mask and snapshot, the snapshot is in form,
// holds only keys of the plan, and each key that was read.
#[tactic(auto, unfolding(sizes::specs::Bounds::run_size))]
pub fn snapshot_formed(words: &[u32], z: Counts, at: usize, read: usize, card: usize) -> bool
    requires run_area { RunArea (length words.now) z at × Area (length words.now) z card }
    requires so { So (jobs_formed z (read_run z words.now at)) }
    requires read_in_bounds { (read < length words.now) ×
        (read_word_of words.now read < 2 ^ z.keys) }
    ensures { result ≡ snapshot_formed z (read_run z words.now at)
        (branch_at z words.now (read_word_of words.now read) card) }
{
    let n = words[at + RunOffset::JOBS];
    let mask = words[read];
    let plan = reads_of(words, at + RunOffset::PLAN, n, Sizes::EVERY_JOB);
    let carried = held_mask(words, z, card);
    place_formed(words, z, card) & ((without(carried, plan) == 0) & (without(mask, carried) == 0))
}

// Whether the place at an index holds nothing and has only zero words, tested as one run of them.
pub fn is_empty(words: &[u32], z: Counts, at: usize) -> bool
    requires { Area (length words.now) z at }
    ensures { result ≡ all_below z.keys (λ k.
        not (held (read_place z words.now at k))
        && zero_version z (read_place z words.now at k)) }
{
    let n = z.place_size();
    !present(words, at, n)
}

// Whether a branch, by the indices of its read mask and snapshot, is zero.
pub fn is_vacant(words: &[u32], z: Counts, read: usize, card: usize) -> bool
    requires area { Area (length words.now) z card }
    requires read_in_bounds { read < length words.now }
    ensures { result ≡ zero_branch z
        (branch_at z words.now (read_word_of words.now read) card) }
{
    word_is(words, read, 0) & is_empty(words, z, card)
}

// Whether the mark is 0, 1 or 2, and the second branch in form: zero unless the run is forked.
#[tactic(auto, unfolding(sizes::specs::Bounds::run_size))]
pub fn second_formed(words: &[u32], z: Counts, at: usize) -> bool
    requires run_area { RunArea (length words.now) z at }
    requires so { So (jobs_formed z (read_run z words.now at)) }
    requires so_2 { So (masks_formed z (read_run z words.now at)) }
    ensures { result ≡ (mark_formed z (read_run z words.now at)
        && snapshot_formed z (read_run z words.now at)
        (read_run z words.now at).second) }
{
    let front = front_size(z);
    let read = at + (front + RunOffset::SECOND_READ);
    let card = at + (front + RunOffset::SECOND);
    let mark = words[at + front];
    if mark == FORKED_MARK {
        return snapshot_formed(words, z, at, read, card);
    }
    (mark <= JOINED_MARK) & is_vacant(words, z, read, card)
}

// Whether jobs, masks, mark and branches are in form. Jobs are tested first, then the masks; the
// rest only if these are in form.
#[tactic(auto, unfolding(sizes::specs::Bounds::run_size))]
pub fn plan_formed(words: &[u32], z: Counts, at: usize) -> bool
    requires { RunArea (length words.now) z at }
    ensures { result ≡ (jobs_formed z (read_run z words.now at)
        && (masks_formed z (read_run z words.now at)
        && (mark_formed z (read_run z words.now at)
        && branches_formed z (read_run z words.now at)))) }
{
    if !jobs_formed(words, z, at) {
        return false;
    }
    if !masks_formed(words, z, at) {
        return false;
    }
    snapshot_formed(words, z, at, at + RunOffset::READ, at + RunOffset::SNAPSHOT)
        & second_formed(words, z, at)
}

// Whether a free run is all zero.
#[tactic(auto, unfolding(sizes::specs::Bounds::run_size))]
pub fn free_formed(words: &[u32], z: Counts, at: usize) -> bool
    requires { RunArea (length words.now) z at }
    ensures { result ≡ free_formed z (read_run z words.now at) }
{
    let front = front_size(z);
    let read = at + (front + RunOffset::SECOND_READ);
    let card = at + (front + RunOffset::SECOND);
    word_is(words, at + RunOffset::JOBS, 0)
        & (word_is(words, at + RunOffset::DONE, 0)
            & (each_job(words, z, at + RunOffset::PLAN, 0)
                & (is_vacant(words, z, at + RunOffset::READ, at + RunOffset::SNAPSHOT)
                    & (word_is(words, at + front, 0) & is_vacant(words, z, read, card)))))
}

// Whether the run is in form.
#[tactic(auto, unfolding(sizes::specs::Bounds::run_size))]
pub fn run_formed(words: &[u32], z: Counts, at: usize) -> bool
    requires { RunArea (length words.now) z at }
    ensures { result ≡ run_formed z (read_run z words.now at) }
{
    let state = words[at];
    if state == FREE_STATE {
        free_formed(words, z, at)
    } else {
        (state <= BROKEN_STATE) & plan_formed(words, z, at)
    }
}
