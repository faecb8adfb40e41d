// The call look: the issue number, the leading writers and the own row of a version, read in a
// buffer, and how it stands against the master's.
#![tactic(auto)]

mod row;

ghost use Rattle.std.specs.Prelude.{◌≡◌, ◌≤◌, ◌<◌, length};
ghost use Rattle.std.proofs.Math.Bool.{So};
ghost use Rattle.answers.specs.Answers.{answer_room, Lays};
ghost use Rattle.answers.specs.Refusals.{cause_number};
ghost use Rattle.sizes.specs.Bounds.{Ranged};
ghost use Rattle.model.specs.Outcome.{answer};
ghost use Rattle.model.specs.Calls.Look.{place_kinds, look_limit, look_cause};
ghost use Rattle.model.specs.Calls.{look, ask};
ghost use Rattle.layout.specs.Reading.{counts_in, store_of};
ghost use Rattle.layout.specs.Buffer.{in_form};
ghost use Rattle.layout.specs.Calls.{on, call_on};
ghost use Rattle.form.specs.Parts.{FormWith};
ghost use Rattle.look.specs.Places.{place_at};
ghost use Rattle.look.specs.Answer.{shown, OwnRow, RowIn};

use answers::put_two;
use answers::refusal::Refusal;
use clock::{Standing, compare};
use form::header::counts;
use numbers::{IssueNumber, version_issue};
use row::put_version;
use sizes::Counts;
use version::{held, leaders_of, row_of};

// What a look shows of a version: the issue number, the mask of leading writers, where the own
// row's counts begin and how many they are (the clause `row` of a look speaks of the index), and
// the standing.
#[derive(Clone, Copy)]
pub struct Looked {
    pub issue: IssueNumber,
    pub leaders: u32,
    pub row: usize,
    pub counts: usize,
    pub standing: Standing,
}

// The kinds of places that a look names. They are plain numbers, since the C interface and the
// model's definitions number them.
#[derive(Clone, Copy)]
pub struct PlaceKinds {}

impl PlaceKinds {
    // How many there are.
    pub const COUNT: u32 = 3;

    // It is that of the definitions.
    pub fn counted()
        ensures { PlaceKinds.COUNT ≡ place_kinds }
    {}
}

// How many places of the kind there are.
fn limit(z: Counts, place: u32) -> usize
    ensures { result ≡ look_limit z place }
{
    if place == 0 {
        return 1;
    }
    if place == 1 {
        return z.sites;
    }
    z.runs
}

// Where place i of the kind begins: of a run, the snapshot of branch 0.
fn place_at(z: Counts, place: u32, i: usize) -> usize
    requires ranged { Ranged z }
    requires i_bound { i < look_limit z place }
    ensures { result ≡ place_at z place i }
{
    if place == 0 {
        return z.areas().master;
    }
    if place == 1 {
        return z.site_at(i);
    }
    z.snapshot_on(i, 0)
}

// Why a look is refused.
fn cause(words: &[u32], z: Counts, place: u32, i: usize, k: usize) -> Result<(), Refusal>
    requires { FormWith words.now z }
    ensures { cause_number result ≡ look_cause (store_of words.now) place i k }
{
    if PlaceKinds::COUNT <= place {
        return Err(Refusal::OutOfRange);
    }
    if limit(z, place) <= i {
        return Err(Refusal::OutOfRange);
    }
    if z.keys <= k {
        return Err(Refusal::OutOfRange);
    }
    let at = place_at(z, place, i);
    if !held(words, z, at, k) {
        return Err(Refusal::NotHeld);
    }
    Ok(())
}

// The version of a key in place 0 (the master), 1 (the cache of site `number`) or 2 (the
// snapshot of run `number`), in a buffer that is in form.
pub fn look(words: &[u32], place: u32, number: u32, key: u32) -> Result<Looked, Refusal>
    requires { So (in_form words.now) }
    ensures answers { shown words.now result
        ≡ answer (call_on (on (ask (look place number key))) words.now) }
    ensures row { OwnRow (counts_in words.now) place number key result }
{
    let z = counts(words);
    let i = number as usize;
    let k = key as usize;
    cause(words, z, place, i, k)?;
    let at = place_at(z, place, i);
    let version = z.key_at(at, k);
    let issue = version_issue(words, version);
    let leaders = leaders_of(words, z, at, k);
    let row = row_of(z, at, k, k);
    let own = row_of(z, z.areas().master, k, k);
    let standing = compare(words, row, words, own, z.writers);
    Ok(Looked {
        issue,
        leaders,
        row,
        counts: z.writers,
        standing,
    })
}

// The words of a look at this buffer, laid over an answer slice.
#[tactic(auto, unfolding(crate::specs::Answer::shown, crate::specs::Answer::RowIn))]
pub fn put_looked(answer: &mut [u32], store: &[u32], r: Result<Looked, Refusal>) -> usize
    requires answer_room_in_bounds { answer_room ≤ length answer.old }
    requires row_in { RowIn store.now r }
    ensures { Lays (shown store.now r)
        answer.old answer.new result }
{
    match r {
        Ok(looked) => put_version(answer, store, looked),
        Err(refusal) => put_two(answer, 2, u32::from(refusal)),
    }
}
