// Issue: a writer saves keys from a finished run. Causes are all tested before a word is stored.
#![tactic(auto)]

mod marks;
mod past;

ghost use Rattle.std.specs.Prelude.{◌≡◌, ◌||◌, ◌+◌, ◌≤◌, ◌<◌, ◌^◌, eqb, leb};
ghost use Rattle.std.proofs.Math.Bool.{So};
ghost use Rattle.words.specs.Tests.{all_below};
ghost use Rattle.masks.specs.Mask.{test_bit};
ghost use Rattle.answers.specs.Answers.{answered_words};
ghost use Rattle.answers.specs.Refusals.{cause_number};
ghost use Rattle.sizes.specs.Bounds.{Ranged};
ghost use Rattle.sizes.specs.Runs.{max_jobs};
ghost use Rattle.model.specs.Tail.{barred};
ghost use Rattle.model.specs.Store.{forked_mark};
ghost use Rattle.model.specs.Outcome.{answer};
ghost use Rattle.model.specs.Issue.{raise_cause, issue_cause, issued_number, issued_store};
ghost use Rattle.model.specs.Calls.{issue};
ghost use Rattle.layout.specs.Reading.{store_of};
ghost use Rattle.layout.specs.Buffer.{written, in_form};
ghost use Rattle.layout.specs.Calls.{on, call_on, leaves};
ghost use Rattle.form.specs.Parts.{FormWith};
ghost use Rattle.issue.specs.Saves.{Savable};

use answers::refusal::Refusal;
use clock::count::count_at;
use form::header::counts;
use form::job::is_below;
use marks::mark_sites;
use masks::{has, without};
use numbers::{IssueNumber, Tally, last_issue, raised, set_last_issue};
use past::{merge_saved, save_writer};
use sizes::Counts;
use sizes::run::RunOffset;
use states::{FORKED_MARK, Row};
use status::{clear_run, run_cause};

// A writer saves the keys of a mask from a run whose jobs are all done, and the run is freed, in a
// buffer that is in form. Answers the issue number, 0 where no key is saved.
pub fn issue(words: &mut [u32], run: u32, writer: u32, mask: u32) -> Result<u32, Refusal>
    requires { So (in_form words.old) }
    ensures answers { answered_words result
        ≡ answer (call_on (on (issue run writer mask)) words.old) }
    ensures leaves { words.new
        ≡ leaves (call_on (on (issue run writer mask)) words.old)
        words.old }
{
    let z = counts(words);
    let r = run as usize;
    let w = writer as usize;
    issue_cause(words, z, r, w, mask)?;
    let number = save(words, z, r, w, mask);
    let freed = z.run_at(r);
    clear_run(words, z, freed);
    let answer = u32::from(number);
    Ok(answer)
}

// Why an issue is refused.
fn issue_cause(words: &[u32], z: Counts, r: usize, w: usize, mask: u32) -> Result<(), Refusal>
    requires { FormWith words.now z }
    ensures { cause_number result ≡ issue_cause (store_of words.now) r w mask }
{
    if out_of_range(z, r, w, mask) {
        return Err(Refusal::OutOfRange);
    }
    run_cause(words, z, Row::Issue, r)?;
    let forked = is_forked(words, z, r);
    let done = jobs_done(words, z, r);
    let barred = is_barred(words, z, w, mask);
    if forked {
        return Err(Refusal::WrongLine);
    }
    if !done {
        return Err(Refusal::WrongTurn);
    }
    if barred {
        return Err(Refusal::NoRight);
    }
    if mask == 0 {
        return Ok(());
    }
    raise_cause(words, z, w)
}

// Whether there is no such run, no such writer, or the mask has an item that isn't a key.
fn out_of_range(z: Counts, r: usize, w: usize, mask: u32) -> bool
    requires { Ranged z }
    ensures { result
        ≡ leb z.runs r || (leb z.writers w || leb (2 ^ z.keys) mask) }
{
    (z.runs <= r) | ((z.writers <= w) | !is_below(mask, z.keys))
}

// Whether run r is forked: an issue works on branch 0, once there is no other.
fn is_forked(words: &[u32], z: Counts, r: usize) -> bool
    requires form_with { FormWith words.now z }
    requires r_lt_runs { r < z.runs }
    ensures { result ≡ eqb ((store_of words.now).run r).mark forked_mark }
{
    let at = z.mark_at(r);
    words[at] == FORKED_MARK
}

// Whether all jobs of run r are done.
fn jobs_done(words: &[u32], z: Counts, r: usize) -> bool
    requires form_with { FormWith words.now z }
    requires r_lt_runs { r < z.runs }
    ensures { result ≡ all_below ((store_of words.now).run r).jobs
        (test_bit ((store_of words.now).run r).done) }
{
    let at = z.run_at(r);
    has_all(words[at + RunOffset::DONE], words[at + RunOffset::JOBS])
}

// Whether each item below n is in the mask.
fn has_all(mask: u32, n: u32) -> bool
    requires { n ≤ max_jobs }
    ensures { result ≡ all_below n (test_bit mask) }
{
    (0..n).all(|j| has(mask, j))
}

// Whether a key of the mask is one that writer w may not save. An empty mask needs no right.
fn is_barred(words: &[u32], z: Counts, w: usize, mask: u32) -> bool
    requires form_with { FormWith words.now z × (w < z.writers) }
    requires mask_bound { mask < 2 ^ z.keys }
    ensures { result
        ≡ barred z.keys ((store_of words.now).tail.may_save w) (test_bit mask) }
{
    let at = z.may_save_at(w);
    without(mask, words[at]) != 0
}

// The last issue number and the count of writer w.
fn numbers_of(words: &[u32], z: Counts, w: usize) -> Tally
    requires form_with { FormWith words.now z }
    requires w_lt_writers { w < z.writers }
    ensures issue { result.issue.0 ≡ (store_of words.now).last }
    ensures count { result.count.0 ≡ ((store_of words.now).writer w).count }
{
    let issue = last_issue(words);
    let at = z.writer_at(w);
    let count = count_at(words, at);
    Tally { issue, count }
}

// Why no key can be saved: the last issue number, or the count of writer w, can't be raised.
fn raise_cause(words: &[u32], z: Counts, w: usize) -> Result<(), Refusal>
    requires form_with { FormWith words.now z }
    requires w_lt_writers { w < z.writers }
    ensures { cause_number result ≡ raise_cause (store_of words.now) w }
{
    let old = numbers_of(words, z, w);
    if old.issue.is_last() {
        return Err(Refusal::IssuesSpent);
    }
    if old.count.is_full() {
        return Err(Refusal::WriterSpent);
    }
    Ok(())
}

// Saves the keys of the mask, if there are any, and answers the issue number.
fn save(words: &mut [u32], z: Counts, r: usize, w: usize, mask: u32) -> IssueNumber
    requires form_with { FormWith words.old z }
    requires savable { Savable (store_of words.old) r w mask }
    ensures answers { result.0 ≡ issued_number (store_of words.old) mask }
    ensures leaves { words.new
        ≡ written (issued_store (store_of words.old) r w mask) words.old }
{
    if 0 < mask {
        return save_keys(words, z, r, w, mask);
    }
    IssueNumber::none()
}

// The read mask of run r.
fn read_mask(words: &[u32], z: Counts, r: usize) -> u32
    requires form_with { FormWith words.now z }
    requires r_lt_runs { r < z.runs }
    ensures { result ≡ ((store_of words.now).run r).branch.read }
{
    let at = z.run_at(r);
    words[at + RunOffset::READ]
}

// The last issue number and the count of writer w, both raised.
fn next_numbers(words: &[u32], z: Counts, w: usize) -> Tally
    requires form_with { FormWith words.now z }
    requires w_lt_writers { (w < z.writers) × (raise_cause (store_of words.now) w ≡ 0) }
    ensures issue { result.issue.0 ≡ (store_of words.now).last + 1 }
    ensures count { result.count.0 ≡ ((store_of words.now).writer w).count + 1 }
{
    let old = numbers_of(words, z, w);
    raised(old.issue, old.count)
}

// Saves the keys of a mask that isn't empty. The rows are all set before the first version is made
// of them, and the marks follow the master.
fn save_keys(words: &mut [u32], z: Counts, r: usize, w: usize, mask: u32) -> IssueNumber
    requires form_with { FormWith words.old z }
    requires savable { Savable (store_of words.old) r w mask × (0 < mask) }
    ensures answers { result.0 ≡ issued_number (store_of words.old) mask }
    ensures leaves { words.new
        ≡ written (issued_store (store_of words.old) r w mask) words.old }
{
    let areas = z.areas();
    let at = z.writer_at(w);
    let snapshot = z.snapshot_at(r);
    let read = read_mask(words, z, r);
    let tally = next_numbers(words, z, w);
    set_last_issue(words, tally.issue);
    save_writer(words, z, at, snapshot, read, w, mask, tally.count);
    merge_saved(words, z, areas.master, at, w, mask, tally.issue);
    mark_sites(words, z, areas.master);
    tally.issue
}
