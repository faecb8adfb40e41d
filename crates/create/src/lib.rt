// The call new: a fresh store written into a buffer of any content.
#![tactic(auto)]

pub mod tail;

ghost use Rattle.std.specs.Prelude.{◌≡◌, ◌≤◌, length};
ghost use Rattle.std.proofs.lemmas.List.Edits.{sets};
ghost use Rattle.sizes.specs.Bounds.{max_total, Ranged, counts_of, sizes_of, total_of};
ghost use Rattle.model.specs.Store.{fresh};
ghost use Rattle.model.specs.Outcome.{answer};
ghost use Rattle.layout.specs.Words.{header_words};
ghost use Rattle.layout.specs.Buffer.{written};
ghost use Rattle.layout.specs.Calls.{new, new_cause, call_on, leaves};
ghost use Rattle.answers.specs.Answers.{answered_words};
ghost use Rattle.answers.specs.Refusals.{cause_number};
ghost use Rattle.create.specs.Room.{Room, allowances_put};

use answers::refusal::Refusal;
use sizes::header::HeaderOffset;
use sizes::{Counts, Sizes};
use tail::store_tail;

// Writes a fresh store, or refuses and leaves every word. Answers the total.
pub fn new(
    words: &mut [u32],
    keys: u32,
    writers: u32,
    sites: u32,
    runs: u32,
) -> Result<u32, Refusal>
    ensures answers { answered_words result
        ≡ answer (call_on (new keys writers sites runs) words.old) }
    ensures leaves { words.new
        ≡ leaves (call_on (new keys writers sites runs) words.old)
        words.old }
{
    let z = counts_of(keys, writers, sites, runs);
    cause(words, z)?;
    let total = store_fresh(words, z);
    Ok(total)
}

// Why new is refused. No size is computed from counts out of range.
fn cause(words: &[u32], z: Counts) -> Result<(), Refusal>
    ensures { cause_number result ≡ new_cause words.now z }
{
    if !z.is_ranged() {
        return Err(Refusal::BadCount);
    }
    let at = sizes_of(z);
    if words.len() < at.total {
        return Err(Refusal::NotInForm);
    }
    Ok(())
}

// Zeros up to the total, then the header, the allowances and the tail. Answers the total.
fn store_fresh(words: &mut [u32], z: Counts) -> u32
    requires { new_cause words.old z ≡ 0 }
    ensures answers { result ≡ total_of z }
    ensures leaves { words.new ≡ written (fresh z) words.old }
{
    let at = sizes_of(z);
    words::zero(words, 0, at.total);
    store_header(words, z, at);
    store_allowances(words, z);
    store_tail(words, z, at);
    narrow(at.total)
}

// The allowance of each site: all keys.
fn store_allowances(words: &mut [u32], z: Counts)
    requires { Ranged z × (total_of z ≤ length words.old) }
    ensures { words.new ≡ allowances_put z z.sites words.old }
{
    let keys = narrow(z.keys);
    for o in 0..z.sites {
        let site = z.site_at(o);
        let at = z.allowance_at(site);
        words[at] = keys;
    }
}

// The header.
fn store_header(words: &mut [u32], z: Counts, at: Sizes)
    requires { Room (length words.old) z at }
    ensures { words.new ≡ sets words.old 0 (header_words z 0) }
{
    words[HeaderOffset::KEYS] = narrow(z.keys);
    words[HeaderOffset::WRITERS] = narrow(z.writers);
    words[HeaderOffset::SITES] = narrow(z.sites);
    words[HeaderOffset::RUNS] = narrow(z.runs);
    words[HeaderOffset::LAST] = 0;
    words[HeaderOffset::MASTER] = narrow(at.master);
    words[HeaderOffset::SITES_AT] = narrow(at.sites);
    words[HeaderOffset::WRITERS_AT] = narrow(at.writers);
    words[HeaderOffset::RUNS_AT] = narrow(at.runs);
    words[HeaderOffset::TOTAL] = narrow(at.total);
}

// Four words as counts.
fn counts_of(keys: u32, writers: u32, sites: u32, runs: u32) -> Counts
    ensures { result ≡ counts_of keys writers sites runs }
{
    Counts {
        keys: keys as usize,
        writers: writers as usize,
        sites: sites as usize,
        runs: runs as usize,
    }
}

// Offsets and total.
fn sizes_of(z: Counts) -> Sizes
    requires { Ranged z }
    ensures { result ≡ sizes_of z }
{
    Sizes::of(z.keys, z.writers, z.sites, z.runs)
}

// A count, an offset or the total as a word.
fn narrow(x: usize) -> u32
    requires { x ≤ max_total }
    ensures { result ≡ x }
{
    x as u32
}
