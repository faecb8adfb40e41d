// Versions in the words of a buffer: read, copied, cleared, merged.
#![tactic(auto)]

pub mod mark;
pub mod merge;
pub mod moved;

ghost use Rattle.std.specs.Prelude.{◌≡◌, ◌||◌, cond, ℕ, List, ◌+◌, ◌≤◌, ◌<◌, length};
ghost use denote.Ref.{MutBor};
ghost use Rattle.words.specs.Words.{Apart};
ghost use Rattle.words.specs.Numbers.{count_below, fold_below};
ghost use Rattle.masks.specs.Mask.{test_bit, mask_below};
ghost use Rattle.sizes.specs.Bounds.{place_limit, Ranged, past_size, version_size, key_at, row_at};
ghost use Rattle.model.specs.Version.{unheld, held, dependency, supersedes, join_pasts};
ghost use Rattle.layout.specs.Reading.{read_past_of, read_version, read_place};
ghost use Rattle.version.specs.Places.{choice, Area, Areas};
ghost use Rattle.layout.specs.Stored.{put_past, put_version, put_place};

use clock::{compare, covering, merge_into, present};
use masks::{count_items, has, mask_of};
use numbers::version_issue;
use sizes::Counts;
use sizes::past::VersionOffset;
use words::{copy, zero};

// Where row d of key k begins in the place at an index.
pub fn row_of(z: Counts, at: usize, k: usize, d: usize) -> usize
    requires ranged { Ranged z }
    requires at_lt_place_limit { (at < place_limit) × (k < z.keys) × (d < z.keys) }
    ensures { result ≡ row_at z (key_at z at k) d }
{
    let version = z.key_at(at, k);
    z.row_at(version, d)
}

// Whether key k of the place is held.
pub fn held(words: &[u32], z: Counts, at: usize, k: usize) -> bool
    requires area { Area (length words.now) z at }
    requires k_lt_keys { k < z.keys }
    ensures { result ≡ held (read_place z words.now at k) }
{
    let version = z.key_at(at, k);
    let number = version_issue(words, version);
    number.is_held()
}

// The mask of leading writers of key k of the place.
pub fn leaders_of(words: &[u32], z: Counts, at: usize, k: usize) -> u32
    requires area { Area (length words.now) z at }
    requires k_lt_keys { k < z.keys }
    ensures { result ≡ (read_place z words.now at k).leaders }
{
    let version = z.key_at(at, k);
    words[version + VersionOffset::LEADERS]
}

// Whether key k of the place needs key d.
pub fn needs(words: &[u32], z: Counts, at: usize, k: usize, d: usize) -> bool
    requires area { Area (length words.now) z at }
    requires k_lt_keys { (k < z.keys) × (d < z.keys) }
    ensures { result ≡ dependency z.writers k (read_place z words.now at k) d }
{
    if d == k {
        return false;
    }
    let row = row_of(z, at, k, d);
    present(words, row, z.writers)
}

// Whether key d of the target meets the need of d that key t of the source has.
pub fn meets(words: &[u32], z: Counts, target: usize, d: usize, source: usize, t: usize) -> bool
    requires area { Area (length words.now) z target × Area (length words.now) z source }
    requires d_lt_keys { (d < z.keys) × (t < z.keys) }
    ensures { result ≡ supersedes z.writers d (read_place z words.now target d)
        ((read_place z words.now source t).past d) }
{
    if !held(words, z, target, d) {
        return false;
    }
    let own = row_of(z, target, d, d);
    let need = row_of(z, source, t, d);
    covering(compare(words, own, words, need, z.writers))
}

// The mask of the keys that the place holds.
pub fn held_mask(words: &[u32], z: Counts, at: usize) -> u32
    requires { Area (length words.now) z at }
    ensures { result
        ≡ mask_below z.keys (λ k. held (read_place z words.now at k)) }
{
    mask_of(z.keys, |k| held(words, z, at, k as usize))
}

// How many keys the place holds, with those of a mask.
pub fn count_with(words: &[u32], z: Counts, at: usize, more: u32) -> u32
    requires { Area (length words.now) z at }
    ensures { result ≡ count_below z.keys
        (λ k. test_bit more k || held (read_place z words.now at k)) }
{
    let mask = more | held_mask(words, z, at);
    let n = z.keys;
    count_items(mask, n)
}

// Copies the version at src to dst.
pub fn copy_version(words: &mut [u32], z: Counts, dst: usize, src: usize)
    requires ranged { Ranged z }
    requires apart { Apart (length words.old) dst src (version_size z) }
    ensures { words.new ≡ put_version z words.old dst
        (read_version z words.old src) }
{
    let n = z.version_size();
    copy(words, dst, src, n);
}

// Clears the version at an index: it is not held.
pub fn clear_version(words: &mut [u32], z: Counts, at: usize)
    requires ranged { Ranged z }
    requires z_in_bounds { at + version_size z ≤ length words.old }
    ensures { words.new ≡ put_version z words.old at unheld }
{
    let n = z.version_size();
    zero(words, at, n);
}

// Merges the past at an index into the one at another: each count becomes the larger of the two.
pub fn merge_past(words: &mut [u32], z: Counts, to: usize, from: usize)
    requires ranged { Ranged z }
    requires apart { Apart (length words.old) to from (past_size z) }
    ensures { words.new ≡ put_past z words.old to
        (join_pasts (read_past_of z words.old to) (read_past_of z words.old from)) }
{
    let n = z.past_size();
    merge_into(words, to, from, n);
}

// Takes a step for each key below a number that is in the mask, in turn.
pub(crate) fn at_keys<F: Fn(&mut [u32], usize)>(words: &mut [u32], keys: usize, mask: u32, step: F)
    requires keys_le { keys ≤ 32 }
    requires callable { (l : MutBor (List ℕ)) (k : ℕ) → k < keys
        → length l.now ≡ length words.old → F.pre step l k }
    ensures { (f : ℕ → List ℕ → List ℕ) → ((l m : MutBor (List ℕ)) (k : ℕ) → k < keys
        → length l.now ≡ length words.old → F.post step l k tt m → m.now ≡ f k l.now)
        → words.new ≡ fold_below keys (λ k l. cond (test_bit mask k) (f k l) l) words.old }
{
    for k in 0..keys {
        if has(mask, k as u32) {
            step(words, k);
        }
    }
}

// Copies key k of the place at src to the place at dst.
fn copy_key(words: &mut [u32], z: Counts, dst: usize, src: usize, k: usize)
    requires areas { Areas (length words.old) z dst src }
    requires k_lt_keys { k < z.keys }
    ensures { words.new ≡ put_version z words.old (key_at z dst k) (read_place z words.old src k) }
{
    let d = z.key_at(dst, k);
    let s = z.key_at(src, k);
    copy_version(words, z, d, s);
}

// Copies the keys of the mask from the place at src to the place at dst.
pub fn copy_keys(words: &mut [u32], z: Counts, dst: usize, src: usize, mask: u32)
    requires { Areas (length words.old) z dst src }
    ensures { words.new ≡ put_place z words.old dst
        (choice (test_bit mask) (read_place z words.old src)
        (read_place z words.old dst)) }
{
    at_keys(
        words,
        z.keys,
        mask,
        |words, k| copy_key(words, z, dst, src, k),
    );
}

// Clears key k of the place at an index.
fn clear_key(words: &mut [u32], z: Counts, at: usize, k: usize)
    requires area { Area (length words.old) z at }
    requires k_lt_keys { k < z.keys }
    ensures { words.new ≡ put_version z words.old (key_at z at k) unheld }
{
    let version = z.key_at(at, k);
    clear_version(words, z, version);
}

// Clears the keys of the mask.
pub fn clear_keys(words: &mut [u32], z: Counts, at: usize, mask: u32)
    requires { Area (length words.old) z at }
    ensures { words.new ≡ put_place z words.old at
        (choice (test_bit mask) (λ k. unheld) (read_place z words.old at)) }
{
    at_keys(words, z.keys, mask, |words, k| clear_key(words, z, at, k));
}
