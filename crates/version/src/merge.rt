// Merging, straight into the target's words. Who leads is found before the first word is stored.
ghost use Rattle.std.specs.Prelude.{◌≡◌, ◌+◌, ◌≤◌, ◌<◌, leb, length};
ghost use Rattle.std.proofs.Math.Bool.{So};
ghost use Rattle.masks.specs.Mask.{test_bit, mask_below};
ghost use Rattle.clock.specs.Clock.{clock_at, join};
ghost use Rattle.sizes.specs.Bounds.{max_writers, version_size, place_size, key_at};
ghost use Rattle.model.specs.Version.{leads_on, merged_leaders, larger, merge};
ghost use Rattle.model.specs.Form.{version_formed, place_formed};
ghost use Rattle.layout.specs.Reading.{read_past_of, read_version, read_place};
ghost use Rattle.layout.specs.Stored.{put_version, put_place};
ghost use Rattle.version.specs.Places.{version_of, choice, Areas, Merges, Outside, Own};

use crate::{at_keys, leaders_of, merge_past, row_of};
use clock::count::{WriterCount, count_at};
use masks::{has, mask_of};
use numbers::{IssueNumber, set_version_issue, version_issue};
use sizes::Counts;
use sizes::past::VersionOffset;
use words::copy;

// Whether writer u leads a merge, by the sides' masks and its counts in their own rows.
fn leads_on(m: u32, x: WriterCount, n: u32, y: WriterCount, u: u32) -> bool
    requires { u < 32 }
    ensures { result ≡ leads_on m (λ v. x.0) n (λ v. y.0) u }
{
    let mine = has(m, u);
    let theirs = has(n, u);
    let same = x == y;
    let over = x > y;
    let under = x < y;
    (mine & (theirs & same)) | ((mine & over) | (theirs & under))
}

// The writers that lead a merge by the sides' masks m and n, and their own rows at p and q.
fn named(words: &[u32], w: usize, m: u32, p: usize, n: u32, q: usize) -> u32
    requires { (w ≤ max_writers) × (p + w ≤ length words.now) × (q + w ≤ length words.now) }
    ensures { result ≡ mask_below w
        (leads_on m (clock_at words.now p) n (clock_at words.now q)) }
{
    mask_of(w, |u| {
        let x = count_at(words, p + u as usize);
        let y = count_at(words, q + u as usize);
        leads_on(m, x, n, y, u)
    })
}

// The writers with a count in one of the rows at p and q.
fn present_writers(words: &[u32], w: usize, p: usize, q: usize) -> u32
    requires { (w ≤ max_writers) × (p + w ≤ length words.now) × (q + w ≤ length words.now) }
    ensures { result ≡ mask_below w (λ u. leb 1
        (join (clock_at words.now p) (clock_at words.now q) u)) }
{
    mask_of(w, |u| {
        let x = count_at(words, p + u as usize);
        let y = count_at(words, q + u as usize);
        x.is_present() | y.is_present()
    })
}

// The leading writers of a merge: of masks m and n, and own rows at p and q.
pub(crate) fn merged_leaders(words: &[u32], w: usize, m: u32, p: usize, n: u32, q: usize) -> u32
    requires { (w ≤ max_writers) × (p + w ≤ length words.now) × (q + w ≤ length words.now) }
    ensures { result ≡ merged_leaders w m (clock_at words.now p) n
        (clock_at words.now q) }
{
    let leading = named(words, w, m, p, n, q);
    if leading == 0 {
        return present_writers(words, w, p, q);
    }
    leading
}

// Stores a version at dst: an issue number, a mask of leading writers, and the past at an index.
fn put_version(
    words: &mut [u32],
    z: Counts,
    dst: usize,
    number: IssueNumber,
    leaders: u32,
    past: usize,
)
    requires { Merges (length words.old) z dst past }
    ensures { words.new ≡ put_version z words.old dst
        (version_of number.0 leaders (read_past_of z words.old past)) }
{
    set_version_issue(words, dst, number);
    words[dst + VersionOffset::LEADERS] = leaders;
    let own = z.row_at(dst, 0);
    let n = z.past_size();
    copy(words, own, past, n);
}

// Merges a held version into the held one of key k at dst.
fn merge_held(
    words: &mut [u32],
    z: Counts,
    k: usize,
    dst: usize,
    number: IssueNumber,
    leaders: u32,
    past: usize,
)
    requires { Merges (length words.old) z dst past × (k < z.keys) }
    ensures { words.new ≡ put_version z words.old dst
        (larger z.writers k (read_version z words.old dst)
        (version_of number.0 leaders (read_past_of z words.old past))) }
{
    let own = z.row_at(dst, k);
    let other = z.past_row_at(past, k);
    let mine = words[dst + VersionOffset::LEADERS];
    let leading = merged_leaders(words, z.writers, mine, own, leaders, other);
    let old = version_issue(words, dst);
    let new = old.max(number);
    set_version_issue(words, dst, new);
    words[dst + VersionOffset::LEADERS] = leading;
    let first = z.row_at(dst, 0);
    merge_past(words, z, first, past);
}

// Merges a version into the one of key k at dst: an issue number, a mask of leading writers, and
// the past at an index. No other word changes, and none at all where it is the target's own
// version and in form.
pub fn merge_version(
    words: &mut [u32],
    z: Counts,
    k: usize,
    dst: usize,
    number: IssueNumber,
    leaders: u32,
    past: usize,
)
    requires { Merges (length words.old) z dst past × (k < z.keys) }
    ensures merges { words.new ≡ put_version z words.old dst
        (merge z.writers k (read_version z words.old dst)
        (version_of number.0 leaders (read_past_of z words.old past))) }
    ensures frame { Outside words.old words.new dst (version_size z) }
    ensures same { Own words.old dst number.0 leaders past
        → So (version_formed z k (read_version z words.old dst))
        → words.new ≡ words.old }
{
    let old = version_issue(words, dst);
    if !old.is_held() {
        put_version(words, z, dst, number, leaders, past);
        return;
    }
    if number.is_held() {
        merge_held(words, z, k, dst, number, leaders, past);
    }
}

// Merges key k of the place at src into the place at dst.
fn merge_key(words: &mut [u32], z: Counts, dst: usize, src: usize, k: usize)
    requires areas { Areas (length words.old) z dst src }
    requires k_lt_keys { k < z.keys }
    ensures { words.new ≡ put_version z words.old (key_at z dst k)
        (merge z.writers k (read_place z words.old dst k)
        (read_place z words.old src k)) }
{
    let d = z.key_at(dst, k);
    let s = z.key_at(src, k);
    let number = version_issue(words, s);
    let leaders = leaders_of(words, z, src, k);
    let past = row_of(z, src, k, 0);
    merge_version(words, z, k, d, number, leaders, past);
}

// Merges the keys of the mask from the place at src into the place at dst. No other word changes,
// and none at all where the two are one place that is in form.
pub fn merge_keys(words: &mut [u32], z: Counts, dst: usize, src: usize, mask: u32)
    requires { Areas (length words.old) z dst src }
    ensures merges { words.new ≡ put_place z words.old dst
        (choice (test_bit mask) (λ k. merge z.writers k (read_place z words.old dst k)
        (read_place z words.old src k)) (read_place z words.old dst)) }
    ensures frame { Outside words.old words.new dst (place_size z) }
    ensures same { dst ≡ src → So (place_formed z (read_place z words.old dst))
        → words.new ≡ words.old }
{
    at_keys(
        words,
        z.keys,
        mask,
        |words, k| merge_key(words, z, dst, src, k),
    );
}
