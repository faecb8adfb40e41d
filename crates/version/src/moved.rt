// Which versions a merge would leave as they are (CR 10, joining), told without a merge: no word
// is stored.
ghost use Rattle.std.specs.Prelude.{◌≡◌, not, ◌&&◌, ◌||◌, ◌<◌, leb, length};
ghost use Rattle.words.specs.Tests.{all_below};
ghost use Rattle.clock.specs.Clock.{covering, covered, dominates};
ghost use Rattle.model.specs.Stays.{moved_keys, moved_set, leaders_merged, stays_by_of, stays_other_by};
ghost use Rattle.layout.specs.Reading.{read_place};
ghost use Rattle.version.specs.Places.{Area};
ghost use Rattle.version.specs.Branches.{branch_at, ReadHeld};

use crate::merge::merged_leaders;
use crate::{leaders_of, row_of};
use clock::{Standing, compare, covered, covering};
use masks::{has, mask_of};
use numbers::{IssueNumber, version_issue};
use sizes::Counts;

// Of two versions of a key: whether their merge is the first, and whether it is the second.
#[derive(Clone, Copy)]
pub struct Staying {
    pub first: bool,
    pub second: bool,
}

// The issue number of key k of the place.
fn number_of(words: &[u32], z: Counts, at: usize, k: usize) -> IssueNumber
    requires area { Area (length words.now) z at }
    requires k_lt_keys { k < z.keys }
    ensures { result.0 ≡ (read_place z words.now at k).issue }
{
    let version = z.key_at(at, k);
    version_issue(words, version)
}

// The writers that lead the merge of key k of the places at a and b.
fn leading(words: &[u32], z: Counts, a: usize, b: usize, k: usize) -> u32
    requires area { Area (length words.now) z a × Area (length words.now) z b }
    requires k_lt_keys { k < z.keys }
    ensures { result ≡ leaders_merged z.writers k (read_place z words.now a k)
        (read_place z words.now b k) }
{
    let m = leaders_of(words, z, a, k);
    let n = leaders_of(words, z, b, k);
    let p = row_of(z, a, k, k);
    let q = row_of(z, b, k, k);
    merged_leaders(words, z.writers, m, p, n, q)
}

// How the whole past of key k of the place at a stands against that at b: all rows at once.
fn compare_pasts(words: &[u32], z: Counts, a: usize, b: usize, k: usize) -> Standing
    requires area { Area (length words.now) z a × Area (length words.now) z b }
    requires k_lt_keys { k < z.keys }
    ensures covers { covering result ≡ all_below z.keys (λ d. dominates z.writers
        ((read_place z words.now a k).past d)
        ((read_place z words.now b k).past d)) }
    ensures covered { covered result ≡ all_below z.keys (λ d. dominates z.writers
        ((read_place z words.now b k).past d)
        ((read_place z words.now a k).past d)) }
{
    let p = row_of(z, a, k, 0);
    let q = row_of(z, b, k, 0);
    let n = z.past_size();
    compare(words, p, words, q, n)
}

// Whether a version is left as it is by a merge: by its number, the other's, whether the merge has
// its leaders, and whether its past covers the other's.
fn is_kept(number: IssueNumber, other: IssueNumber, leads: bool, covers: bool) -> bool
    ensures { result ≡ not (leb 1 other.0) || (leb other.0 number.0
        && (leads && covers)) }
{
    let unheld = !other.is_held();
    let over = other > number;
    unheld | (!over & (leads & covers))
}

// Whether the merge of key k of the places at a and b would be the version at a, and whether it
// would be the version at b. One comparison answers for both.
pub fn would_stay(words: &[u32], z: Counts, a: usize, b: usize, k: usize) -> Staying
    requires area { Area (length words.now) z a × Area (length words.now) z b }
    requires k_lt_keys { k < z.keys }
    ensures first { result.first ≡ stays_by_of z.writers z.keys k
        (read_place z words.now a k) (read_place z words.now b k) }
    ensures second { result.second ≡ stays_other_by z.writers z.keys k
        (read_place z words.now a k) (read_place z words.now b k) }
{
    let leaders = leading(words, z, a, b, k);
    let standing = compare_pasts(words, z, a, b, k);
    let mine = number_of(words, z, a, k);
    let theirs = number_of(words, z, b, k);
    let m = leaders_of(words, z, a, k);
    let n = leaders_of(words, z, b, k);
    let covers = covering(standing);
    let behind = covered(standing);
    let first = is_kept(mine, theirs, leaders == m, covers);
    let second = is_kept(theirs, mine, leaders == n, behind);
    Staying { first, second }
}

// Whether key k moves: it was read on a line, and the merge is another version than there.
fn has_moved(words: &[u32], z: Counts, a: usize, b: usize, m: u32, n: u32, k: usize) -> bool
    requires area { Area (length words.now) z a × Area (length words.now) z b }
    requires read_held { ReadHeld z (branch_at z words.now m a) × (k < z.keys) }
    ensures { result ≡ moved_keys z (branch_at z words.now m a)
        (branch_at z words.now n b) k }
{
    let here = has(m, k as u32);
    let there = has(n, k as u32);
    if !(here | there) {
        return false;
    }
    let s = would_stay(words, z, a, b, k);
    (here & !s.first) | (there & !s.second)
}

// The mask of the keys that joining two lines moves, of read masks m and n and cards at a and b.
pub fn moved_keys(words: &[u32], z: Counts, a: usize, b: usize, m: u32, n: u32) -> u32
    requires area { Area (length words.now) z a × Area (length words.now) z b }
    requires read_held { ReadHeld z (branch_at z words.now m a) }
    ensures { result ≡ moved_set z (branch_at z words.now m a)
        (branch_at z words.now n b) }
{
    mask_of(z.keys, |k| has_moved(words, z, a, b, m, n, k as usize))
}
