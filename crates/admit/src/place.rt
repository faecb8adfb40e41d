// What admission asks of one place (master, cache or snapshot) that begins at an index.
ghost use Rattle.std.specs.Prelude.{◌≡◌, ◌&&◌, ◌<◌, length};
ghost use Rattle.words.specs.Tests.{all_below};
ghost use Rattle.masks.specs.Mask.{test_bit};
ghost use Rattle.model.specs.Algebra.{implies, needs_met};
ghost use Rattle.model.specs.Version.{held, dependency, supersedes, versions};
ghost use Rattle.layout.specs.Reading.{read_past_of, read_place};
ghost use Rattle.version.specs.Places.{Area};
ghost use Rattle.admit.specs.Parts.{PastArea, past_covered, rows_covered, numbers_within, place_taken};

use clock::{compare, covering};
use masks::has;
use numbers::{IssueNumber, version_issue};
use sizes::Counts;
use sizes::past::VersionOffset;
use version::{held, meets, needs, row_of};

// Whether the master's own rows cover those of the past at an index.
pub fn past_covered(words: &[u32], z: Counts, master: usize, past: usize) -> bool
    requires { Area (length words.now) z master × PastArea (length words.now) z past }
    ensures { result ≡ past_covered z (read_place z words.now master)
        (read_past_of z words.now past) }
{
    (0..z.keys).all(|d| {
        let own = row_of(z, master, d, d);
        let row = z.past_row_at(past, d);
        covering(compare(words, own, words, row, z.writers))
    })
}

// Whether the master's own rows cover those of every version of the place.
fn rows_covered(words: &[u32], z: Counts, master: usize, at: usize) -> bool
    requires { Area (length words.now) z master × Area (length words.now) z at }
    ensures { result ≡ rows_covered z (read_place z words.now master)
        (read_place z words.now at) }
{
    (0..z.keys).all(|k| past_covered(words, z, master, z.key_at(at, k) + VersionOffset::PAST))
}

// Whether no issue number of the place is above the last.
fn numbers_within(words: &[u32], z: Counts, at: usize, last: IssueNumber) -> bool
    requires { Area (length words.now) z at }
    ensures { result ≡ numbers_within z last.0 (read_place z words.now at) }
{
    (0..z.keys).all(|k| version_issue(words, z.key_at(at, k)) <= last)
}

// Whether a need of key k for key d, if there is one among the keys of a mask, is met.
fn need_met(words: &[u32], z: Counts, at: usize, scope: u32, k: usize, d: usize) -> bool
    requires area { Area (length words.now) z at }
    requires k_lt_keys { (k < z.keys) × (d < z.keys) }
    ensures { result ≡ implies
        (test_bit scope d
        && dependency z.writers k (read_place z words.now at k) d)
        (supersedes z.writers d (read_place z words.now at d)
        ((read_place z words.now at k).past d)) }
{
    !(has(scope, d as u32) & needs(words, z, at, k, d)) || meets(words, z, at, d, at, k)
}

// Whether the needs of key k among the keys of a mask are met, if it is held and one of them.
fn key_met(words: &[u32], z: Counts, at: usize, scope: u32, k: usize) -> bool
    requires area { Area (length words.now) z at }
    requires k_lt_keys { k < z.keys }
    ensures { result ≡ implies
        (test_bit scope k && held (read_place z words.now at k))
        (all_below z.keys (λ d. implies
        (test_bit scope d
        && dependency z.writers k (read_place z words.now at k) d)
        (supersedes z.writers d (read_place z words.now at d)
        ((read_place z words.now at k).past d)))) }
{
    !(has(scope, k as u32) & held(words, z, at, k))
        || (0..z.keys).all(|d| need_met(words, z, at, scope, k, d))
}

// Whether every need among the keys of a mask is met in the place.
fn needs_met(words: &[u32], z: Counts, at: usize, scope: u32) -> bool
    requires { Area (length words.now) z at }
    ensures { result ≡ needs_met (versions z.writers) z.keys (test_bit scope)
        (read_place z words.now at) }
{
    (0..z.keys).all(|k| key_met(words, z, at, scope, k))
}

// All that is asked of the place, with a mask of the keys whose needs it has to meet.
pub fn place_taken(
    words: &[u32],
    z: Counts,
    master: usize,
    last: IssueNumber,
    scope: u32,
    at: usize,
) -> bool
    requires { Area (length words.now) z master × Area (length words.now) z at }
    ensures { result ≡ place_taken z (read_place z words.now master) last.0
        (test_bit scope) (read_place z words.now at) }
{
    rows_covered(words, z, master, at)
        & (numbers_within(words, z, at, last) & needs_met(words, z, at, scope))
}
