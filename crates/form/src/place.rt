// The versions of a place (master, cache or snapshot) that begins at an index.
ghost use Rattle.std.specs.Prelude.{◌≡◌, ◌≤◌, ◌<◌, length};
ghost use Rattle.clock.specs.Clock.{present};
ghost use Rattle.sizes.specs.Bounds.{max_writers};
ghost use Rattle.model.specs.Form.{zero_rows, leaders_formed, version_formed, place_formed};
ghost use Rattle.layout.specs.Reading.{read_place};
ghost use Rattle.version.specs.Places.{Area};

use crate::job::is_below;
use clock::present;
use sizes::Counts;
use version::{held, leaders_of, row_of};

// Whether row d of the version of key k isn't all zero.
pub fn has_row(words: &[u32], z: Counts, at: usize, k: usize, d: usize) -> bool
    requires area { Area (length words.now) z at }
    requires k_lt_keys { (k < z.keys) × (d < z.keys) }
    ensures { result
        ≡ present z.writers ((read_place z words.now at k).past d) }
{
    let row = row_of(z, at, k, d);
    present(words, row, z.writers)
}

// Whether the version of key k has only zero rows.
pub fn zero_rows(words: &[u32], z: Counts, at: usize, k: usize) -> bool
    requires area { Area (length words.now) z at }
    requires k_lt_keys { k < z.keys }
    ensures { result ≡ zero_rows z (read_place z words.now at k) }
{
    let row = row_of(z, at, k, 0);
    let n = z.past_size();
    !present(words, row, n)
}

// Whether a held version's mask of leading writers is in form, with w writers.
pub fn leaders_formed(mask: u32, w: usize) -> bool
    requires { w ≤ max_writers }
    ensures { result ≡ leaders_formed w mask }
{
    (1 <= mask) & is_below(mask, w)
}

// Whether the version of key k is in form: held with a mask and an own row that aren't zero, or
// all zero.
pub fn version_formed(words: &[u32], z: Counts, at: usize, k: usize) -> bool
    requires area { Area (length words.now) z at }
    requires k_lt_keys { k < z.keys }
    ensures { result ≡ version_formed z k (read_place z words.now at k) }
{
    let leaders = leaders_of(words, z, at, k);
    if held(words, z, at, k) {
        leaders_formed(leaders, z.writers) & has_row(words, z, at, k, k)
    } else {
        (leaders == 0) & zero_rows(words, z, at, k)
    }
}

// Whether every version of the place is in form.
pub fn place_formed(words: &[u32], z: Counts, at: usize) -> bool
    requires { Area (length words.now) z at }
    ensures { result ≡ place_formed z (read_place z words.now at) }
{
    (0..z.keys).all(|k| version_formed(words, z, at, k))
}
