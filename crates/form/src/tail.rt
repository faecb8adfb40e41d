// The tail: the last picked run, and the masks of what sites may hold and writers may save.
ghost use Rattle.std.specs.Prelude.{◌≡◌, ◌+◌, ◌≤◌, length};
ghost use Rattle.sizes.specs.Bounds.{Ranged, tail_at};
ghost use Rattle.model.specs.Form.{rights_formed, tail_formed};
ghost use Rattle.layout.specs.Reading.{read_masks, read_tail_of};
ghost use Rattle.form.specs.Parts.{StoreArea};

use crate::job::is_below;
use sizes::Counts;

// Whether none of the n masks at an index has a bit at K or above.
fn rights_formed(words: &[u32], z: Counts, at: usize, n: usize) -> bool
    requires ranged { Ranged z }
    requires n_in_bounds { at + n ≤ length words.now }
    ensures { result ≡ rights_formed z n (read_masks n words.now at) }
{
    (0..n).all(|i| is_below(words[at + i], z.keys))
}

// Whether the round is below the number of runs, and the masks are of K keys.
pub fn tail_formed(words: &[u32], z: Counts) -> bool
    requires { StoreArea (length words.now) z }
    ensures { result ≡ tail_formed z (read_tail_of z words.now (tail_at z)) }
{
    let at = z.round_at();
    let hold = at + 1;
    let save = hold + z.sites;
    ((words[at] as usize) < z.runs)
        & (rights_formed(words, z, hold, z.sites) & rights_formed(words, z, save, z.writers))
}
