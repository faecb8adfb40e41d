// The stale mark of a site: the keys of its cache that are behind the master.
ghost use Rattle.std.specs.Prelude.{◌≡◌, ◌<◌, length};
ghost use Rattle.model.specs.Marks.{is_stale, stale_mask};
ghost use Rattle.layout.specs.Reading.{read_place};
ghost use Rattle.version.specs.Places.{put_mark, Area, SiteArea};

use crate::{held, row_of};
use clock::{compare, differing};
use masks::mask_of;
use sizes::Counts;

// Whether key k of the cache is held, and its own row isn't equal to the master's.
fn is_stale(words: &[u32], z: Counts, master: usize, cache: usize, k: usize) -> bool
    requires area { Area (length words.now) z master × Area (length words.now) z cache }
    requires k_lt_keys { k < z.keys }
    ensures { result ≡ is_stale z.writers k (read_place z words.now cache k)
        (read_place z words.now master k) }
{
    if !held(words, z, cache, k) {
        return false;
    }
    let own = row_of(z, cache, k, k);
    let current = row_of(z, master, k, k);
    differing(compare(words, own, words, current, z.writers))
}

// The mask of the stale keys of a cache.
pub fn stale_mask(words: &[u32], z: Counts, master: usize, cache: usize) -> u32
    requires { Area (length words.now) z master × Area (length words.now) z cache }
    ensures { result ≡ stale_mask z (read_place z words.now master)
        (read_place z words.now cache) }
{
    mask_of(z.keys, |k| is_stale(words, z, master, cache, k as usize))
}

// Stores the mark of the site at an index, behind its cache.
pub fn mark_site(words: &mut [u32], z: Counts, master: usize, site: usize)
    requires { Area (length words.old) z master × SiteArea (length words.old) z site }
    ensures { words.new ≡ put_mark z words.old master site }
{
    let mask = stale_mask(words, z, master, site);
    let at = z.stale_at(site);
    words[at] = mask;
}
