// A site: its cache, the stale mark and the allowance behind it, and the keys that it may hold.
ghost use Rattle.std.specs.Prelude.{◌≡◌, not, ◌&&◌, leb, length};
ghost use Rattle.model.specs.Version.{held};
ghost use Rattle.model.specs.Tail.{barred};
ghost use Rattle.model.specs.Allowance.{over};
ghost use Rattle.model.specs.Form.{site_formed};
ghost use Rattle.layout.specs.Reading.{read_place, read_site};
ghost use Rattle.version.specs.Places.{Area, SiteArea};

use crate::place::place_formed;
use masks::{count_items, without};
use sizes::Counts;
use version::held_mask;
use version::mark::stale_mask;

// Whether the site at an index holds what it may: an allowance of at most K, no more than that,
// and no key that its mask lacks.
fn holding_formed(words: &[u32], z: Counts, site: usize, right: u32) -> bool
    requires { SiteArea (length words.now) z site }
    ensures { result ≡ leb (read_site z words.now site).allowance z.keys
        && (not (over z (read_site z words.now site)
        (read_place z words.now site))
        && not (barred z.keys right
        (λ k. held (read_place z words.now site k)))) }
{
    let at = z.allowance_at(site);
    let allowance = words[at];
    let kept = held_mask(words, z, site);
    let n = z.keys;
    let count = count_items(kept, n);
    let barred = without(kept, right);
    (allowance as usize <= n) & ((count <= allowance) & (barred == 0))
}

// Whether the site at an index is in form: its cache, a mark that is true, and that it holds what
// it may.
pub fn site_formed(words: &[u32], z: Counts, master: usize, site: usize, right: u32) -> bool
    requires { Area (length words.now) z master × SiteArea (length words.now) z site }
    ensures { result ≡ site_formed z (read_place z words.now master) right
        (read_site z words.now site) }
{
    let at = z.stale_at(site);
    let mark = stale_mask(words, z, master, site);
    let holding = holding_formed(words, z, site, right);
    place_formed(words, z, site) & ((words[at] == mark) & holding)
}
