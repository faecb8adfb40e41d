// The stale marks of all sites, set again after the master has changed.
ghost use Rattle.std.specs.Prelude.{◌≡◌, length};
ghost use Rattle.words.specs.Numbers.{fold_below};
ghost use Rattle.version.specs.Places.{Area};
ghost use Rattle.form.specs.Parts.{StoreArea};
ghost use Rattle.issue.specs.Saves.{mark_at};

use sizes::Counts;
use version::mark::mark_site;

// Stores the mark of each site, by the master at an index.
pub fn mark_sites(words: &mut [u32], z: Counts, master: usize)
    requires { Area (length words.old) z master × StoreArea (length words.old) z }
    ensures { words.new
        ≡ fold_below z.sites (mark_at z master) words.old }
{
    for o in 0..z.sites {
        let site = z.site_at(o);
        mark_site(words, z, master, site);
    }
}
