// The least sets T, E and C as masks of keys, from the places of a buffer, and the cache that E
// leaves.
#![tactic(auto)]

pub mod growth;
pub mod missing;

ghost use Rattle.std.specs.Prelude.{◌≡◌, ◌<◌, ◌^◌, length};
ghost use Rattle.masks.specs.Mask.{test_bit, mask_below};
ghost use Rattle.model.specs.Version.{versions};
ghost use Rattle.model.specs.Sets.{draw_set, fetch_set, evict_set, evicted};
ghost use Rattle.layout.specs.Reading.{read_place};
ghost use Rattle.version.specs.Places.{put_mark, SiteArea, Area};
ghost use Rattle.layout.specs.Stored.{put_place};
ghost use Rattle.sets.specs.Draws.{view_at, viewed, DrawArea, draws_in};

use crate::growth::grow;
use masks::has;
use sizes::Counts;
use version::mark::mark_site;
use version::{clear_keys, held, held_mask, meets, needs};

// A place seen through a mask: the first for the keys of the mask, the second for the others.
#[derive(Clone, Copy)]
pub struct View {
    pub mask: u32,
    pub first: usize,
    pub second: usize,
}

impl View {
    // The place that begins at an index, as it is.
    pub fn of(at: usize) -> View
        ensures { result ≡ record { mask = 0; first = at; second = at } }
    {
        View {
            mask: 0,
            first: at,
            second: at,
        }
    }

    // Where the place begins from which key k is read.
    pub fn place(self, k: usize) -> usize
        requires { k < 32 }
        ensures { result ≡ view_at self k }
    {
        if has(self.mask, k as u32) {
            self.first
        } else {
            self.second
        }
    }
}

// Whether t draws in d: d is needed by the source's t, the target does not meet that need and the
// source holds d. Few keys need another: that is asked first.
pub fn draws(words: &[u32], z: Counts, target: usize, source: View, t: usize, d: usize) -> bool
    requires draw_area { DrawArea (length words.now) z target source }
    requires t_lt_keys { (t < z.keys) × (d < z.keys) }
    ensures { result ≡ draws_in z words.now target source t d }
{
    let from = source.place(t);
    if !needs(words, z, from, t, d) {
        return false;
    }
    let other = source.place(d);
    !meets(words, z, target, d, from, t) & held(words, z, other, d)
}

// The least set that holds the start and what its members draw in.
pub fn draw_set(
    words: &[u32],
    z: Counts,
    scope: u32,
    target: usize,
    source: View,
    start: u32,
) -> u32
    requires draw_area { DrawArea (length words.now) z target source }
    requires start_bound { start < 2 ^ z.keys }
    ensures { result ≡ mask_below z.keys
        (draw_set (versions z.writers) z.keys (test_bit scope)
        (read_place z words.now target) (viewed z words.now source)
        (test_bit start)) }
{
    let leads = |t: usize, d: usize| draws(words, z, target, source, t, d);
    grow(z.keys, scope, start, start, &leads)
}

// T: the keys that a cache takes from the master.
pub fn fetch_set(words: &[u32], z: Counts, master: usize, cache: usize, start: u32) -> u32
    requires area { Area (length words.now) z master × Area (length words.now) z cache }
    requires start_bound { start < 2 ^ z.keys }
    ensures { result ≡ mask_below z.keys
        (fetch_set (versions z.writers) z.keys (read_place z words.now master)
        (read_place z words.now cache) (test_bit start)) }
{
    let scope = held_mask(words, z, master);
    let source = View::of(master);
    draw_set(words, z, scope, cache, source, start)
}

// E: the keys of the start, and the held ones that need a member.
pub fn evict_set(words: &[u32], z: Counts, at: usize, start: u32) -> u32
    requires area { Area (length words.now) z at }
    requires start_bound { start < 2 ^ z.keys }
    ensures { result ≡ mask_below z.keys
        (evict_set (versions z.writers) z.keys (read_place z words.now at)
        (test_bit start)) }
{
    let scope = held_mask(words, z, at);
    let needing = |t: usize, d: usize| needs(words, z, at, d, t);
    grow(z.keys, scope, start, start, &needing)
}

// E leaves the cache of a site, and its mark is set. Answers E.
pub fn evict_keys(words: &mut [u32], z: Counts, master: usize, at: usize, start: u32) -> u32
    requires area { Area (length words.old) z master × SiteArea (length words.old) z at }
    requires start_bound { start < 2 ^ z.keys }
    ensures answers { result ≡ mask_below z.keys
        (evict_set (versions z.writers) z.keys (read_place z words.old at)
        (test_bit start)) }
    ensures leaves { words.new ≡ put_mark z (put_place z words.old at
        (evicted (versions z.writers) z.keys (read_place z words.old at)
        (test_bit start))) master at }
{
    let gone = evict_set(words, z, at, start);
    clear_keys(words, z, at, gone);
    mark_site(words, z, master, at);
    gone
}
