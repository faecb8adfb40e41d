// The keys that a place lacks, and whether a key to be fetched is one of them.
ghost use Rattle.std.specs.Prelude.{◌≡◌, ◌<◌, ◌^◌, length};
ghost use Rattle.masks.specs.Mask.{test_bit, mask_below};
ghost use Rattle.model.specs.Algebra.{lacking};
ghost use Rattle.model.specs.Version.{versions};
ghost use Rattle.model.specs.Sets.{unfetchable};
ghost use Rattle.layout.specs.Reading.{read_place};
ghost use Rattle.version.specs.Places.{Area};

use masks::without;
use sizes::Counts;
use version::held_mask;

// The keys of a mask that the place at an index lacks.
pub fn lacking(words: &[u32], z: Counts, at: usize, mask: u32) -> u32
    requires area { Area (length words.now) z at }
    requires mask_bound { mask < 2 ^ z.keys }
    ensures { result ≡ mask_below z.keys (lacking (versions z.writers) z.keys
        (read_place z words.now at) (test_bit mask)) }
{
    let carried = held_mask(words, z, at);
    without(mask, carried)
}

// Whether a key to be fetched isn't held by the master.
pub fn is_unfetchable(words: &[u32], z: Counts, master: usize, start: u32) -> bool
    requires area { Area (length words.now) z master }
    requires start_bound { start < 2 ^ z.keys }
    ensures { result ≡ unfetchable (versions z.writers) z.keys
        (read_place z words.now master) (test_bit start) }
{
    lacking(words, z, master, start) != 0
}
