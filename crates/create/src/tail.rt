// The tail of a new desk: the round, then the masks of all sheets.
ghost use Rattle.std.specs.Prelude.{◌≡◌, ◌-◌, ◌^◌, ◌≤◌, length};
ghost use Rattle.std.proofs.lemmas.List.Edits.{sets};
ghost use Rattle.sizes.specs.Bounds.{max_keys};
ghost use Rattle.model.specs.Tail.{fresh_tail};
ghost use Rattle.layout.specs.Words.{tail_words};
ghost use Rattle.create.specs.Room.{Room};

use crate::narrow;
use sizes::{Counts, Sizes};

// The round, such that run 0 is tried first; each site may hold and each writer save all keys.
pub fn store_tail(words: &mut [u32], z: Counts, at: Sizes)
    requires { Room (length words.old) z at }
    ensures { words.new
        ≡ sets words.old at.tail (tail_words z (fresh_tail z)) }
{
    let round = at.tail;
    words[round] = narrow(z.runs - 1);
    let masks = round + 1;
    let number = z.sites + z.writers;
    words[masks..masks + number].fill(every_key(z.keys));
}

// The mask of all keys. The power is one of 64 bits: there may be 32 keys.
fn every_key(keys: usize) -> u32
    requires { keys ≤ max_keys }
    ensures { result ≡ 2 ^ keys - 1 }
{
    ((1usize << keys) - 1) as u32
}
