// The saves that the reads of an issue must count (CR 14).
ghost use Rattle.std.specs.Prelude.{◌≡◌, ◌+◌, ◌≤◌, ◌<◌, leb, length};
ghost use Rattle.words.specs.Tests.{all_below};
ghost use Rattle.masks.specs.Mask.{test_bit};
ghost use Rattle.model.specs.Algebra.{implies};
ghost use Rattle.records.specs.Format.{all_reads};
ghost use Rattle.records.specs.Walk.{fine};
ghost use Rattle.audit.specs.Parts.{KeysLow, KeysAmong, Ranked, save_counted};

use crate::issues::{Earlier, Issue, step_back};
use crate::reading::{each_read, fold_reads};
use masks::{has, with_item};

// The mask of the keys that the issue read.
pub fn keys_read(issue: Issue<'_>) -> u32
    requires { KeysLow issue.words.now issue.i }
    ensures { KeysAmong issue.entry.words.now issue.entry.i result }
{
    let mut keys = 0;
    fold_reads(
        issue,
        &mut keys,
        |keys, read| *keys = with_item(*keys, read.key),
    );
    keys
}

// Whether each read of the issue counts up to every issue before issue j that saved its key.
pub fn rest_counted(issue: Issue<'_>, j: usize, keys: u32, ranks: &mut [u32; 16]) -> bool
    requires low { (j ≤ issue.i) × KeysLow issue.words.now issue.i }
    requires among { KeysAmong issue.words.now issue.i keys }
    requires ranked { Ranked issue.words.now issue.w j ranks.old }
    ensures { result ≡ all_below j (fine issue.entry.words.now issue.entry.i) }
{
    for k in (0..j).rev() {
        let earlier = step_back(issue, k, ranks);
        if !saves_fine(issue, earlier, keys) {
            return false;
        }
    }
    true
}

// As saves_counted: that isn't asked where no read has a key of the mask.
pub fn saves_fine(issue: Issue<'_>, earlier: Earlier, keys: u32) -> bool
    requires low { KeysLow issue.words.now issue.i × (earlier.u < issue.w) }
    requires among { KeysAmong issue.words.now issue.i keys }
    ensures { let b = issue.entry.words.now in
        result ≡ all_reads b issue.entry.i (save_counted b earlier.u earlier.mask earlier.rank) }
{
    if earlier.mask & keys == 0 {
        return true;
    }
    saves_counted(issue, earlier)
}

// Whether each read of the issue with a key that the earlier one saved counts up to that.
fn saves_counted(issue: Issue<'_>, earlier: Earlier) -> bool
    requires { KeysLow issue.words.now issue.i × (earlier.u < issue.w) }
    ensures { let b = issue.entry.words.now in
        result ≡ all_reads b issue.entry.i (save_counted b earlier.u earlier.mask earlier.rank) }
{
    let words = issue.words;
    each_read(
        issue,
        |read| save_counted(read.key, words[read.counts + earlier.u], earlier),
    )
}

// Whether the count is no less than this rank, if the mask has the key.
fn save_counted(key: u32, count: u32, earlier: Earlier) -> bool
    requires { key < 32 }
    ensures { result ≡ implies (test_bit earlier.mask key) (leb earlier.rank count) }
{
    !has(earlier.mask, key) || earlier.rank <= count
}
