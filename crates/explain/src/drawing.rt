// The path of keys, by what each key of C draws in.
ghost use Rattle.std.specs.Prelude.{◌≡◌, length};
ghost use Rattle.words.specs.Numbers.{when};
ghost use Rattle.words.specs.Words.{put};
ghost use Rattle.masks.specs.Mask.{test_bit, mask_below};
ghost use Rattle.paths.specs.Rows.{no_items_of, item_path};
ghost use Rattle.sets.specs.Leads.{RuleArea, leads_to};
ghost use Rattle.explain.specs.Drawing.{drawn_path, Draws};

use paths::{ItemPath, shortest_path};
use sets::View;
use sets::growth::{Rule, led_if};
use sets::missing::lacking;
use sizes::Counts;
use trial::{Trial, Visit};

// For each key of the mask, the keys of the scope to which it leads; no key for another. An array
// for the most keys, since there is no heap.
fn led_rows(words: &[u32], z: Counts, rule: Rule, scope: u32, mask: u32) -> [u32; 32]
    requires { RuleArea (length words.now) z rule }
    ensures { result ≡ put no_items_of 0 z.keys (λ t. when (test_bit mask t)
        (mask_below z.keys (leads_to z words.now rule scope t))) }
{
    let mut rows = [0u32; 32];
    for t in 0..z.keys {
        rows[t] = led_if(words, z, rule, scope, mask, t);
    }
    rows
}

// The shortest path from a read that the snapshot lacks to a key that the branch has read, through
// the cache as the fetch would leave it.
pub fn path_of(words: &[u32], z: Counts, visit: Visit, trial: Trial) -> ItemPath
    requires { Draws words.now z visit trial }
    ensures { result ≡ item_path (drawn_path z words.now visit trial) }
{
    let source = View {
        mask: trial.taken,
        first: visit.master,
        second: visit.cache,
    };
    let rule = Rule::Draw(visit.snapshot, source);
    let rows = led_rows(words, z, rule, visit.plan, trial.pulled);
    let start = lacking(words, z, visit.snapshot, visit.reads);
    let n = z.keys;
    shortest_path(&rows, n, start, visit.read)
}
