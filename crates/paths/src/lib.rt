// The shortest path from a start to a goal, of items below 32: row t is the mask of the items to
// which item t leads.
#![tactic(auto)]

ghost use Rattle.std.specs.Prelude.{◌≡◌, ◌<◌, ◌≤◌, ◌^◌, length, get_or, MatchOption};
ghost use Rattle.std.proofs.Math.Bool.{So};
ghost use Rattle.words.specs.Tests.{any_below};
ghost use Rattle.words.specs.Words.{put};
ghost use Rattle.masks.specs.Mask.{test_bit, mask_below};
ghost use Rattle.paths.specs.Path.{lowest, near, meets, path_by, shortest_path};
ghost use Rattle.paths.specs.Rows.{leads_by, meeting, RowsOf, LayersOf, layer, no_items_of, item_path};

use masks::{has, mask_of};

// The items of a path, from the first on, and how many they are. Behind them stand zeros. (An
// array, since the project has no heap.)
#[derive(Clone, Copy)]
pub struct ItemPath {
    pub count: usize,
    pub items: [u32; 32],
}

// The lowest item of a mask, and n where none is below n.
fn lowest_item(mask: u32, n: u32) -> u32
    requires { n ≤ 32 }
    ensures { result ≡ lowest n (test_bit mask) }
{
    (0..n).find(|k| has(mask, *k)).unwrap_or(n)
}

// The items that lead to one of the mask.
fn leading_to(rows: &[u32], n: usize, mask: u32) -> u32
    requires { RowsOf rows.now n × (mask < 2 ^ n) }
    ensures { result ≡ mask_below n (near n (leads_by rows.now) (test_bit mask) 1) }
{
    mask_of(n, |k| rows[k as usize] & mask != 0)
}

// For each m below n, the items that are m edges away from the goal.
fn layers(rows: &[u32], n: usize, goal: u32) -> [u32; 32]
    requires { RowsOf rows.now n × (goal < 2 ^ n) }
    ensures { result ≡ put no_items_of 0 n (layer rows.now n goal) }
{
    let mut masks = [0; 32];
    let mut mask = goal;
    for m in 0..n {
        masks[m] = mask;
        mask = leading_to(rows, n, mask);
    }
    masks
}

// How many edges a shortest path has, by the layers; nothing where there is no path.
fn edges_to(masks: &[u32], n: usize, start: u32) -> Option<usize>
    requires { n ≤ length masks.now }
    ensures { MatchOption result (lowest n (meeting masks.now start) ≡ n)
        (λ m. (m < n) × (m ≡ lowest n (meeting masks.now start))) }
{
    masks[..n].iter().position(|mask| start & *mask != 0)
}

// The path that begins m edges away from the goal: always the lowest item that is next.
fn follow(rows: &[u32], n: usize, masks: &[u32], start: u32, m: usize) -> ItemPath
    requires rows_of { RowsOf rows.now n × LayersOf rows.now n masks.now }
    requires m_lt_n { (m < n) × So (any_below n (meets n (leads_by rows.now)
        (test_bit (get_or masks.now 0 0)) m (test_bit start))) }
    ensures { result ≡ item_path (path_by n (leads_by rows.now)
        (test_bit (get_or masks.now 0 0)) m (test_bit start)) }
{
    let mut items = [0; 32];
    let mut from = start;
    let count = m + 1;
    for i in 0..count {
        let item = lowest_item(from & masks[m - i], n as u32);
        items[i] = item;
        from = rows[item as usize];
    }
    ItemPath { count, items }
}

// The shortest path from the start to the goal, of these the smallest item by item; no item if
// there is none.
pub fn shortest_path(rows: &[u32], n: usize, start: u32, goal: u32) -> ItemPath
    requires { RowsOf rows.now n × (goal < 2 ^ n) }
    ensures { result ≡ item_path (shortest_path n (leads_by rows.now) (test_bit start)
        (test_bit goal)) }
{
    let masks = layers(rows, n, goal);
    match edges_to(&masks, n, start) {
        Some(m) => follow(rows, n, &masks, start, m),
        None => ItemPath {
            count: 0,
            items: [0; 32],
        },
    }
}
