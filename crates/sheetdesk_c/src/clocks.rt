// Clocks for C and Rust: each is lent as a slice of its counts.
ghost use Rattle.std.specs.Prelude.{◌≡◌, ◌≤◌, length};
ghost use Rattle.words.specs.Words.{put};
ghost use Rattle.clock.specs.Clock.{join, clock_at};
ghost use Rattle.sheetdesk_c.specs.Pairs.{alike, compared, covers, together, merged};

use clock::count::{count_at, set_count};
use clock::{compare, covering};
use sizes::Sizes;

// Whether two clocks can be compared: they have one length, which doesn't exceed the most writers.
fn are_alike(p: &[u32], q: &[u32]) -> bool
    ensures { result ≡ alike p.now q.now }
{
    (p.len() == q.len()) & (p.len() <= Sizes::MAX_WRITERS)
}

// Each of w counts of the target becomes the larger of the two.
fn raise(target: &mut [u32], source: &[u32], w: usize)
    requires { (w ≤ length target.old) × (w ≤ length source.now) }
    ensures { target.new ≡ put target.old 0 w
        (join (clock_at target.old 0) (clock_at source.now 0)) }
{
    for i in 0..w {
        let x = count_at(target, i);
        let y = count_at(source, i);
        set_count(target, i, x.max(y));
    }
}

// How clock p stands against clock q: 0 equal, 1 older, 2 newer, 3 rival, and 4 if the lengths
// differ or exceed 16.
#[unsafe(no_mangle)]
pub extern "C" fn sheetdesk_compare(p: &[u32], q: &[u32]) -> u32
    ensures { result ≡ compared p.now q.now }
{
    if !are_alike(p, q) {
        return 4;
    }
    u32::from(compare(p, 0, q, 0, p.len()))
}

// Whether clock p covers clock q: 1 or 0, and 2 if the lengths differ or exceed 16.
#[unsafe(no_mangle)]
pub extern "C" fn sheetdesk_covers(p: &[u32], q: &[u32]) -> u32
    ensures { result ≡ covers p.now q.now }
{
    if !are_alike(p, q) {
        return 2;
    }
    u32::from(covering(compare(p, 0, q, 0, p.len())))
}

// Merges the source into the target: 1, or 0 with nothing changed if the lengths differ or exceed
// 16.
#[unsafe(no_mangle)]
pub extern "C" fn sheetdesk_merge(target: &mut [u32], source: &[u32]) -> u32
    ensures { (result ≡ together target.old source.now)
        × (target.new ≡ merged target.old source.now) }
{
    if !are_alike(target, source) {
        return 0;
    }
    let w = source.len();
    raise(target, source, w);
    1
}
