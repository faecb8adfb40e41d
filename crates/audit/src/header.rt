// The header of a record. Sums are of `usize`: none of them wraps.
ghost use Rattle.std.specs.Prelude.{◌≡◌, ◌≤◌, length};
ghost use Rattle.records.specs.Format.{writers_in, layout_ok};
ghost use Rattle.audit.specs.Parts.{counts_ok, areas_ok};

// Whether header and length fit the layout.
pub fn layout_fits(words: &[u32]) -> bool
    ensures { result ≡ layout_ok words.now }
{
    if words.len() < 7 {
        return false;
    }
    let w = words[1] as usize;
    if !counts_fit(words[0] as usize, w) {
        return false;
    }
    areas_fit(words, w)
}

// Whether there may be so many keys and writers.
fn counts_fit(k: usize, w: usize) -> bool
    ensures { result ≡ counts_ok k w }
{
    if k < 1 {
        return false;
    }
    if 32 < k {
        return false;
    }
    if w < 1 {
        return false;
    }
    w <= 16
}

// Whether the issues begin at word 7, the reads straight after them, the total is where these
// end, and there are at least as many words.
fn areas_fit(words: &[u32], w: usize) -> bool
    requires { (7 ≤ length words.now) × (w ≡ writers_in words.now) × (w ≤ 16) }
    ensures { result ≡ areas_ok words.now }
{
    if words[4] != 7 {
        return false;
    }
    let reads = 7 + 4 * words[2] as usize;
    if words[5] as usize != reads {
        return false;
    }
    let total = words[6] as usize;
    if total != reads + words[3] as usize * (1 + w) {
        return false;
    }
    total <= words.len()
}
