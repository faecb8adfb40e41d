// Words of a buffer: cleared and copied.
#![tactic(auto)]

ghost use Rattle.std.specs.Prelude.{◌≡◌, ◌+◌, ◌≤◌, length, get_or};
ghost use Rattle.words.specs.Words.{put, Apart};

// Sets n words to 0, from index at on.
pub fn zero(words: &mut [u32], at: usize, n: usize)
    requires { at + n ≤ length words.old }
    ensures { words.new ≡ put words.old at n (λ _. 0) }
{
    words[at..at + n].fill(0);
}

// Copies n words from index src on to index dst on.
pub fn copy(words: &mut [u32], dst: usize, src: usize, n: usize)
    requires { Apart (length words.old) dst src n }
    ensures { words.new
        ≡ put words.old dst n (λ i. get_or words.old (src + i) 0) }
{
    words.copy_within(src..src + n, dst);
}

// Copies n words of another slice, from its index src on, to index dst on.
pub fn copy_from(words: &mut [u32], dst: usize, from: &[u32], src: usize, n: usize)
    requires { (dst + n ≤ length words.old) × (src + n ≤ length from.now) }
    ensures { words.new
        ≡ put words.old dst n (λ i. get_or from.now (src + i) 0) }
{
    // By copy_from_slice the library would need memmove.
    for i in 0..n {
        words[dst + i] = from[src + i];
    }
}
