// Masks of items below 32: bit k stands for item k.
#![tactic(auto)]

ghost use Rattle.std.specs.Prelude.{◌≡◌, ◌≤◌, ◌<◌, ℕ, Bool};
ghost use Rattle.words.specs.Numbers.{when, count_below};
ghost use Rattle.masks.specs.Mask.{test_bit, with_bit, with_if, without, mask_below};

// Whether item k is in the mask.
pub fn has(mask: u32, k: u32) -> bool
    requires { k < 32 }
    ensures { result ≡ test_bit mask k }
{
    (mask >> k) % 2 == 1
}

// The mask with item k in it.
pub fn with_item(mask: u32, k: u32) -> u32
    requires { k < 32 }
    ensures { result ≡ with_bit mask k }
{
    mask | (1 << k)
}

// The mask, with item k in it where the test passes.
pub fn with_if(test: bool, mask: u32, k: u32) -> u32
    requires { k < 32 }
    ensures { result ≡ with_if test mask k }
{
    if test { with_item(mask, k) } else { mask }
}

// The mask where the test passes, and no item where it fails.
pub fn mask_if(test: bool, mask: u32) -> u32
    ensures { result ≡ when test mask }
{
    if test { mask } else { 0 }
}

// The items of a that are not in b.
pub fn without(a: u32, b: u32) -> u32
    ensures { result ≡ without a b }
{
    a ^ (a & b)
}

// How many items below n are in the mask.
pub fn count_items(mask: u32, n: usize) -> u32
    requires { n ≤ 32 }
    ensures { result ≡ count_below n (test_bit mask) }
{
    let mut count = 0;
    for k in 0..n as u32 {
        count += mask_if(has(mask, k), 1);
    }
    count
}

// The items below n that pass a test, as a mask.
pub fn mask_of<F: Fn(u32) -> bool>(n: usize, test: F) -> u32
    requires n_le { n ≤ 32 }
    requires callable { (k : ℕ) → k < n → F.pre test k }
    ensures { (f : ℕ → Bool) → ((k : ℕ) (b : Bool) → k < n → F.post test k b → b ≡ f k)
        → result ≡ mask_below n f }
{
    let mut mask = 0;
    for k in 0..n as u32 {
        mask = with_if(test(k), mask, k);
    }
    mask
}
