// A set of keys grows by what its members lead to. Only those that joined last are asked, and only
// for keys that are not in it yet.
ghost use Rattle.std.specs.Prelude.{◌≡◌, ◌&&◌, true, false, ℕ, ◌≤◌, ◌<◌, length};
ghost use Rattle.words.specs.Tests.{Items, any_below};
ghost use Rattle.words.specs.Numbers.{when};
ghost use Rattle.masks.specs.Mask.{test_bit, mask_below};
ghost use Rattle.reach.specs.Closure.{closure, Frontier};
ghost use Rattle.sets.specs.Leads.{Tells, RuleArea, leads_to, led_within};

use crate::{View, draws};
use masks::{has, mask_of, without};
use sizes::Counts;
use version::needs;

// How a member of the set leads to a key: to one that it draws into the target from the source
// (T and C), or to one of the place that needs it (E).
#[derive(Clone, Copy)]
pub enum Rule {
    Draw(usize, View),
    Evict(usize),
}

// Whether t leads to d, a key of the scope.
pub fn leads(words: &[u32], z: Counts, rule: Rule, scope: u32, t: usize, d: usize) -> bool
    requires rule_area { RuleArea (length words.now) z rule }
    requires t_lt_keys { (t < z.keys) × (d < z.keys) }
    ensures { result ≡ leads_to z words.now rule scope t d }
{
    if !has(scope, d as u32) {
        return false;
    }
    match rule {
        Rule::Draw(target, source) => draws(words, z, target, source, t, d),
        Rule::Evict(at) => needs(words, z, at, d, t),
    }
}

// The keys of the scope to which t leads, if t is in the mask.
pub fn led_if(words: &[u32], z: Counts, rule: Rule, scope: u32, mask: u32, t: usize) -> u32
    requires rule_area { RuleArea (length words.now) z rule }
    requires t_lt_keys { t < z.keys }
    ensures { result ≡ when (test_bit mask t)
        (mask_below z.keys (leads_to z words.now rule scope t)) }
{
    if has(mask, t as u32) {
        mask_of(z.keys, |d| leads(words, z, rule, scope, t, d as usize))
    } else {
        0
    }
}

// The keys of the scope to which t leads, by a test of two keys.
pub fn led_from<F: Fn(usize, usize) -> bool>(keys: usize, scope: u32, t: usize, leads: &F) -> u32
    requires keys_le { keys ≤ 32 }
    requires t_lt_keys { t < keys }
    requires callable { (t d : ℕ) → t < keys → d < keys → F.pre leads.now t d }
    ensures { (edge : ℕ → Items) → Tells (F.post leads.now) keys edge
        → result ≡ mask_below keys (led_within scope edge t) }
{
    mask_of(
        keys,
        |d|
            requires d_lt { d < 32 }
            requires callable { F.pre leads.now t d }
            ensures outside { test_bit scope d ≡ false → result ≡ false }
            ensures inside { test_bit scope d ≡ true → F.post leads.entry.now t d result }
        { has(scope, d) && leads(t, d as usize) },
    )
}

// The keys of the scope to which a key of the mask leads, by a test of two keys. One that is found
// isn't asked for again.
pub fn led_by<F: Fn(usize, usize) -> bool>(keys: usize, scope: u32, mask: u32, leads: &F) -> u32
    requires keys_le { keys ≤ 32 }
    requires callable { (t d : ℕ) → t < keys → d < keys → F.pre leads.now t d }
    ensures { (edge : ℕ → Items) → Tells (F.post leads.now) keys edge
        → result ≡ mask_below keys (λ d. any_below keys
        (λ t. test_bit mask t && led_within scope edge t d)) }
{
    if scope == 0 {
        return 0;
    }
    let mut all: u32 = 0;
    for t in 0..keys {
        if has(mask, t as u32) {
            all |= led_from(keys, without(scope, all), t, leads);
        }
    }
    all
}

// The least set that holds the mask and all of the scope to which its members lead, by a test of
// two keys, where only those of the frontier may lead outside of the mask.
pub fn grow<F: Fn(usize, usize) -> bool>(
    keys: usize,
    scope: u32,
    mask: u32,
    frontier: u32,
    leads: &F,
) -> u32
    requires keys_le { keys ≤ 32 }
    requires callable { (t d : ℕ) → t < keys → d < keys → F.pre leads.now t d }
    requires frontier { (edge : ℕ → Items) × Tells (F.post leads.now) keys edge
        × Frontier keys (led_within scope edge) mask frontier }
    ensures { (edge : ℕ → Items) → Tells (F.post leads.now) keys edge
        → Frontier keys (led_within scope edge) mask frontier
        → result ≡ mask_below keys (closure keys (led_within scope edge) (test_bit mask)) }
{
    let open = without(scope, mask);
    let joining = led_by(keys, open, frontier, leads);
    if joining == 0 {
        mask
    } else {
        grow(keys, scope, mask | joining, joining, leads)
    }
}
