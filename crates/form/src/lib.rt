// Whether a buffer of words is in form (document 01: "A desk is in form if ..").
// Tests joined by `&` are all made: none of them asks for another.
#![tactic(auto)]

pub mod header;
pub mod job;
pub mod place;
pub mod run;
pub mod site;
pub mod tail;

ghost use Rattle.std.specs.Prelude.{◌≡◌, ◌<◌, length};
ghost use Rattle.words.specs.Tests.{all_below};
ghost use Rattle.layout.specs.Buffer.{in_form};
ghost use Rattle.form.specs.Parts.{StoreArea, site_test, run_test};

use header::{counts, shaped};
use place::place_formed;
use run::run_formed;
use site::site_formed;
use sizes::Counts;
use sizes::header::HeaderOffset;
use tail::tail_formed;

// Whether every site is in form.
fn sites_formed(words: &[u32], z: Counts) -> bool
    requires { StoreArea (length words.now) z }
    ensures { result ≡ all_below z.sites (site_test z words.now) }
{
    (0..z.sites).all(
        |o|
            requires { StoreArea (length words.now) z × (o < z.sites) }
            ensures { result ≡ site_test z words.entry.now o }
        {
            let right = words[z.may_hold_at(o)];
            site_formed(words, z, HeaderOffset::SIZE, z.site_at(o), right)
        },
    )
}

// Whether every run is in form.
fn runs_formed(words: &[u32], z: Counts) -> bool
    requires { StoreArea (length words.now) z }
    ensures { result ≡ all_below z.runs (run_test z words.now) }
{
    (0..z.runs).all(
        |i|
            requires { StoreArea (length words.now) z × (i < z.runs) }
            ensures { result ≡ run_test z words.entry.now i }
        { run_formed(words, z, z.run_at(i)) },
    )
}

// Whether the buffer is in form. It may be any buffer.
pub fn in_form(words: &[u32]) -> bool
    ensures { result ≡ in_form words.now }
{
    if !shaped(words) {
        return false;
    }
    let z = counts(words);
    let areas = z.areas();
    place_formed(words, z, areas.master)
        & (sites_formed(words, z) & (runs_formed(words, z) & tail_formed(words, z)))
}
