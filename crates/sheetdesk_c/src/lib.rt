// The calls for C and Rust. Each lays its answer's words (0 ok, 1 broken, 2 refused, 3 clear,
// 4 path, 5 nothing, 6 through, 7 breaks or 8 turned, then the numbers) over the front of a lent
// slice and gives how many they are; a slice of fewer than 40 words gives 0, and nothing is
// changed.
#![tactic(auto)]

pub mod audits;
pub mod clocks;
pub mod scratch;
pub mod scripts;

ghost use Rattle.std.specs.Prelude.{◌≡◌};
ghost use Rattle.model.specs.Calls.{look, explain, stale, admit, open_run, fetch, evict, prepare, step, issue, drop_run, allow, pick, mayhold, maysave, fork, join, ask};
ghost use Rattle.layout.specs.Calls.{new, on};
ghost use Rattle.calls.specs.Performs.{Exported};

use form::in_form;

#[unsafe(no_mangle)]
pub extern "C" fn sheetdesk_new(
    store: &mut [u32],
    keys: u32,
    writers: u32,
    sites: u32,
    runs: u32,
    out: &mut [u32],
) -> u32
    ensures { Exported (new keys writers sites runs)
        store.old store.new out.old out.new result }
{
    calls::first::new(store, keys, writers, sites, runs, out)
}

#[unsafe(no_mangle)]
pub extern "C" fn sheetdesk_open(store: &mut [u32], run: u32, jobs: &[u32], out: &mut [u32]) -> u32
    ensures { Exported (on (open_run run jobs.now))
        store.old store.new out.old out.new result }
{
    calls::first::open(store, in_form(store), run, jobs, out)
}

#[unsafe(no_mangle)]
pub extern "C" fn sheetdesk_fetch(store: &mut [u32], site: u32, key: u32, out: &mut [u32]) -> u32
    ensures { Exported (on (fetch site key))
        store.old store.new out.old out.new result }
{
    calls::first::fetch(store, in_form(store), site, key, out)
}

#[unsafe(no_mangle)]
pub extern "C" fn sheetdesk_evict(store: &mut [u32], site: u32, key: u32, out: &mut [u32]) -> u32
    ensures { Exported (on (evict site key))
        store.old store.new out.old out.new result }
{
    calls::first::evict(store, in_form(store), site, key, out)
}

#[unsafe(no_mangle)]
pub extern "C" fn sheetdesk_prepare(store: &mut [u32], run: u32, out: &mut [u32]) -> u32
    ensures { Exported (on (prepare run))
        store.old store.new out.old out.new result }
{
    calls::first::prepare(store, in_form(store), run, out)
}

// On line 0.
#[unsafe(no_mangle)]
pub extern "C" fn sheetdesk_step(store: &mut [u32], run: u32, job: u32, out: &mut [u32]) -> u32
    ensures { Exported (on (step run job 0))
        store.old store.new out.old out.new result }
{
    calls::first::step(store, in_form(store), run, job, 0, out)
}

#[unsafe(no_mangle)]
pub extern "C" fn sheetdesk_issue(
    store: &mut [u32],
    run: u32,
    writer: u32,
    mask: u32,
    out: &mut [u32],
) -> u32
    ensures { Exported (on (issue run writer mask))
        store.old store.new out.old out.new result }
{
    calls::first::issue(store, in_form(store), run, writer, mask, out)
}

#[unsafe(no_mangle)]
pub extern "C" fn sheetdesk_drop(store: &mut [u32], run: u32, out: &mut [u32]) -> u32
    ensures { Exported (on (drop_run run))
        store.old store.new out.old out.new result }
{
    calls::first::drop(store, in_form(store), run, out)
}

#[unsafe(no_mangle)]
pub extern "C" fn sheetdesk_look(
    store: &[u32],
    place: u32,
    number: u32,
    key: u32,
    out: &mut [u32],
) -> u32
    ensures { Exported (on (ask (look place number key)))
        store.now store.now out.old out.new result }
{
    calls::first::look(store, in_form(store), place, number, key, out)
}

// On line 0.
#[unsafe(no_mangle)]
pub extern "C" fn sheetdesk_explain(store: &[u32], run: u32, job: u32, out: &mut [u32]) -> u32
    ensures { Exported (on (ask (explain run job 0)))
        store.now store.now out.old out.new result }
{
    calls::later::explain(store, in_form(store), run, job, 0, out)
}

#[unsafe(no_mangle)]
pub extern "C" fn sheetdesk_stale(store: &[u32], site: u32, out: &mut [u32]) -> u32
    ensures { Exported (on (ask (stale site)))
        store.now store.now out.old out.new result }
{
    calls::later::stale(store, in_form(store), site, out)
}

#[unsafe(no_mangle)]
pub extern "C" fn sheetdesk_admit(store: &[u32], out: &mut [u32]) -> u32
    ensures { Exported (on (ask admit))
        store.now store.now out.old out.new result }
{
    calls::later::admit(store, in_form(store), out)
}

#[unsafe(no_mangle)]
pub extern "C" fn sheetdesk_allow(store: &mut [u32], site: u32, most: u32, out: &mut [u32]) -> u32
    ensures { Exported (on (allow site most))
        store.old store.new out.old out.new result }
{
    calls::later::allow(store, in_form(store), site, most, out)
}

#[unsafe(no_mangle)]
pub extern "C" fn sheetdesk_pick(store: &mut [u32], out: &mut [u32]) -> u32
    ensures { Exported (on pick)
        store.old store.new out.old out.new result }
{
    calls::later::pick(store, in_form(store), out)
}

#[unsafe(no_mangle)]
pub extern "C" fn sheetdesk_mayhold(
    store: &mut [u32],
    site: u32,
    right: u32,
    out: &mut [u32],
) -> u32
    ensures { Exported (on (mayhold site right))
        store.old store.new out.old out.new result }
{
    calls::later::mayhold(store, in_form(store), site, right, out)
}

#[unsafe(no_mangle)]
pub extern "C" fn sheetdesk_maysave(
    store: &mut [u32],
    writer: u32,
    right: u32,
    out: &mut [u32],
) -> u32
    ensures { Exported (on (maysave writer right))
        store.old store.new out.old out.new result }
{
    calls::later::maysave(store, in_form(store), writer, right, out)
}

#[unsafe(no_mangle)]
pub extern "C" fn sheetdesk_fork(store: &mut [u32], run: u32, out: &mut [u32]) -> u32
    ensures { Exported (on (fork run))
        store.old store.new out.old out.new result }
{
    calls::later::fork(store, in_form(store), run, out)
}

#[unsafe(no_mangle)]
pub extern "C" fn sheetdesk_join(store: &mut [u32], run: u32, out: &mut [u32]) -> u32
    ensures { Exported (on (join run))
        store.old store.new out.old out.new result }
{
    calls::later::join(store, in_form(store), run, out)
}

#[unsafe(no_mangle)]
pub extern "C" fn sheetdesk_step_on(
    store: &mut [u32],
    run: u32,
    job: u32,
    line: u32,
    out: &mut [u32],
) -> u32
    ensures { Exported (on (step run job line))
        store.old store.new out.old out.new result }
{
    calls::first::step(store, in_form(store), run, job, line, out)
}

#[unsafe(no_mangle)]
pub extern "C" fn sheetdesk_explain_on(
    store: &[u32],
    run: u32,
    job: u32,
    line: u32,
    out: &mut [u32],
) -> u32
    ensures { Exported (on (ask (explain run job line)))
        store.now store.now out.old out.new result }
{
    calls::later::explain(store, in_form(store), run, job, line, out)
}

// The version of this interface: it rises when a call, its arguments or its answer change.
#[unsafe(no_mangle)]
pub extern "C" fn sheetdesk_version() -> u32
    ensures { result ≡ 12 }
{
    12
}

// The version of the layout: it rises when the words of a desk change.
#[unsafe(no_mangle)]
pub extern "C" fn sheetdesk_layout() -> u32
    ensures { result ≡ 7 }
{
    7
}
