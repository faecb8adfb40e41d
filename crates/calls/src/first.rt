// Document 01's nine calls, each on any buffer.
ghost use Rattle.std.specs.Prelude.{◌≡◌};
ghost use Rattle.model.specs.Calls.{look, open_run, fetch, evict, prepare, step, issue, drop_run, ask};
ghost use Rattle.layout.specs.Buffer.{in_form};
ghost use Rattle.layout.specs.Calls.{new, on};
ghost use Rattle.calls.specs.Performs.{Exported};

use crate::laying::{can_make, lay, narrow, turn_down};
use answers::Room;
use look::put_looked;

pub fn new(
    store: &mut [u32],
    keys: u32,
    writers: u32,
    sites: u32,
    runs: u32,
    out: &mut [u32],
) -> u32
    ensures { Exported (new keys writers sites runs)
        store.old store.new out.old out.new result }
{
    if out.len() < Room::ANSWER {
        return 0;
    }
    lay(out, create::new(store, keys, writers, sites, runs))
}

pub fn open(store: &mut [u32], ready: bool, run: u32, jobs: &[u32], out: &mut [u32]) -> u32
    requires { ready ≡ in_form store.old }
    ensures { Exported (on (open_run run jobs.now))
        store.old store.new out.old out.new result }
{
    if !can_make(ready, out) {
        return turn_down(out);
    }
    lay(out, runs::open(store, run, jobs))
}

pub fn fetch(store: &mut [u32], ready: bool, site: u32, key: u32, out: &mut [u32]) -> u32
    requires { ready ≡ in_form store.old }
    ensures { Exported (on (fetch site key))
        store.old store.new out.old out.new result }
{
    if !can_make(ready, out) {
        return turn_down(out);
    }
    lay(out, caches::fetch(store, site, key))
}

pub fn evict(store: &mut [u32], ready: bool, site: u32, key: u32, out: &mut [u32]) -> u32
    requires { ready ≡ in_form store.old }
    ensures { Exported (on (evict site key))
        store.old store.new out.old out.new result }
{
    if !can_make(ready, out) {
        return turn_down(out);
    }
    lay(out, caches::evict(store, site, key))
}

pub fn prepare(store: &mut [u32], ready: bool, run: u32, out: &mut [u32]) -> u32
    requires { ready ≡ in_form store.old }
    ensures { Exported (on (prepare run))
        store.old store.new out.old out.new result }
{
    if !can_make(ready, out) {
        return turn_down(out);
    }
    lay(out, prepare::prepare(store, run))
}

pub fn step(store: &mut [u32], ready: bool, run: u32, job: u32, line: u32, out: &mut [u32]) -> u32
    requires { ready ≡ in_form store.old }
    ensures { Exported (on (step run job line))
        store.old store.new out.old out.new result }
{
    if !can_make(ready, out) {
        return turn_down(out);
    }
    lay(out, step::step(store, run, job, line))
}

pub fn issue(
    store: &mut [u32],
    ready: bool,
    run: u32,
    writer: u32,
    mask: u32,
    out: &mut [u32],
) -> u32
    requires { ready ≡ in_form store.old }
    ensures { Exported (on (issue run writer mask))
        store.old store.new out.old out.new result }
{
    if !can_make(ready, out) {
        return turn_down(out);
    }
    lay(out, issue::issue(store, run, writer, mask))
}

pub fn drop(store: &mut [u32], ready: bool, run: u32, out: &mut [u32]) -> u32
    requires { ready ≡ in_form store.old }
    ensures { Exported (on (drop_run run))
        store.old store.new out.old out.new result }
{
    if !can_make(ready, out) {
        return turn_down(out);
    }
    lay(out, runs::drop(store, run))
}

pub fn look(store: &[u32], ready: bool, place: u32, number: u32, key: u32, out: &mut [u32]) -> u32
    requires { ready ≡ in_form store.now }
    ensures { Exported (on (ask (look place number key)))
        store.now store.now out.old out.new result }
{
    if !can_make(ready, out) {
        return turn_down(out);
    }
    let n = put_looked(out, store, look::look(store, place, number, key));
    narrow(n)
}
