// The calls after document 01's nine, each on any buffer.
ghost use Rattle.std.specs.Prelude.{◌≡◌};
ghost use Rattle.model.specs.Calls.{explain, stale, admit, allow, pick, mayhold, maysave, fork, join, ask};
ghost use Rattle.layout.specs.Buffer.{in_form};
ghost use Rattle.layout.specs.Calls.{on};
ghost use Rattle.calls.specs.Performs.{Exported};

use crate::laying::{can_make, lay, narrow, turn_down};
use explain::put::put_explained;
use pick::put_picked;

pub fn explain(store: &[u32], ready: bool, run: u32, job: u32, line: u32, out: &mut [u32]) -> u32
    requires { ready ≡ in_form store.now }
    ensures { Exported (on (ask (explain run job line)))
        store.now store.now out.old out.new result }
{
    if !can_make(ready, out) {
        return turn_down(out);
    }
    let n = put_explained(out, explain::explain(store, run, job, line));
    narrow(n)
}

pub fn stale(store: &[u32], ready: bool, site: u32, out: &mut [u32]) -> u32
    requires { ready ≡ in_form store.now }
    ensures { Exported (on (ask (stale site)))
        store.now store.now out.old out.new result }
{
    if !can_make(ready, out) {
        return turn_down(out);
    }
    lay(out, stale::stale(store, site))
}

pub fn admit(store: &[u32], ready: bool, out: &mut [u32]) -> u32
    requires { ready ≡ in_form store.now }
    ensures { Exported (on (ask admit))
        store.now store.now out.old out.new result }
{
    if !can_make(ready, out) {
        return turn_down(out);
    }
    lay(out, admit::admit(store))
}

pub fn allow(store: &mut [u32], ready: bool, site: u32, number: u32, out: &mut [u32]) -> u32
    requires { ready ≡ in_form store.old }
    ensures { Exported (on (allow site number))
        store.old store.new out.old out.new result }
{
    if !can_make(ready, out) {
        return turn_down(out);
    }
    lay(out, allow::allow(store, site, number))
}

pub fn pick(store: &mut [u32], ready: bool, out: &mut [u32]) -> u32
    requires { ready ≡ in_form store.old }
    ensures { Exported (on pick)
        store.old store.new out.old out.new result }
{
    if !can_make(ready, out) {
        return turn_down(out);
    }
    let n = put_picked(out, pick::pick(store));
    narrow(n)
}

pub fn mayhold(store: &mut [u32], ready: bool, site: u32, mask: u32, out: &mut [u32]) -> u32
    requires { ready ≡ in_form store.old }
    ensures { Exported (on (mayhold site mask))
        store.old store.new out.old out.new result }
{
    if !can_make(ready, out) {
        return turn_down(out);
    }
    lay(out, rights::mayhold(store, site, mask))
}

pub fn maysave(store: &mut [u32], ready: bool, writer: u32, mask: u32, out: &mut [u32]) -> u32
    requires { ready ≡ in_form store.old }
    ensures { Exported (on (maysave writer mask))
        store.old store.new out.old out.new result }
{
    if !can_make(ready, out) {
        return turn_down(out);
    }
    lay(out, rights::maysave(store, writer, mask))
}

pub fn fork(store: &mut [u32], ready: bool, run: u32, out: &mut [u32]) -> u32
    requires { ready ≡ in_form store.old }
    ensures { Exported (on (fork run))
        store.old store.new out.old out.new result }
{
    if !can_make(ready, out) {
        return turn_down(out);
    }
    lay(out, fork::fork(store, run))
}

pub fn join(store: &mut [u32], ready: bool, run: u32, out: &mut [u32]) -> u32
    requires { ready ≡ in_form store.old }
    ensures { Exported (on (join run))
        store.old store.new out.old out.new result }
{
    if !can_make(ready, out) {
        return turn_down(out);
    }
    lay(out, fork::join(store, run))
}
