// The one way to make a call, on any buffer: its answer's words are laid over a lent slice. The
// exports test whether the buffer is in form (`ready`), the program knows it from the call before.
#![tactic(auto)]

pub mod audits;
pub mod first;
pub mod forecasts;
pub mod later;
mod laying;

ghost use Rattle.std.specs.Prelude.{◌≡◌, ◌≤◌, length};
ghost use Rattle.answers.specs.Answers.{answer_room};
ghost use Rattle.layout.specs.Buffer.{in_form};
ghost use Rattle.command.specs.Commands.{spelled, numbers_end};
ghost use Rattle.calls.specs.Performs.{TellsNew, MadeOf, Performs};

use audits::audit;
use command::Command;
use first::{drop, evict, fetch, issue, look, new, open, prepare, step};
use forecasts::forecast_alone;
use later::{admit, allow, explain, fork, join, mayhold, maysave, pick, stale};

// Whether the buffer is in form after a call, and how many words its answer has.
#[derive(Clone, Copy)]
pub struct Performed {
    pub ready: bool,
    pub count: usize,
}

// Makes the call of a command.
fn make(store: &mut [u32], ready: bool, command: Command, numbers: &[u32], out: &mut [u32]) -> u32
    requires ready_value { ready ≡ in_form store.old }
    requires command_in_bounds { numbers_end command ≤ length numbers.now }
    requires answer_room_in_bounds { answer_room ≤ length out.old }
    ensures { MadeOf command numbers.now store.old
        store.new out.old out.new result }
{
    match command {
        Command::Unread => 0,
        Command::New(k, w, n, p) => new(store, k, w, n, p, out),
        Command::Open(r, i, n) => open(store, ready, r, &numbers[i..i + n], out),
        Command::Fetch(o, k) => fetch(store, ready, o, k, out),
        Command::Evict(o, k) => evict(store, ready, o, k, out),
        Command::Prepare(r) => prepare(store, ready, r, out),
        Command::Step(r, j, n) => step(store, ready, r, j, n, out),
        Command::Issue(r, w, m) => issue(store, ready, r, w, m, out),
        Command::Drop(r) => drop(store, ready, r, out),
        Command::Look(p, i, k) => look(store, ready, p, i, k, out),
        Command::Explain(r, j, n) => explain(store, ready, r, j, n, out),
        Command::Stale(o) => stale(store, ready, o, out),
        Command::Admit => admit(store, ready, out),
        Command::Allow(o, n) => allow(store, ready, o, n, out),
        Command::Pick => pick(store, ready, out),
        Command::Mayhold(o, m) => mayhold(store, ready, o, m, out),
        Command::Maysave(w, m) => maysave(store, ready, w, m, out),
        Command::Fork(r) => fork(store, ready, r, out),
        Command::Join(r) => join(store, ready, r, out),
        Command::Forecast(r) => forecast_alone(store, ready, r, out),
        Command::Audit(i, n) => audit(&numbers[i..i + n], out),
    }
}

// Whether a command is new.
fn is_new(command: Command) -> bool
    ensures { TellsNew command result }
{
    match command {
        Command::New(_, _, _, _) => true,
        _ => false,
    }
}

// Makes the call of a command on a buffer of which it is known whether it is in form: this is the
// program's way, which tests no buffer. New alone makes a buffer in form of one that isn't.
pub fn perform(
    store: &mut [u32],
    ready: bool,
    command: Command,
    numbers: &[u32],
    answer: &mut [u32],
) -> Performed
    requires ready_value { ready ≡ in_form store.old }
    requires command_in_bounds { numbers_end command ≤ length numbers.now }
    requires answer_room_in_bounds { answer_room ≤ length answer.old }
    ensures { Performs (spelled command numbers.now) store.old
        store.new answer.old answer.new result }
{
    let count = make(store, ready, command, numbers, answer) as usize;
    let accepted = (0 < count) & (answer[0] == 0);
    Performed {
        ready: ready | (is_new(command) & accepted),
        count,
    }
}
