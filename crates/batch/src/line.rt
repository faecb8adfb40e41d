// A line of a text: where it ends, its call, and its answer.
ghost use Rattle.std.specs.Prelude.{◌≡◌, ◌+◌, ◌≤◌, length, take, drop};
ghost use Rattle.answers.specs.Answers.{answer_room};
ghost use Rattle.layout.specs.Buffer.{in_form};
ghost use Rattle.print.specs.Print.{line_room};
ghost use Rattle.command.specs.Commands.{spelled, numbers_end};
ghost use Rattle.calls.specs.Performs.{Performs};
ghost use Rattle.batch.specs.Lent.{forecast_of, lent_call, scratch_leaves};
ghost use Rattle.batch.specs.Parts.{end_of, Lends, DoesLine};

use calls::forecasts::forecast;
use calls::{Performed, perform};
use command::Command;
use script::ends::print_words;

// After a line. ready: the buffer is in form. end: bytes of answers.
#[derive(Clone, Copy)]
pub struct Done {
    pub ready: bool,
    pub end: usize,
}

// Where the first line end stands from index at on; the text's length where there is none.
pub fn line_end(text: &[u8], at: usize) -> usize
    requires { at ≤ length text.now }
    ensures { (result ≤ length text.now)
        × (result ≡ at + end_of (drop at text.now)) }
{
    at + text::bytes_before(&text[at..], b'\n')
}

// Makes the call of a command; a forecast on the scratch that is lent.
fn perform_lent(
    store: &mut [u32],
    ready: bool,
    scratch: &mut [u32],
    command: Command,
    numbers: &[u32],
    answer: &mut [u32],
) -> Performed
    requires ready_value { ready ≡ in_form store.old }
    requires command_in_bounds { numbers_end command ≤ length numbers.now }
    requires answer_room_in_bounds { answer_room ≤ length answer.old }
    ensures performs { Performs
        (lent_call (length scratch.old) (spelled command numbers.now))
        store.old store.new answer.old answer.new result }
    ensures scratch_after { scratch.new ≡ scratch_leaves
        (forecast_of (spelled command numbers.now)) store.old
        scratch.old }
{
    match command {
        Command::Forecast(run) => {
            let n = forecast(store, ready, scratch, run, answer);
            Performed {
                ready,
                count: n as usize,
            }
        }
        _ => perform(store, ready, command, numbers, answer),
    }
}

// A line of any length: read, performed, answered after the first at bytes of out. The answer is
// made in row, so that no byte behind it is written.
pub fn line_done(
    store: &mut [u32],
    ready: bool,
    scratch: &mut [u32],
    line: &[u8],
    numbers: &mut [u32],
    answer: &mut [u32],
    row: &mut [u8],
    out: &mut [u8],
    at: usize,
) -> Done
    requires ready_value { ready ≡ in_form store.old }
    requires lends { Lends numbers.old answer.old row.old }
    requires line_room_in_bounds { at + line_room ≤ length out.old }
    ensures ready_value_2 { result.ready ≡ in_form store.new }
    ensures does_line { DoesLine line.now store.old store.new
        scratch.old scratch.new
        (take at out.old) (take result.end out.new) }
    ensures at_le_end { (at ≤ result.end) × (result.end ≤ at + line_room)
        × (drop result.end out.new ≡ drop result.end out.old) }
{
    let command = lines::read_line(line, numbers);
    let made = perform_lent(store, ready, scratch, command, numbers, answer);
    let n = print_words(row, 0, answer, made.count);
    let end = text::put_bytes(out, at, &row[..n]);
    Done {
        ready: made.ready,
        end,
    }
}
