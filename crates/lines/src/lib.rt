// The program's lines: a call read from one.
#![tactic(auto)]

mod table;

ghost use Rattle.std.specs.Prelude.{◌≡◌, ◌≤◌, ◌<◌, length, get_or, take};
ghost use Rattle.std.proofs.Math.Bool.{So};
ghost use Rattle.std.proofs.Math.Option.{some};
ghost use Rattle.command.specs.Commands.{spelled, numbers_end};
ghost use Rattle.lines.specs.Grammar.{max_line, forms, form_at, takes, calling, asked, line_call};

use command::Command;
use table::{command_number, has_count};

// How long a line may be.
#[derive(Clone, Copy)]
pub struct Longest {}

impl Longest {
    // The most bytes of a line that is read.
    pub const LINE: usize = 400;

    // It is that of the definitions.
    pub fn lengths()
        ensures { Longest.LINE ≡ max_line }
    {}
}

// Number i of the first n, and 0 for one that is left out.
fn number_at(numbers: &[u32], n: usize, i: usize) -> u32
    requires { n ≤ length numbers.now }
    ensures { result ≡ get_or (take n numbers.now) i 0 }
{
    if i < n { numbers[i] } else { 0 }
}

// A command after document 01's nine, with the first n of the numbers.
fn later_command(number: usize, numbers: &[u32], n: usize) -> Command
    requires le_number { 9 ≤ number }
    requires so { So (takes (form_at forms number) n) }
    requires n_in_bounds { n ≤ length numbers.now }
    ensures numbers_value { spelled result numbers.now
        ≡ calling (form_at forms number) (take n numbers.now) }
    ensures result_in_bounds { numbers_end result ≤ length numbers.now }
{
    let a = number_at(numbers, n, 0);
    let b = number_at(numbers, n, 1);
    let c = number_at(numbers, n, 2);
    match number {
        9 => Command::Explain(a, b, c),
        10 => Command::Stale(a),
        11 => Command::Admit,
        12 => Command::Allow(a, b),
        13 => Command::Pick,
        14 => Command::Mayhold(a, b),
        15 => Command::Maysave(a, b),
        16 => Command::Fork(a),
        17 => Command::Join(a),
        18 => Command::Forecast(a),
        19 => Command::Audit(0, n),
        _ => Command::Unread,
    }
}

// A command with the first n of the numbers, of which it takes so many. The command's number is
// its row in the table: an enum of the words would say Command's variants once more.
fn command_of(number: usize, numbers: &[u32], n: usize) -> Command
    requires so { So (takes (form_at forms number) n) }
    requires n_in_bounds { n ≤ length numbers.now }
    ensures numbers_value { spelled result numbers.now
        ≡ calling (form_at forms number) (take n numbers.now) }
    ensures result_in_bounds { numbers_end result ≤ length numbers.now }
{
    let a = number_at(numbers, n, 0);
    let b = number_at(numbers, n, 1);
    let c = number_at(numbers, n, 2);
    let d = number_at(numbers, n, 3);
    match number {
        0 => Command::New(a, b, c, d),
        1 => Command::Open(a, 1, n - 1),
        2 => Command::Fetch(a, b),
        3 => Command::Evict(a, b),
        4 => Command::Prepare(a),
        5 => Command::Step(a, b, c),
        6 => Command::Issue(a, b, c),
        7 => Command::Drop(a),
        8 => Command::Look(a, b, c),
        _ => later_command(number, numbers, n),
    }
}

// A command with the first n of the numbers.
fn command_with(number: usize, numbers: &[u32], n: usize) -> Command
    requires { n ≤ length numbers.now }
    ensures numbers_value { spelled result numbers.now
        ≡ asked (form_at forms number) (some (take n numbers.now)) }
    ensures result_in_bounds { numbers_end result ≤ length numbers.now }
{
    if !has_count(number, n) {
        return Command::Unread;
    }
    command_of(number, numbers, n)
}

// The call of a line. Its numbers are left at the front of a buffer that has more words than a
// line has bytes.
pub fn read_line(line: &[u8], numbers: &mut [u32]) -> Command
    requires { max_line < length numbers.old }
    ensures numbers_after { spelled result numbers.new ≡ line_call line.now }
    ensures result_in_bounds { numbers_end result ≤ length numbers.new }
{
    if Longest::LINE < line.len() {
        return Command::Unread;
    }
    let w = text::first_field(line);
    let Some(number) = command_number(&line[0..w]) else {
        return Command::Unread;
    };
    if w == line.len() {
        return command_with(number, numbers, 0);
    }
    let Some(n) = text::numbers(line, w + 1, numbers) else {
        return Command::Unread;
    };
    command_with(number, numbers, n)
}
