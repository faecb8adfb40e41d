// Which state of its run a call needs: one table, and one test that the eight calls share.
#![tactic(auto)]

ghost use Rattle.std.specs.Prelude.{◌≡◌, ◌<◌};
ghost use Rattle.states.specs.Rows.{row_number};
ghost use Rattle.model.specs.Store.{forked_mark, joined_mark};
ghost use Rattle.model.specs.Outcome.{allowed, free_state, open_state, broken_state, open_row_of, prepare_row, step_row, issue_row, drop_row, fork_row, join_row, forecast_row};

// The calls that ask for a state: each has its row of the table.
#[derive(Clone, Copy, PartialEq, Eq, Debug)]
pub enum Row {
    Open = 0,
    Prepare = 1,
    Step = 2,
    Issue = 3,
    Drop = 4,
    Fork = 5,
    Join = 6,
    Forecast = 7,
}

impl From<Row> for u32 {
    // The row's number.
    fn from(row: Row) -> u32
        ensures number { result ≡ row_number row }
        ensures bound { result < 8 }
    {
        row as u32
    }
}

// The states of a run, in the order of the table's columns. They and the marks are plain numbers,
// since they are words of a buffer that other programs write too.
pub const FREE_STATE: u32 = 0;

pub const OPEN_STATE: u32 = 1;

pub const BROKEN_STATE: u32 = 2;

// The marks of a run (CR 10): 0 if it was never forked.
pub const FORKED_MARK: u32 = 1;

pub const JOINED_MARK: u32 = 2;

// Three numbers for each call, in the order above. 1: allowed.
const ALLOWED: [u8; 24] = [
    1, // open, free
    0, // open, open
    0, // open, broken
    0, // prepare, free
    1, // prepare, open
    0, // prepare, broken
    0, // step, free
    1, // step, open
    0, // step, broken
    0, // issue, free
    1, // issue, open
    0, // issue, broken
    0, // drop, free
    1, // drop, open
    1, // drop, broken
    0, // fork, free
    1, // fork, open
    0, // fork, broken
    0, // join, free
    1, // join, open
    0, // join, broken
    0, // forecast, free
    1, // forecast, open
    0, // forecast, broken
];

// May the call be made on a run in this state?
pub fn is_allowed(row: Row, state: u32) -> bool
    requires { state < 3 }
    ensures { result ≡ allowed (row_number row) state }
{
    let at = (u32::from(row) * 3 + state) as usize;
    ALLOWED[at] == 1
}

// The rows, states and marks above are those of the definitions; u32::from gives a row's number.
pub fn numbers()
    ensures open { row_number Row.Open ≡ open_row_of }
    ensures prepare { row_number Row.Prepare ≡ prepare_row }
    ensures step { row_number Row.Step ≡ step_row }
    ensures issue { row_number Row.Issue ≡ issue_row }
    ensures drop { row_number Row.Drop ≡ drop_row }
    ensures fork { row_number Row.Fork ≡ fork_row }
    ensures join { row_number Row.Join ≡ join_row }
    ensures forecast { row_number Row.Forecast ≡ forecast_row }
    ensures free_state { FREE_STATE ≡ free_state }
    ensures open_state { OPEN_STATE ≡ open_state }
    ensures broken_state { BROKEN_STATE ≡ broken_state }
    ensures forked_mark { FORKED_MARK ≡ forked_mark }
    ensures joined_mark { JOINED_MARK ≡ joined_mark }
{}
