// What every call does: it is made or not, and the words of its answer are laid.
ghost use Rattle.std.specs.Prelude.{◌≡◌, ◌&&◌, ◌≤◌, ◌<◌, leb, length};
ghost use Rattle.answers.specs.Answers.{max_answer, answer_room, Lays, result_words};
ghost use Rattle.calls.specs.Performs.{TurnedDown};

use answers::refusal::Refusal;
use answers::{Answer, Room, put_result};

// A count of words, in fewer bits.
pub fn narrow(n: usize) -> u32
    requires { n < 4294967296 }
    ensures { result ≡ n }
{
    n as u32
}

// Whether a call can be made: the buffer is in form, and the answer slice has room.
pub fn can_make(ready: bool, out: &[u32]) -> bool
    ensures { result ≡ ready && leb answer_room (length out.now) }
{
    ready & (Room::ANSWER <= out.len())
}

// Refused with 1, if the answer slice has room for it.
pub fn turn_down(out: &mut [u32]) -> u32
    ensures { TurnedDown out.old out.new result }
{
    if out.len() < Room::ANSWER {
        return 0;
    }
    lay::<u32>(out, Err(Refusal::NotInForm))
}

// The words of an answer, or of a refusal.
pub fn lay<A: Answer>(out: &mut [u32], r: Result<A, Refusal>) -> u32
    requires { answer_room ≤ length out.old }
    ensures laid { Lays (result_words A.words r) out.old out.new result }
    ensures few { result ≤ max_answer }
{
    let n = put_result(out, r);
    narrow(n)
}
