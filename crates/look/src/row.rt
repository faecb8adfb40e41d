// The words of a version that a look answers: its issue number, its mask of leading writers, a row
// of counts, and a standing.
ghost use Rattle.std.specs.Prelude.{[], ◌∷◌, ◌+◌, ◌≤◌, length};
ghost use Rattle.answers.specs.Answers.{answer_room, Lays};
ghost use Rattle.sizes.specs.Bounds.{max_writers};
ghost use Rattle.look.specs.Answer.{seen};

use crate::Looked;
use answers::put_three;
use numbers::IssueNumber;
use words::copy_from;

// An outcome, an issue number and a mask of leading writers.
fn put_front(answer: &mut [u32], issue: IssueNumber, leaders: u32) -> usize
    requires { answer_room ≤ length answer.old }
    ensures { Lays (0 ∷ issue.0 ∷ leaders ∷ [])
        answer.old answer.new result }
{
    put_three(answer, 0, u32::from(issue), leaders)
}

// What a look shows: an issue number, a mask of leading writers, a row of counts, and a standing.
pub fn put_version(answer: &mut [u32], store: &[u32], looked: Looked) -> usize
    requires n_in_bounds { (looked.row + looked.counts ≤ length store.now)
        × (looked.counts ≤ max_writers) }
    requires answer_room_in_bounds { answer_room ≤ length answer.old }
    ensures { Lays (seen store.now looked) answer.old answer.new result }
{
    let n = looked.counts;
    let front = put_front(answer, looked.issue, looked.leaders);
    copy_from(answer, front, store, looked.row, n);
    answer[front + n] = u32::from(looked.standing);
    front + n + 1
}
