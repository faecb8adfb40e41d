// The words of an explanation in an answer slice.
ghost use Rattle.std.specs.Prelude.{◌∷◌, ◌≤◌, length};
ghost use Rattle.words.specs.Lists.{window};
ghost use Rattle.model.specs.Calls.Explain.{path_word};
ghost use Rattle.answers.specs.Answers.{answer_room, Lays};
ghost use Rattle.explain.specs.Answers.{explained_words, Listed};

use answers::refusal::Refusal;
use answers::{put_one, put_two};
use paths::ItemPath;
use words::copy_from;

// The word of a path, and its keys.
fn put_path(answer: &mut [u32], keys: &[u32], n: usize) -> usize
    requires n_in_bounds { (n ≤ length keys.now) × (n ≤ 32) }
    requires answer_room_in_bounds { answer_room ≤ length answer.old }
    ensures { Lays (path_word ∷ window keys.now 0 n)
        answer.old answer.new result }
{
    let one = put_one(answer, 4);
    copy_from(answer, one, keys, 0, n);
    one + n
}

// The words of an explanation, laid over an answer slice.
#[tactic(auto, unfolding(crate::specs::Answers::explained_words, crate::specs::Answers::Listed))]
pub fn put_explained(answer: &mut [u32], r: Result<Option<ItemPath>, Refusal>) -> usize
    requires answer_room_in_bounds { answer_room ≤ length answer.old }
    requires listed { Listed r }
    ensures { Lays (explained_words r) answer.old answer.new result }
{
    match r {
        Ok(None) => put_one(answer, 3),
        Ok(Some(path)) => put_path(answer, &path.items, path.count),
        Err(refusal) => put_two(answer, 2, u32::from(refusal)),
    }
}
