// The answers of the calls as words: 0 ok, 1 broken, 2 refused, then the numbers that the text
// prints. They are laid over the front of a lent slice, and the slice's other words stay.
#![tactic(auto)]

pub mod refusal;

ghost use Rattle.std.specs.Prelude.{◌≡◌, [], ◌∷◌, ◌≤◌, length, List, ℕ};
ghost use Rattle.answers.specs.Answers.{max_answer, answer_room, Lays, done_words, result_words};
ghost use Rattle.answers.specs.Few.{few-done};

use refusal::Refusal;

// How much room an answer needs.
#[derive(Clone, Copy)]
pub struct Room {}

impl Room {
    // The least number of words of a lent answer slice.
    pub const ANSWER: usize = 40;

    // It is that of the definitions.
    pub fn rooms()
        ensures { Room.ANSWER ≡ answer_room }
    {}
}

// A first word alone.
pub fn put_one(answer: &mut [u32], word: u32) -> usize
    requires { answer_room ≤ length answer.old }
    ensures { Lays (word ∷ []) answer.old answer.new result }
{
    answer[0] = word;
    1
}

// A first word and one number.
pub fn put_two(answer: &mut [u32], first: u32, number: u32) -> usize
    requires { answer_room ≤ length answer.old }
    ensures { Lays (first ∷ number ∷ []) answer.old answer.new result }
{
    answer[0] = first;
    answer[1] = number;
    2
}

// A first word and two numbers.
pub fn put_three(answer: &mut [u32], first: u32, a: u32, b: u32) -> usize
    requires { answer_room ≤ length answer.old }
    ensures { Lays (first ∷ a ∷ b ∷ []) answer.old answer.new result }
{
    let two = put_two(answer, first, a);
    answer[two] = b;
    two + 1
}

// What a call answers when it isn't refused.
pub trait Answer {
    // Its words: the outcome's, then the numbers.
    ghost words: { Self → List ℕ };

    // Puts them.
    fn put(self, answer: &mut [u32]) -> usize
        requires { answer_room ≤ length answer.old }
        ensures { Lays (words self) answer.old answer.new result };

    // They are no more than an answer has.
    ghost few: { (x : Self) → length (words x) ≤ max_answer };
}

// A number alone.
impl Answer for u32 {
    ghost words = { done_words };

    fn put(self, answer: &mut [u32]) -> usize {
        put_two(answer, 0, self)
    }

    ghost few = { few-done };
}

// An answer, or the cause for which the call is refused.
pub fn put_result<A: Answer>(answer: &mut [u32], r: Result<A, Refusal>) -> usize
    requires { answer_room ≤ length answer.old }
    ensures { Lays (result_words A.words r) answer.old answer.new result }
{
    match r {
        Ok(answered) => answered.put(answer),
        Err(refusal) => put_two(answer, 2, u32::from(refusal)),
    }
}
