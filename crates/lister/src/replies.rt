// The answers to a script's calls, after new.
ghost use Rattle.std.specs.Prelude.{◌≡◌, ◌++◌, map, ◌+◌, ◌*◌, ◌≤◌, ◌<◌, length, take};
ghost use Rattle.std.proofs.Math.Bool.{So};
ghost use Rattle.answers.specs.Answers.{answer_room};
ghost use Rattle.model.specs.Outcome.{answer};
ghost use Rattle.layout.specs.Buffer.{in_form};
ghost use Rattle.layout.specs.Calls.{on, call_on, leaves, outcomes};
ghost use Rattle.print.specs.Print.{body_room, answer_body};
ghost use Rattle.listing.specs.Lines.{desk_room, desk_in, joined};
ghost use Rattle.lister.specs.Numbered.{call_at, longest, words_room, reply_room};

use super::small::{put_joint, small_at};

// `new 2 2 2 1`.
pub fn start(store: &mut [u32], reply: &mut [u32])
    requires { (desk_room ≤ length store.old) × (answer_room ≤ length reply.old) }
    ensures store_after { store.new ≡ desk_in store.old }
    ensures so { So (in_form store.new) }
{
    calls::first::new(store, 2, 2, 2, 1, reply);
}

// Makes call i, and puts its answer.
fn put_reply(
    out: &mut [u8],
    at: usize,
    store: &mut [u32],
    i: u32,
    words: &mut [u32],
    reply: &mut [u32],
) -> usize
    requires body_room_in_bounds { (at + body_room ≤ length out.old) × So (in_form store.old) }
    requires words_room_in_bounds { (words_room ≤ length words.old) ×
        (answer_room ≤ length reply.old) }
    ensures upper_bound { (result ≤ at + body_room) × (take result out.new ≡ take at out.old
        ++ answer_body (answer (call_on (on (call_at i)) store.old))) }
    ensures store_after { (store.new
        ≡ leaves (call_on (on (call_at i)) store.old) store.old)
        × So (in_form store.new) }
{
    let small = small_at(i, words);
    let made = calls::perform(store, true, small.command, words, reply);
    print::put_answer(out, at, &reply[..made.count])
}

// Makes the calls of a script, and puts their answers, joined. One function over a closure for
// this and `put_calls` is no plainer: its contract would have to take the desk from call to call.
pub fn put_replies(
    out: &mut [u8],
    at: usize,
    store: &mut [u32],
    digits: &[u32],
    words: &mut [u32],
    reply: &mut [u32],
) -> usize
    requires digits_nonzero { (0 < length digits.now)
        × (at + reply_room * length digits.now ≤ length out.old) }
    requires digits_len_bound { (length digits.now ≤ longest) × So (in_form store.old) }
    requires words_room_in_bounds { (words_room ≤ length words.old) ×
        (answer_room ≤ length reply.old) }
    ensures { (result ≤ at + reply_room * length digits.now)
        × (take result out.new ≡ take at out.old
        ++ joined (map answer_body (map answer
        (outcomes (map on (map call_at digits.now)) store.old)))) }
{
    let mut end = put_reply(out, at, store, digits[0], words, reply);
    for digit in &digits[1..] {
        let start = put_joint(out, end);
        end = put_reply(out, start, store, *digit, words, reply);
    }
    end
}
