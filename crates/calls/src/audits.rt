// Audit (CR 14), the one call that needs no desk.
ghost use Rattle.calls.specs.Performs.{Audits};

use crate::laying::lay;
use answers::Room;

pub fn audit(words: &[u32], out: &mut [u32]) -> u32
    ensures { Audits words.now out.old out.new result }
{
    if out.len() < Room::ANSWER {
        return 0;
    }
    lay(out, audit::audit(words))
}
