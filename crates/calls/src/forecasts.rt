// Forecast (CR 12), the one call that is lent a second buffer to write.
ghost use Rattle.std.specs.Prelude.{◌≡◌, length};
ghost use Rattle.model.specs.Calls.{forecast, ask};
ghost use Rattle.layout.specs.Buffer.{in_form};
ghost use Rattle.layout.specs.Calls.{on};
ghost use Rattle.command.specs.Commands.{scratch_room};
ghost use Rattle.calls.specs.Performs.{Exported, scratch_after};

use crate::laying::{can_make, lay, turn_down};

pub fn forecast(store: &[u32], ready: bool, scratch: &mut [u32], run: u32, out: &mut [u32]) -> u32
    requires { ready ≡ in_form store.now }
    ensures answers { Exported (on (ask (forecast (length scratch.old) run)))
        store.now store.now out.old out.new result }
    ensures leaves { scratch.new ≡ scratch_after
        store.now scratch.old run out.old }
{
    if !can_make(ready, out) {
        return turn_down(out);
    }
    lay(out, forecast::forecast(store, scratch, run))
}

// With a scratch of its own, which nobody sees.
pub fn forecast_alone(store: &[u32], ready: bool, run: u32, out: &mut [u32]) -> u32
    requires { ready ≡ in_form store.now }
    ensures { Exported (on (ask (forecast scratch_room run)))
        store.now store.now out.old out.new result }
{
    let mut scratch = [0u32; 16384];
    forecast(store, ready, &mut scratch, run, out)
}
