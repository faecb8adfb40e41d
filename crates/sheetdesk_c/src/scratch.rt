// Forecast (CR 12), which is lent a second buffer to write.
ghost use Rattle.std.specs.Prelude.{◌≡◌, length};
ghost use Rattle.model.specs.Calls.{forecast, ask};
ghost use Rattle.layout.specs.Calls.{on};
ghost use Rattle.calls.specs.Performs.{Exported, scratch_after};

use form::in_form;

// The scratch becomes the desk as the steps would leave it, and its words past the total stay;
// where the forecast is refused or the answer slice is too short, all of it stays. The three
// slices may not overlap.
#[unsafe(no_mangle)]
pub extern "C" fn sheetdesk_forecast(
    store: &[u32],
    scratch: &mut [u32],
    run: u32,
    out: &mut [u32],
) -> u32
    ensures answers { Exported (on (ask (forecast (length scratch.old) run)))
        store.now store.now out.old out.new result }
    ensures leaves { scratch.new ≡ scratch_after
        store.now scratch.old run out.old }
{
    calls::forecasts::forecast(store, in_form(store), scratch, run, out)
}
