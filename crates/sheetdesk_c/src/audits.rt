// Audit (CR 14), which needs no desk.
ghost use Rattle.calls.specs.Performs.{Audits};

#[unsafe(no_mangle)]
pub extern "C" fn sheetdesk_audit(words: &[u32], out: &mut [u32]) -> u32
    ensures { Audits words.now out.old out.new result }
{
    calls::audits::audit(words, out)
}
