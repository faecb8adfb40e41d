// A text of calls, a line each.
ghost use Rattle.batch.specs.Batch.{DoesText};

// Takes whole lines from the front of the text, each while out has 384 bytes behind the answers
// before it, and puts their answers at its front. A forecast is lent the scratch. The first two
// counts become the bytes of text taken and of answers put, and 2 is answered; with fewer than two
// counts nothing is done, and 0 is answered. The slices may not overlap.
#[unsafe(no_mangle)]
pub extern "C" fn sheetdesk_script(
    store: &mut [u32],
    text: &[u8],
    out: &mut [u8],
    scratch: &mut [u32],
    counts: &mut [usize],
) -> u32
    ensures { DoesText text.now store.old store.new
        scratch.old scratch.new out.old out.new
        counts.old counts.new result }
{
    batch::make_text(store, text, out, scratch, counts)
}
