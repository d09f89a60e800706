// For the program `embulgri` alone, in a library of its own: feeding has one caller here, and is compiled into the loop over the
// pages. The library `embulgri` has two callers of it, and so the loop calls it for each page.
#![tactic(auto)]

ghost use Rattle.stream.specs.Lent.{at_entry, at_exit};
ghost use Rattle.feed_pages.specs.State.{run_from};
ghost use Rattle.embulgri.specs.Feeding.{PagesIn};

// The same as embulgri_feed_pages (RULES.md, 7; embulgri.h). Returns 1 to 19 of the page that is refused, or 0.
// Example: the two header pages of a stream, of 47 and 44 bytes, and nothing after them store 91, 2, 0, 0 into `out`.
#[unsafe(no_mangle)]
pub extern "C" fn embulgri_program_feed(
    state: &mut [u64; 16],
    bytes: &[u8],
    carry: &mut [u8],
    ends: &mut [u64],
    lengths: &mut [u64],
    kept: &mut [u64],
    frames: &mut [u64],
    out: &mut [u64; 4],
) -> u32
    ensures { PagesIn (run_from state.old (at_entry carry ends lengths kept frames) bytes.now)
        result state.old state.new (at_exit carry ends lengths kept frames) out.new }
{
    embulgri::feeding::embulgri_feed_pages(state, bytes, carry, ends, lengths, kept, frames, out)
}
