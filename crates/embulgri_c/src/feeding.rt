// Feeding a stream, for programs in C, Rust and Python: a reader is sixteen numbers (RULES.md, 14).
ghost use Rattle.std.specs.Prelude.{◌≡◌};
ghost use Rattle.stream.specs.Feed.{start as started};
ghost use Rattle.stream.specs.Lent.{at_entry, at_exit};
ghost use Rattle.page_end.specs.End.{end_at};
ghost use Rattle.feed_numbers.specs.Numbers.{numbers_of};
ghost use Rattle.feed_pages.specs.Answers.{told_stop};
ghost use Rattle.feed_pages.specs.State.{run_from};
ghost use Rattle.embulgri.specs.Feeding.{OpenedIn, page_record, FedIn, end_number, why_number, refusal_number, PagesIn};

// Into `state`: a reader that waits for the first page of a stream (RULES.md, 7; embulgri.h). It returns nothing and refuses
// nothing. Example: it stores sixteen zeros.
#[unsafe(no_mangle)]
pub extern "C" fn embulgri_start(state: &mut [u64; 16])
    ensures { state.new ≡ numbers_of started }
{
    embulgri::feeding::embulgri_start(state);
}

// Into `state`: a reader that waits for any audio page of a stream with this identification header. Returns 23 or 0
// (RULES.md, 9; embulgri.h).
// Example: the numbers 1, 2, 312, 48000, 0, 0, 1, 1 with the places 0, 1 and zeros store 3, 0, 0, 1, 0, 0, 0, 1, 312 and
// seven zeros.
#[unsafe(no_mangle)]
pub extern "C" fn embulgri_open(
    fields: &[u64; 8],
    mapping: &[u8; 255],
    state: &mut [u64; 16],
) -> u32
    ensures { OpenedIn fields.now mapping.now result state.old state.new }
{
    embulgri::feeding::embulgri_open(fields, mapping, state)
}

// Feeds one page. Into `state`: the next reader. Into `ends`, `lengths`, `kept` and `frames`: the packets that complete on the
// page. Into `out`: the page's own record, in the order of `page_record`. Returns 1 to 19, or 0; under 12 to 19 the carry buffer
// may change (RULES.md, 7; embulgri.h).
// Example: after the headers of a stream with pre-skip 312, a page of three packets of 960 samples with granule position
// 2880 stores 3, 2880, 2568, 312, 0, 0 into `out`.
#[unsafe(no_mangle)]
pub extern "C" fn embulgri_feed(
    state: &mut [u64; 16],
    page: &[u8],
    carry: &mut [u8],
    ends: &mut [u64],
    lengths: &mut [u64],
    kept: &mut [u64],
    frames: &mut [u64],
    out: &mut [u64; 6],
) -> u32
    ensures { FedIn state.old page.now (at_entry carry ends lengths kept frames) result
        state.new (at_exit carry ends lengths kept frames) out.old out.new }
{
    embulgri::feeding::embulgri_feed(state, page, carry, ends, lengths, kept, frames, out)
}

// Returns the place after the page that starts at place `at` of the bytes, or 0 where it is not whole there (RULES.md, 3;
// embulgri.h). It stores nothing and refuses nothing.
// Example: of "OggS" and 23 zero bytes, `at` 0 returns 27; of the first 26 of them it returns 0.
#[unsafe(no_mangle)]
pub extern "C" fn embulgri_page_end(bytes: &[u8], at: u64) -> u64
    ensures { result ≡ end_number (end_at bytes.now at) }
{
    embulgri::feeding::embulgri_page_end(bytes, at)
}

// Feeds the pages of the bytes one by one, each as embulgri_feed would, with the parts of the lists past the places already
// filled. Into `out`, under every outcome: the bytes, the number and the packets of the pages accepted, and why it stopped, by
// `why_number`. Into `state`: the reader after them. Returns 1 to 19 of the page that is refused, or 0 (RULES.md, 7; embulgri.h).
// Example: the two header pages of a stream, of 47 and 44 bytes, and nothing after them store 91, 2, 0, 0 into `out`.
#[unsafe(no_mangle)]
pub extern "C" fn embulgri_feed_pages(
    state: &mut [u64; 16],
    bytes: &[u8],
    carry: &mut [u8],
    ends: &mut [u64],
    lengths: &mut [u64],
    kept: &mut [u64],
    frames: &mut [u64],
    out: &mut [u64; 4],
) -> u32
    ensures { PagesIn (run_from state.old (at_entry carry ends lengths kept frames) bytes.now)
        result state.old state.new (at_exit carry ends lengths kept frames) out.new }
{
    embulgri::feeding::embulgri_feed_pages(state, bytes, carry, ends, lengths, kept, frames, out)
}
