// Feeding a stream, for programs in C, Rust and Python: a reader is sixteen numbers (RULES.md, 14).
ghost use Rattle.std.specs.Prelude.{◌≡◌};
ghost use Rattle.stream.specs.Feed.{start as started};
ghost use Rattle.stream.specs.Lent.{at_entry, at_exit};
ghost use Rattle.page_end.specs.End.{end_at};
ghost use Rattle.feed_numbers.specs.Numbers.{numbers_of};
ghost use Rattle.feed_pages.specs.Answers.{told_stop};
ghost use Rattle.feed_pages.specs.State.{run_from};
ghost use Rattle.embulgri.specs.Feeding.{OpenedIn, page_record, FedIn, end_number, why_number, refusal_number, PagesIn};

use feed_pages::Stop;
use refusal::Refusal;
use stream::Counts;

// Into `state`: a reader that waits for the first page of a stream (RULES.md, 7; embulgri.h). It returns nothing and refuses
// nothing. Example: it stores sixteen zeros.
pub fn embulgri_start(state: &mut [u64; 16])
    ensures { state.new ≡ numbers_of started }
{
    *state = reader::start_state();
}

// Into `state`: a reader that waits for any audio page of a stream with this identification header. Returns 23 or 0
// (RULES.md, 9; embulgri.h).
// Example: the numbers 1, 2, 312, 48000, 0, 0, 1, 1 with the places 0, 1 and zeros store 3, 0, 0, 1, 0, 0, 0, 1, 312 and
// seven zeros.
pub fn embulgri_open(fields: &[u64; 8], mapping: &[u8; 255], state: &mut [u64; 16]) -> u32
    ensures { OpenedIn fields.now mapping.now result state.old state.new }
{
    if !head_numbers::numbers_fit(fields) {
        return refusal::number(Refusal::UnfitFields) as u32;
    }
    match reader::open_state(head_numbers::head_of(fields, mapping), state) {
        Ok(()) => 0,
        Err(why) => refusal::number(why) as u32,
    }
}

// Packets listed, their samples, how many of these are kept, skipped and trimmed, and the hole before them.
fn page_record(c: Counts) -> [u64; 6]
    ensures { result ≡ page_record c }
{
    [c.packets, c.samples, c.kept, c.skipped, c.trimmed, c.hole]
}

// Feeds one page. Into `state`: the next reader. Into `ends`, `lengths`, `kept` and `frames`: the packets that complete on the
// page. Into `out`: the page's own record, in the order of `page_record`. Returns 1 to 19, or 0; under 12 to 19 the carry buffer
// may change (RULES.md, 7; embulgri.h).
// Example: after the headers of a stream with pre-skip 312, a page of three packets of 960 samples with granule position
// 2880 stores 3, 2880, 2568, 312, 0, 0 into `out`.
pub fn embulgri_feed(
    state: &mut [u64; 16],
    page: &[u8],
    carry: &mut [u8],
    ends: &mut [u64],
    lengths: &mut [u64],
    kept: &mut [u64],
    frames: &mut [u64],
    out: &mut [u64; 6],
) -> u32
    ensures { FedIn state.old page.now (at_entry carry ends lengths kept frames) result
        state.new (at_exit carry ends lengths kept frames) out.old out.new }
{
    match reader::feed_state(state, page, carry, ends, lengths, kept, frames) {
        Ok(counts) => {
            *out = page_record(counts);
            0
        }
        Err(why) => refusal::number(why) as u32,
    }
}

// Returns the place after the page that starts at place `at` of the bytes, or 0 where it is not whole there (RULES.md, 3;
// embulgri.h). It stores nothing and refuses nothing.
// Example: of "OggS" and 23 zero bytes, `at` 0 returns 27; of the first 26 of them it returns 0.
pub fn embulgri_page_end(bytes: &[u8], at: u64) -> u64
    ensures { result ≡ end_number (end_at bytes.now at) }
{
    match page_end::end_at(bytes, at as usize) {
        Some(end) => end as u64,
        None => 0,
    }
}

fn why_number(stop: Stop) -> u64
    ensures { result ≡ why_number (told_stop stop) }
{
    match stop {
        Stop::Cut => 0,
        Stop::Full => 1,
        Stop::Refused(_) => 2,
    }
}

fn refusal_number(stop: Stop) -> u32
    ensures { result ≡ refusal_number (told_stop stop) }
{
    match stop {
        Stop::Cut => 0,
        Stop::Full => 0,
        Stop::Refused(why) => refusal::number(why) as u32,
    }
}

// Feeds the pages of the bytes one by one, each as embulgri_feed would, with the parts of the lists past the places already
// filled. Into `out`, under every outcome: the bytes, the number and the packets of the pages accepted, and why it stopped, by
// `why_number`. Into `state`: the reader after them. Returns 1 to 19 of the page that is refused, or 0 (RULES.md, 7; embulgri.h).
// Example: the two header pages of a stream, of 47 and 44 bytes, and nothing after them store 91, 2, 0, 0 into `out`.
pub fn embulgri_feed_pages(
    state: &mut [u64; 16],
    bytes: &[u8],
    carry: &mut [u8],
    ends: &mut [u64],
    lengths: &mut [u64],
    kept: &mut [u64],
    frames: &mut [u64],
    out: &mut [u64; 4],
) -> u32
    ensures { PagesIn (run_from state.old (at_entry carry ends lengths kept frames) bytes.now)
        result state.old state.new (at_exit carry ends lengths kept frames) out.new }
{
    let fed = feed_pages::feed_state_pages(state, bytes, carry, ends, lengths, kept, frames);
    let stop = fed.stop;
    *out = [
        fed.bytes as u64,
        fed.pages as u64,
        fed.packets as u64,
        why_number(stop),
    ];
    refusal_number(stop)
}
