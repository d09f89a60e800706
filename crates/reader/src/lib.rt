// A reader of one Opus stream: starting, opening part way, and feeding one page at a time.
#![tactic(auto)]

ghost use Rattle.std.specs.Prelude.{◌≡◌};
ghost use Rattle.stream.specs.State.{in_headers, is_ended};
ghost use Rattle.page_crc.specs.Crc.{page_crc};
ghost use Rattle.page_crc_tables.specs.Table.{entry_in};
ghost use Rattle.page_crc.specs.Sliced.{page_sliced};
ghost use Rattle.stream.specs.Readings.{readings};
ghost use Rattle.stream.specs.Lent.{Lent, at_entry, at_exit};
ghost use Rattle.stream.specs.Feed.{start as started, open_part_way, Fed as Outcome, FedIs, Feeds, told_page};
ghost use Rattle.stream.specs.Feedings.{held_of};
ghost use Rattle.feed_numbers.specs.Numbers.{reader_from, StandFor};
ghost use Rattle.reader.specs.Answers.{known_as, told_opened, told_fed, totals_of};
ghost use Rattle.reader.specs.Numbers.{StateOpenedIs, StateFedIs, StateFeeds};

use granule::Position;
use head_fields::Head;
use refusal::Refusal;
use stream::{Core, Counts, PageFed, Tally};

// A reader comes only from starting, opening, feeding and sixteen numbers.
#[derive(Clone, Copy)]
pub struct Reader {
    core: Core,
    tally: Tally,
}

// What a reader has counted on the pages that it accepted, in samples: kept, skipped and trimmed ones, and the holes.
#[derive(Clone, Copy)]
pub struct SampleTotals {
    pub kept: u64,
    pub skipped: u64,
    pub trimmed: u64,
    pub hole: u64,
}

// The next reader, and the page's own record.
#[derive(Clone, Copy)]
pub struct Fed {
    pub reader: Reader,
    pub counts: Counts,
}

// ---- readers

// A reader that waits for the first page of a stream (RULES.md, 7). It refuses nothing.
// Example: `held(start())` is 0, and `is_ended(start())` is false.
pub fn start() -> Reader
    ensures { known_as result ≡ started }
{
    Reader {
        core: feed_start::start_core(),
        tally: feed_start::no_tally(),
    }
}

// A reader that waits for any audio page of a stream with this header. It skips no samples. 23: no reading gives these
// fields, by `head_fields::right_head` (RULES.md, 9).
// Example: right fields give `Ok(reader)`, and `position(reader)` is `Position::Joined`.
pub fn open(head: Head) -> Result<Reader, Refusal>
    ensures { told_opened result ≡ open_part_way head }
{
    let opened = feed_start::open_core(head)?;
    Ok(Reader {
        core: opened.core,
        tally: opened.tally,
    })
}

// The serial of the last page accepted, 0 before the first (RULES.md, 3). It refuses nothing.
// Example: `serial(start())` is 0, and after an accepted page with serial 7 it is 7.
pub fn serial(reader: Reader) -> u32
    ensures { result ≡ reader.core.serial }
{
    reader.core.serial
}

// Whether the comment header is not complete yet (RULES.md, 7).
// Example: `in_headers(start())` is true; of a reader opened part way it is false.
pub fn in_headers(reader: Reader) -> bool
    ensures { result ≡ in_headers reader.core.phase }
{
    let core = reader.core;
    let phase = core.phase;
    feed_phase::in_headers(phase)
}

// Whether the last page accepted was marked last, so that 2 holds of any bytes (RULES.md, 2).
// Example: `is_ended(start())` is false.
pub fn is_ended(reader: Reader) -> bool
    ensures { result ≡ is_ended reader.core.phase }
{
    let core = reader.core;
    let phase = core.phase;
    feed_phase::is_ended(phase)
}

// The last granule position of an audio page, where there is one yet (RULES.md, 8). It refuses nothing.
// Example: after an accepted page where an audio packet completes, with granule position 960, it is `Position::At(960)`.
pub fn position(reader: Reader) -> Position
    ensures { result ≡ reader.core.position }
{
    let core = reader.core;
    core.position
}

// The totals of the pages accepted (RULES.md, 8 and 9). A refused page moves none. It refuses nothing.
// Example: those of `start()` are zeros; after the page in the example of embulgri_feed they are 2568, 312, 0 and 0.
pub fn totals(reader: Reader) -> SampleTotals
    ensures { result ≡ totals_of reader.tally }
{
    let tally = reader.tally;
    SampleTotals {
        kept: tally.kept,
        skipped: tally.skipped,
        trimmed: tally.trimmed,
        hole: tally.hole,
    }
}

// How many bytes of the carry buffer the next feeding needs as this one left them (RULES.md, 7). It refuses nothing.
// Example: after an accepted audio page with the lacing values 10 and 255 it is 255, the bytes of the packet that goes on.
pub fn held(reader: Reader) -> usize
    ensures { result ≡ held_of reader.core.pending }
{
    let core = reader.core;
    let pending = core.pending;
    feed_memory::held_in(pending)
}

// ---- feeding

// The same answer with the core and the tally as a reader.
fn fed_of(fed: Result<PageFed, Refusal>) -> Result<Fed, Refusal>
    ensures { told_fed result ≡ told_page fed }
{
    let page = fed?;
    Ok(Fed {
        reader: Reader {
            core: page.core,
            tally: page.tally,
        },
        counts: page.counts,
    })
}

// Feeds one page to a reader: the next reader and the page's own record, or a refusal of 1 to 19. The lowest number that
// holds is told, but 19 and 18 before 17, and for each packet in turn 15 before 16. 1: the carry buffer has fewer than
// 61,440 bytes, or a list fewer than 255 places.
// The carry buffer has to hold, up to the held count, what the last feeding left there. Of an accepted page the lists show,
// from place 0 on, the end stamp, the length, the kept count and the frames of each packet. A refusal leaves the lists as they
// were. One of 12 to 19 may leave the page's first piece in the carry buffer, after the held bytes.
// Example: a right first page fed to `start()` gives `Ok(Fed { reader: next, counts })`, and the second page is fed to `next`.
pub fn feed(
    reader: Reader,
    page: &[u8],
    carry: &mut [u8],
    ends: &mut [u64],
    lengths: &mut [u64],
    kept: &mut [u64],
    frames: &mut [u64],
) -> Result<Fed, Refusal>
    ensures { Feeds (readings page_crc) (known_as reader) page.now
        (at_entry carry ends lengths kept frames) (told_fed result) (at_exit carry ends lengths kept frames) }
{
    fed_of(feed_page::feed_core(
        reader.core,
        reader.tally,
        page,
        carry,
        ends,
        lengths,
        kept,
        frames,
    ))
}

// The same as `feed`, by lent tables: those of `page_crc_tables::table::tables` give the checksum, and others what they give
// (RULES.md, 3). Whoever feeds many small pages makes the tables once.
// Example: with the tables of `page_crc_tables::table::tables` a page has the answer that `feed` gives.
pub fn feed_with(
    tables: &[u32; 4096],
    reader: Reader,
    page: &[u8],
    carry: &mut [u8],
    ends: &mut [u64],
    lengths: &mut [u64],
    kept: &mut [u64],
    frames: &mut [u64],
) -> Result<Fed, Refusal>
    ensures { Feeds (readings (page_sliced (entry_in tables.now))) (known_as reader) page.now
        (at_entry carry ends lengths kept frames) (told_fed result) (at_exit carry ends lengths kept frames) }
{
    fed_of(feed_page::feed_core_with(
        tables,
        reader.core,
        reader.tally,
        page,
        carry,
        ends,
        lengths,
        kept,
        frames,
    ))
}

// ---- a reader as sixteen numbers

// The reader that the numbers represent (RULES.md, 14). It refuses nothing.
// Example: of sixteen zeros it is the reader of `start()`, and with 9 in place 0 it is one that has ended.
pub fn of_state(state: &[u64; 16]) -> Reader
    ensures { known_as result ≡ reader_from state.now }
{
    Reader {
        core: feed_numbers::core_from(state),
        tally: feed_numbers::tally_from(state),
    }
}

// The numbers of a reader, which represent it (RULES.md, 14). It refuses nothing.
// Example: of `start()` they are sixteen zeros.
pub fn state_of(reader: Reader) -> [u64; 16]
    ensures { StandFor result (known_as reader) }
{
    feed_numbers::numbers_of(reader.core, reader.tally)
}

// The numbers of a reader just started (RULES.md, 14). It refuses nothing. Example: they are sixteen zeros.
pub fn start_state() -> [u64; 16]
    ensures { StandFor result started }
{
    feed_numbers::numbers_of(feed_start::start_core(), feed_start::no_tally())
}

// The same as `open`, into sixteen numbers (RULES.md, 14). A refusal, of 23, changes none.
// Example: right fields with 1 stream and pre-skip 312 leave 3, 0, 0, 1, 0, 0, 0, 1, 312 and seven zeros.
pub fn open_state(head: Head, state: &mut [u64; 16]) -> Result<(), Refusal>
    ensures { StateOpenedIs (open_part_way head) result state.old state.new }
{
    let opened = feed_start::open_core(head)?;
    *state = feed_numbers::numbers_of(opened.core, opened.tally);
    Ok(())
}

// The numbers of the next reader; a refusal changes none.
fn keep(fed: Result<PageFed, Refusal>, state: &mut [u64; 16]) -> Result<Counts, Refusal>
    ensures { (f : Outcome) (after : Lent) →
        FedIs f (told_page fed) after → StateFedIs f result state.old state.new after }
{
    let page = fed?;
    *state = feed_numbers::numbers_of(page.core, page.tally);
    Ok(page.counts)
}

// The same as `feed` with a reader in sixteen numbers (RULES.md, 14). An accepted page leaves those of the next reader; a
// refusal changes none. Example: sixteen zeros, fed with a right first page of serial 7, get 1 in place 0 and 7 in place 5.
pub fn feed_state(
    state: &mut [u64; 16],
    page: &[u8],
    carry: &mut [u8],
    ends: &mut [u64],
    lengths: &mut [u64],
    kept: &mut [u64],
    frames: &mut [u64],
) -> Result<Counts, Refusal>
    ensures { StateFeeds (readings page_crc) state.old page.now (at_entry carry ends lengths kept frames)
        result state.new (at_exit carry ends lengths kept frames) }
{
    let core = feed_numbers::core_from(state);
    let tally = feed_numbers::tally_from(state);
    keep(
        feed_page::feed_core(core, tally, page, carry, ends, lengths, kept, frames),
        state,
    )
}
