// Feeding one page to the core of a reader, in stages: 1 and 2, 3 to 8, and what header pages and audio pages have of their own.
#![tactic(auto)]

ghost use Rattle.std.specs.Prelude.{◌≡◌, ℕ};
ghost use Rattle.std.proofs.Math.Option.{some};
ghost use Rattle.octets.specs.Octets.{Bytes};
ghost use Rattle.stream.specs.declared.Tally.{Tally as Counting};
ghost use Rattle.refusal.specs.Checks.{first_of};
ghost use Rattle.refusal.specs.Told.{Told};
ghost use Rattle.stream.specs.Readings.{readings};
ghost use Rattle.stream.specs.Feed.{reader_of, Taken, Feeds, told_page};
ghost use Rattle.stream.specs.Lent.{Lent, at_entry, at_exit};
ghost use Rattle.feed_fields.specs.Checked.{found};
ghost use Rattle.stream.specs.declared.Core.{Core as Before};
ghost use Rattle.feed_page.specs.Stages.{unread_checks, Unrefused, DueIs, AwaitsParts, PartsOf};
ghost use Rattle.page_crc.specs.Crc.{page_crc};
ghost use Rattle.page_crc_tables.specs.Table.{entry_in};
ghost use Rattle.page_crc.specs.Sliced.{page_sliced};
ghost use Rattle.feed_audio.specs.Audio.{told_audio};
ghost use Rattle.feed_header.specs.Header.{told_header};

use page_layout::PageHeader;
use refusal::Refusal;
use stream::{Core, PageFed, Phase, Tally};

// 1 and 2, by the lengths of what is lent: no page is read under these.
fn check_unread(
    phase: Phase,
    carry: usize,
    ends: usize,
    lengths: usize,
    kept: usize,
    frames: usize,
) -> Result<(), Refusal>
    ensures { found result ≡ first_of (unread_checks phase carry ends lengths kept frames) }
{
    if feed_memory::is_short(carry, ends, lengths, kept, frames) {
        return Err(Refusal::ShortRoom);
    }
    if feed_phase::is_ended(phase) {
        return Err(Refusal::AfterEnd);
    }
    Ok(())
}

// The core that expects the page, and the page's fields.
#[derive(Clone, Copy)]
struct Due {
    core: Core,
    header: PageHeader,
}

// 3 and 4 are what was read of the page.
fn page_due(core: Core, read: Result<PageHeader, Refusal>) -> Result<Due, Refusal>
    ensures { (crc : Bytes → ℕ) (b : Bytes) (tally : Counting) (m : Lent) →
        Unrefused crc core read b m → DueIs result (readings crc) core tally m b }
{
    let header = read?;
    let due = feed_fields::expected(core, header);
    feed_fields::check_fields(due, header)?;
    Ok(Due { core: due, header })
}

// The same answer, made again. One that is handed on is copied with its unused bytes, which costs some 4 % of a listing of one
// packet a page.
// stays: speed may not change, and this is what saves that copy.
fn made_again(fed: Result<PageFed, Refusal>) -> Result<PageFed, Refusal>
    ensures { result ≡ fed }
{
    match fed {
        Ok(
            PageFed {
                core,
                tally,
                counts,
            },
        ) => Ok(PageFed {
            core,
            tally,
            counts,
        }),
        Err(why) => Err(why),
    }
}

// An audio page with room is an audio page, so the second answer is never given here.
fn of_audio(fed: Option<Result<PageFed, Refusal>>) -> Result<PageFed, Refusal>
    ensures { (t : Told Taken) → told_audio fed ≡ some t → told_page result ≡ t }
{
    match fed {
        Some(page) => made_again(page),
        None => Err(Refusal::ShortRoom),
    }
}

// Nor of a header page.
fn of_header(fed: Option<Result<PageFed, Refusal>>) -> Result<PageFed, Refusal>
    ensures { (t : Told Taken) → told_header fed ≡ some t → told_page result ≡ t }
{
    match fed {
        Some(page) => made_again(page),
        None => Err(Refusal::ShortRoom),
    }
}

// 9 to 19 of a page by its parts; `due` is the core that expects it.
fn feed_due(
    due: Core,
    tally: Tally,
    h: PageHeader,
    lacing: &[u8],
    body: &[u8],
    carry: &mut [u8],
    ends: &mut [u64],
    lengths: &mut [u64],
    kept: &mut [u64],
    frames: &mut [u64],
) -> Result<PageFed, Refusal>
    ensures { (crc : Bytes → ℕ) (core : Before) (b : Bytes) →
        AwaitsParts (readings crc) core due h tally (at_entry carry ends lengths kept frames) b
        lacing.now body.now →
        Feeds (readings crc) (reader_of core tally) b
        (at_entry carry ends lengths kept frames) (told_page result) (at_exit carry ends lengths kept frames) }
{
    let phase = due.phase;
    if feed_phase::is_audio(phase) {
        return of_audio(feed_audio::feed_audio(
            due, tally, h, lacing, body, carry, ends, lengths, kept, frames,
        ));
    }
    of_header(feed_header::feed_header(due, tally, h, lacing, body, carry))
}

// 3 to 19 of the page that was read so.
fn feed_read(
    core: Core,
    tally: Tally,
    read: Result<PageHeader, Refusal>,
    page: &[u8],
    carry: &mut [u8],
    ends: &mut [u64],
    lengths: &mut [u64],
    kept: &mut [u64],
    frames: &mut [u64],
) -> Result<PageFed, Refusal>
    ensures { (crc : Bytes → ℕ) →
        Unrefused crc core read page.now (at_entry carry ends lengths kept frames) →
        Feeds (readings crc) (reader_of core tally) page.now
        (at_entry carry ends lengths kept frames) (told_page result) (at_exit carry ends lengths kept frames) }
{
    let due = page_due(core, read)?;
    let lacing = page_layout::lacing_of(page);
    let body = page_layout::body_of(page);
    feed_due(
        due.core, tally, due.header, lacing, body, carry, ends, lengths, kept, frames,
    )
}

// Feeds one page to the core of a reader: the next one and the page's own record, or a refusal of 1 to 19, which leaves the
// four lists as they were. The lowest number that holds is told, but 19 and 18 before 17, and for each packet in turn 15
// before 16. The carry buffer has to hold, up to the held count, what the last feeding left there. Of an accepted page the
// lists show the end stamp, the length, the kept count and the frames of each packet (RULES.md, 7).
// Example: `feed_start::start_core()` and a right first page give a core in `Phase::Comment` and a record of zeros.
pub fn feed_core(
    core: Core,
    tally: Tally,
    page: &[u8],
    carry: &mut [u8],
    ends: &mut [u64],
    lengths: &mut [u64],
    kept: &mut [u64],
    frames: &mut [u64],
) -> Result<PageFed, Refusal>
    ensures { Feeds (readings page_crc) (reader_of core tally) page.now
        (at_entry carry ends lengths kept frames) (told_page result) (at_exit carry ends lengths kept frames) }
{
    let phase = core.phase;
    check_unread(
        phase,
        carry.len(),
        ends.len(),
        lengths.len(),
        kept.len(),
        frames.len(),
    )?;
    let read = page_reader::read_page(page);
    feed_read(core, tally, read, page, carry, ends, lengths, kept, frames)
}

// The same as `feed_core`, by lent tables: those of `page_crc_tables::table::tables` give the checksum, and others what they
// give (RULES.md, 3). Whoever feeds many small pages makes the tables once.
// Example: with the tables of `page_crc_tables::table::tables` a page has the answer that `feed_core` gives.
pub fn feed_core_with(
    tables: &[u32; 4096],
    core: Core,
    tally: Tally,
    page: &[u8],
    carry: &mut [u8],
    ends: &mut [u64],
    lengths: &mut [u64],
    kept: &mut [u64],
    frames: &mut [u64],
) -> Result<PageFed, Refusal>
    ensures { Feeds (readings (page_sliced (entry_in tables.now))) (reader_of core tally) page.now
        (at_entry carry ends lengths kept frames) (told_page result) (at_exit carry ends lengths kept frames) }
{
    let phase = core.phase;
    check_unread(
        phase,
        carry.len(),
        ends.len(),
        lengths.len(),
        kept.len(),
        frames.len(),
    )?;
    let read = page_reader::read_page_with(tables, page);
    feed_read(core, tally, read, page, carry, ends, lengths, kept, frames)
}

// Feeds a page that is known to pass 3 and 4, by its parts: its fields, its lacing values and its body. Of any bytes that are
// a page of these parts, by any checksum, this is feeding those bytes, with the answer, the carry buffer and the lists of
// `feed_core`; no checksum is worked out. Parts that are of no page are judged too, and nothing is said of the answer
// (RULES.md, 7).
// Example: the fields, the lacing values and the body of a right page give the answer that `feed_core` gives of the page.
pub fn feed_parts(
    core: Core,
    tally: Tally,
    h: PageHeader,
    lacing: &[u8],
    body: &[u8],
    carry: &mut [u8],
    ends: &mut [u64],
    lengths: &mut [u64],
    kept: &mut [u64],
    frames: &mut [u64],
) -> Result<PageFed, Refusal>
    ensures { (crc : Bytes → ℕ) (b : Bytes) →
        PartsOf crc b h lacing.now body.now →
        Feeds (readings crc) (reader_of core tally) b
        (at_entry carry ends lengths kept frames) (told_page result) (at_exit carry ends lengths kept frames) }
{
    let before = core.phase;
    check_unread(
        before,
        carry.len(),
        ends.len(),
        lengths.len(),
        kept.len(),
        frames.len(),
    )?;
    let due = page_due(core, Ok(h))?;
    feed_due(
        due.core, tally, due.header, lacing, body, carry, ends, lengths, kept, frames,
    )
}
