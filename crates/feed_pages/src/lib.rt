// The pages of a lent buffer fed to a reader in one call, each where it lies. The checksum's tables are made once.
#![tactic(auto)]

ghost use Rattle.std.specs.Prelude.{◌≡◌};
ghost use Rattle.page_crc.specs.Crc.{page_crc};
ghost use Rattle.page_crc_tables.specs.Table.{entry_in};
ghost use Rattle.page_crc.specs.Sliced.{page_sliced};
ghost use Rattle.stream.specs.Readings.{readings};
ghost use Rattle.stream.specs.Lent.{lent_of, at_entry, at_exit};
ghost use Rattle.feed_numbers.specs.Numbers.{reader_from};
ghost use Rattle.reader.specs.Answers.{known_as};
ghost use Rattle.feed_pages.specs.Run.{Inside, turn as turnBy, feed_pages};
ghost use Rattle.feed_pages.specs.Answers.{reached, told_turn, told_run};
ghost use Rattle.feed_pages.specs.declared.Stop.TheVariants.{Refused};
ghost use Rattle.feed_pages.specs.State.{numbers_reached, run_from, StateRun};

use reader::Reader;
use refusal::Refusal;

// How far a run has come: the reader after the pages accepted, their bytes, how many they are, and how many places of each
// list they filled.
#[derive(Clone, Copy)]
pub struct Progress {
    pub reader: Reader,
    pub bytes: usize,
    pub pages: usize,
    pub packets: usize,
}

// Why a run stops.
#[derive(Clone, Copy)]
pub enum Stop {
    // the next page is refused
    Refused(Refusal),
    // the next page is not whole in the buffer
    Cut,
    // fewer than 255 places of a list are left for the next page
    Full,
}

impl From<Refusal> for Stop {
    ghost from_gives = { λ why stop. stop ≡ Refused why };

    fn from(why: Refusal) -> Stop {
        Stop::Refused(why)
    }
}

#[derive(Clone, Copy)]
pub struct PagesFed {
    pub progress: Progress,
    pub stop: Stop,
}

// Feeds the next page: how far the run has then come, or why it stops.
fn feed_next(
    tables: &[u32; 4096],
    p: Progress,
    buffer: &[u8],
    carry: &mut [u8],
    ends: &mut [u64],
    lengths: &mut [u64],
    kept: &mut [u64],
    frames: &mut [u64],
) -> Result<Progress, Stop>
    requires { Inside (reached p) buffer.now (lent_of carry.old ends.old lengths.old kept.old frames.old) }
    ensures { told_turn result (at_exit carry ends lengths kept frames)
        ≡ turnBy (readings (page_sliced (entry_in tables.now))) buffer.now
        (reached p) (at_entry carry ends lengths kept frames) }
{
    let at = p.bytes;
    let n = p.packets;
    let reader = p.reader;
    if feed_memory::are_lists_short(
        ends.len() - n,
        lengths.len() - n,
        kept.len() - n,
        frames.len() - n,
    ) {
        return Err(Stop::Full);
    }
    let Some(end) = page_end::end_at(buffer, at) else {
        return Err(Stop::Cut);
    };
    let fed = reader::feed_with(
        tables,
        reader,
        &buffer[at..end],
        carry,
        &mut ends[n..],
        &mut lengths[n..],
        &mut kept[n..],
        &mut frames[n..],
    )?;
    Ok(Progress {
        reader: fed.reader,
        bytes: end,
        pages: p.pages + 1,
        packets: n + fed.counts.packets as usize,
    })
}

// By lent tables, so that a turn makes none.
fn run(
    tables: &[u32; 4096],
    reader: Reader,
    buffer: &[u8],
    carry: &mut [u8],
    ends: &mut [u64],
    lengths: &mut [u64],
    kept: &mut [u64],
    frames: &mut [u64],
) -> PagesFed
    ensures { told_run result (at_exit carry ends lengths kept frames)
        ≡ feed_pages (readings (page_sliced (entry_in tables.now))) (known_as reader)
        (at_entry carry ends lengths kept frames) buffer.now }
{
    let mut progress = Progress {
        reader,
        bytes: 0,
        pages: 0,
        packets: 0,
    };
    loop {
        match feed_next(tables, progress, buffer, carry, ends, lengths, kept, frames) {
            Ok(next) => progress = next,
            Err(stop) => return PagesFed { progress, stop },
        }
    }
}

// Feeds the pages of a buffer one by one, each with the parts of the four lists past the places already filled, as
// `reader::feed` would. It stops at a refusal, at a page that the buffer's end cuts, or where fewer than 255 places are left.
// It tells how far it came and why it stopped. The page that is refused leaves the lists as they were, and the carry buffer
// as `reader::feed` leaves it.
// Example: where `stop` is `Stop::Cut`, the bytes from place `progress.bytes` on are fed again with more after them, to
// `progress.reader`.
pub fn feed_pages(
    reader: Reader,
    buffer: &[u8],
    carry: &mut [u8],
    ends: &mut [u64],
    lengths: &mut [u64],
    kept: &mut [u64],
    frames: &mut [u64],
) -> PagesFed
    ensures { told_run result (at_exit carry ends lengths kept frames)
        ≡ feed_pages (readings page_crc) (known_as reader) (at_entry carry ends lengths kept frames) buffer.now }
{
    let tables = page_crc_tables::table::tables();
    run(&tables, reader, buffer, carry, ends, lengths, kept, frames)
}

// ---- with a reader in sixteen numbers

// The bytes of the pages accepted, how many they are, how many places of each list they filled, and why the run stopped.
#[derive(Clone, Copy)]
pub struct StatePagesFed {
    pub bytes: usize,
    pub pages: usize,
    pub packets: usize,
    pub stop: Stop,
}

// The numbers of the reader after so many pages; after none they stay.
fn keep(pages: usize, reader: Reader, state: &mut [u64; 16])
    ensures { (state.new ≡ numbers_reached pages (known_as reader) state.old)
        × ((pages ≡ 0 → reader_from state.old ≡ known_as reader) → reader_from state.new ≡ known_as reader) }
{
    if pages == 0 {
        return;
    }
    *state = reader::state_of(reader);
}

// The same as `feed_pages` with a reader in sixteen numbers (RULES.md, 14). Where a page was accepted they are those of the
// reader after the last such page, also where a refusal comes after it; else they stay as they were.
// Example: sixteen zeros with the two header pages of a stream, and nothing after them, answer `bytes` of both, `pages` 2,
// `packets` 0 and `Stop::Cut`, and get 2 in place 0.
pub fn feed_state_pages(
    state: &mut [u64; 16],
    buffer: &[u8],
    carry: &mut [u8],
    ends: &mut [u64],
    lengths: &mut [u64],
    kept: &mut [u64],
    frames: &mut [u64],
) -> StatePagesFed
    ensures { StateRun (run_from state.old (at_entry carry ends lengths kept frames) buffer.now)
        result state.old state.new (at_exit carry ends lengths kept frames) }
{
    let reader = reader::of_state(state);
    let fed = feed_pages(reader, buffer, carry, ends, lengths, kept, frames);
    let p = fed.progress;
    let stop = fed.stop;
    keep(p.pages, p.reader, state);
    StatePagesFed {
        bytes: p.bytes,
        pages: p.pages,
        packets: p.packets,
        stop,
    }
}
