// Building the index of a stream in a lent buffer into three lent lists (RULES.md, 15): the granule positions, the places and the
// sequence numbers of its records. It answers as `index_builder::build` does on records.
#![tactic(auto)]

ghost use Rattle.refusal.specs.Told.{told};
ghost use Rattle.std.specs.Prelude.{◌+◌, ◌≤◌, ◌≡◌, length};
ghost use Rattle.page_crc.specs.Crc.{page_crc};
ghost use Rattle.stream.specs.Readings.{readings};
ghost use Rattle.recording.specs.Pages.{pages_of};
ghost use Rattle.index_walk.specs.Records.{index_of};
ghost use Rattle.index_builder.specs.Building.{fitting, build as buildIn};
ghost use Rattle.index_columns_builder.specs.Building.{told_room, BuildsColumns, FillsColumns};

use refusal::Refusal;

// Whether the records of a whole stream of so many pages fit a list of `room` records. Two pages at least have no record: the
// first, and one of the comment header. The records are counted only where this does not decide.
fn fit(stream: &[u8], pages: usize, room: usize) -> Result<(), Refusal>
    requires { length (index_of (pages_of stream.now)) + 2 ≤ pages }
    ensures { let n = length (index_of (pages_of stream.now)) in told_room result n ≡ fitting n room }
{
    if pages <= room {
        return Ok(());
    }
    if pages - room <= 2 {
        return Ok(());
    }
    if room < index_walk::count(stream) {
        return Err(Refusal::ShortOutput);
    }
    Ok(())
}

// Whether the index of the stream is built, where the lists have `room` places.
fn room_for(stream: &[u8], room: usize) -> Result<(), Refusal>
    ensures { told_room result (length (index_of (pages_of stream.now)))
        ≡ buildIn (readings page_crc) stream.now room }
{
    let whole = recording::judge(stream)?;
    fit(stream, whole.pages, room)
}

// Stores the fields of all records of the stream, as far as the lists go, and tells how many records there are.
fn fill(stream: &[u8], granules: &mut [u64], places: &mut [u64], sequences: &mut [u32]) -> usize
    ensures { FillsColumns stream.now result granules places sequences }
{
    let mut w = index_walk::begin(0);
    while w.at < stream.len() {
        w = index_walk::next(stream, w);
        index_columns::store_at(granules, places, sequences, w.slot, w.made);
    }
    w.count
}

// Builds the index of the stream into the first places of the three lists and tells how many records it has: one for each page on
// which an audio packet completes, in order (RULES.md, 15). Refuses with 22 where the lists have different lengths, before all
// else; then a stream that is not whole as `recording::judge` refuses it, and with 22 where the lists have fewer places than the
// index has records. Under a refusal nothing is stored.
// Example: of a whole stream whose audio pages each complete a packet, and lists of as many places, it is
// `Ok(pages)`.
pub fn build(
    stream: &[u8],
    granules: &mut [u64],
    places: &mut [u64],
    sequences: &mut [u32],
) -> Result<usize, Refusal>
    ensures { BuildsColumns (readings page_crc) stream.now (told result) granules places sequences }
{
    if !index_columns::are_equal(granules, places, sequences) {
        return Err(Refusal::ShortOutput);
    }
    room_for(stream, granules.len())?;
    Ok(fill(stream, granules, places, sequences))
}
