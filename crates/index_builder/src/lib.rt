// Building the index of a stream in a lent buffer into a lent slice of records (RULES.md, 15). `fill` and `build` are short: they
// pass the slice on from call to call.
#![tactic(auto)]

ghost use Rattle.refusal.specs.Told.{told};
ghost use Rattle.std.specs.Prelude.{◌≡◌, length};
ghost use Rattle.page_crc.specs.Crc.{page_crc};
ghost use Rattle.stream.specs.Readings.{readings};
ghost use Rattle.recording.specs.Pages.{pages_of};
ghost use Rattle.index_walk.specs.Records.{index_of};
ghost use Rattle.index_builder.specs.Building.{fitting, build as buildIn, Builds};
ghost use Rattle.index_builder.specs.Filling.{filled_from, start_of};

use index_search::IndexRecord;
use refusal::Refusal;

// How many records the index of a whole stream has, where they fit a list of `room` records.
fn fit(stream: &[u8], room: usize) -> Result<usize, Refusal>
    ensures { told result ≡ fitting (length (index_of (pages_of stream.now))) room }
{
    let n = index_walk::count(stream);
    if room < n {
        return Err(Refusal::ShortOutput);
    }
    Ok(n)
}

// What building tells, the list having `room` records.
fn plan(stream: &[u8], room: usize) -> Result<usize, Refusal>
    ensures { told result ≡ buildIn (readings page_crc) stream.now room }
{
    recording::judge(stream)?;
    fit(stream, room)
}

// Where filling begins, in a stream of n bytes.
fn start_of(built: Result<usize, Refusal>, n: usize) -> usize
    ensures { result ≡ start_of (told built) n }
{
    if built.is_ok() { 0 } else { n }
}

// Stores the records of the pages from place `from` of the stream on.
fn fill(stream: &[u8], records: &mut [IndexRecord], from: usize)
    ensures { records.new ≡ filled_from stream.now from records.old }
{
    let mut w = index_walk::begin(from);
    while w.at < stream.len() {
        w = index_walk::next(stream, w);
        index_records::store_at(records, w.slot, w.made);
    }
}

// Builds the index of the stream into the first places of `records`, and tells how many records it has: one for each page on
// which an audio packet completes, in order (RULES.md, 15). A stream that is not whole is refused as `recording::judge` refuses
// it; one whose records are more than `records` has places is refused with 22. Under a refusal nothing is stored.
// Example: of a whole stream with three audio pages, each of which completes a packet, it is `Ok(3)`, and with two
// places only it is `Err(Refusal::ShortOutput)`.
pub fn build(stream: &[u8], records: &mut [IndexRecord]) -> Result<usize, Refusal>
    ensures { Builds (readings page_crc) stream.now (told result)
        records.old records.new }
{
    let built = plan(stream, records.len());
    let from = start_of(built, stream.len());
    fill(stream, records, from);
    built
}
