// The index of a whole stream, for programs in C, Rust and Python: three lists of numbers (RULES.md, 15).
ghost use Rattle.std.specs.Prelude.{◌≡◌, length};
ghost use Rattle.recording.specs.Pages.{pages_of};
ghost use Rattle.index_search.specs.Answers.{told_sought};
ghost use Rattle.index_walk.specs.Records.{index_of};
ghost use Rattle.index_columns.specs.Columns.{seek_columns};
ghost use Rattle.embulgri.specs.Index.{IndexIn, AnswerIn, SoughtIn};

use index_search::Sought;

// Returns how many records the index of the stream has, so that the lists can be lent (RULES.md, 15; embulgri.h). It stores
// nothing and refuses nothing. Example: of the two header pages and an audio page with one packet it is 1.
pub fn embulgri_index_count(stream: &[u8]) -> u64
    ensures { result ≡ length (index_of (pages_of stream.now)) }
{
    index_walk::count(stream) as u64
}

// Builds the index of a whole stream. Into `granules`, `places` and `sequences`: of each page on which an audio packet completes
// its granule position, the place of its first byte and its sequence number. Into `count`: how many they are. Returns 22 where
// the lists have different lengths; else the number that refuses the stream, 2 to 18 or 24; else 22 where the records do not
// fit; or 0 (RULES.md, 15; embulgri.h).
// Example: no bytes, with three empty lists, return 24.
pub fn embulgri_index_build(
    stream: &[u8],
    granules: &mut [u64],
    places: &mut [u64],
    sequences: &mut [u32],
    count: &mut u64,
) -> u32
    ensures { IndexIn stream.now result granules places sequences count.old count.new }
{
    match index_columns_builder::build(stream, granules, places, sequences) {
        Ok(n) => {
            *count = n as u64;
            0
        }
        Err(why) => refusal::number(why) as u32,
    }
}

fn store_answer(sought: Sought, out: &mut [u64; 3], place: &mut u64) -> u32
    ensures { AnswerIn (told_sought sought) result out.old out.new place.old place.new }
{
    match sought {
        Sought::Record(i, probes) => {
            *out = [1, i as u64, probes];
            0
        }
        Sought::Begin(probes) => {
            *out = [0, 0, probes];
            0
        }
        Sought::Refused(why, i) => {
            *place = i as u64;
            refusal::number(why) as u32
        }
    }
}

// Seeks a position in an index. Into `out`: 1 and the number of the last record at or before the target less 3,840, or 0 and 0
// where there is none; and the number of probes. Returns 22 where the lists have different lengths; else 26 where a granule
// position is below the one before it, and stores the first such place into `place`; or 0 (RULES.md, 15; embulgri.h).
// Example: of the granule positions 5,000, 6,000, 7,000, 7,000 and 8,000, with five places and five sequence numbers, the target
// 10,840 stores 1, 3, 3.
pub fn embulgri_index_seek(
    granules: &[u64],
    places: &[u64],
    sequences: &[u32],
    target: u64,
    out: &mut [u64; 3],
    place: &mut u64,
) -> u32
    ensures { SoughtIn (seek_columns granules.now places.now sequences.now target)
        result out.old out.new place.old place.new }
{
    match index_columns::seek(granules, places, sequences, target) {
        Ok(sought) => store_answer(sought, out, place),
        Err(why) => refusal::number(why) as u32,
    }
}
