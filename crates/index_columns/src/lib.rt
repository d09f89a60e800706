// An index as three lent lists in place of a slice of records (RULES.md, 15): the granule positions, the places and the sequence
// numbers. Lists of equal lengths stand for the index whose records have their fields there, and each call answers as it does on
// the records (`index_records`). Seeking looks at the granule positions alone.
#![tactic(auto)]

ghost use Rattle.octets.specs.Given.{given};
ghost use Rattle.std.specs.Prelude.{◌≡◌, get_or, set};
ghost use Rattle.index_search.specs.Index.{first_fall, seek_in};
ghost use Rattle.index_search.specs.Search.{finish};
ghost use Rattle.index_search.specs.Answers.{told_sought};
ghost use Rattle.index_columns.specs.Columns.{are_equal, record_from, StoredAt, seek_columns};
ghost use Rattle.index_columns.specs.Answers.{told_columns};

use index_search::{IndexRecord, Search, Sought};
use refusal::Refusal;

// Whether the three lists of an index have equal lengths (RULES.md, 15). It refuses nothing.
// Example: of lists of 2, 2 and 2 it is true, and of 2, 2 and 3 it is false.
pub fn are_equal(granules: &[u64], places: &[u64], sequences: &[u32]) -> bool
    ensures { result ≡ are_equal granules.now places.now sequences.now }
{
    (granules.len() == places.len()) & (granules.len() == sequences.len())
}

// The record at place i of an index, with 0 for each field whose list has no such place (RULES.md, 15). It refuses nothing.
// Example: of three empty lists every record is read as granule 0, place 0 and sequence number 0.
pub fn record_at(granules: &[u64], places: &[u64], sequences: &[u32], i: usize) -> IndexRecord
    ensures { result ≡ record_from granules.now places.now sequences.now i }
{
    IndexRecord {
        granule: granules.get(i).copied().unwrap_or(0),
        place: places.get(i).copied().unwrap_or(0),
        sequence: sequences.get(i).copied().unwrap_or(0),
    }
}

// Stores the fields of the record r at place i of the three lists, and nothing in a list that has no such place (RULES.md, 15).
// It refuses nothing.
// Example: in three lists of one number, place 0 of each is set, and for place 1 nothing is stored.
pub fn store_at(
    granules: &mut [u64],
    places: &mut [u64],
    sequences: &mut [u32],
    i: usize,
    r: IndexRecord,
)
    ensures { StoredAt i r granules places sequences }
{
    lists::store_at(granules, i, r.granule);
    lists::store_at(places, i, r.place);
    lists::store_at(sequences, i, r.sequence);
}

// The first place whose granule position is below the one before it (RULES.md, 15). It refuses nothing.
// Example: of the granule positions 3, 3, 2 and 1 it is `Some(2)`, and of an empty list it is `None`.
pub fn first_fall(granules: &[u64]) -> Option<usize>
    ensures { given result ≡ first_fall granules.now }
{
    let mut before = 0;
    let mut i = 0;
    while i < granules.len() {
        let g = granules[i];
        if g < before {
            return Some(i);
        }
        before = g;
        i = i + 1;
    }
    None
}

// All steps of a search.
fn run(granules: &[u64], s: Search) -> Search
    ensures { result ≡ finish granules.now s }
{
    let mut t = s;
    while t.low < t.high {
        let at = index_search::place(t);
        let g = granules.get(at).copied().unwrap_or(0);
        t = index_search::step(t, g);
    }
    t
}

fn seek_in(granules: &[u64], target: u64) -> Sought
    ensures { told_sought result ≡ seek_in granules.now target }
{
    let f = first_fall(granules);
    let s = index_search::halving(f, granules.len(), target);
    let t = run(granules, s);
    index_search::answer(f, t)
}

// The last record of an index at or before the target less the pre-roll of 3,840 samples, by halving, or the begin where there
// is none (RULES.md, 15; RFC 7845, 4.6). Refuses with 22 where the three lists have different lengths, before all else, and then
// with 26 where a granule position is below the one before it, whatever the target.
// Example: of the granule positions 5,000, 6,000, 7,000, 7,000 and 8,000, with five places and five sequence numbers, and the
// target 10,840, it is `Ok(Record(3, 3))`: the last of two equal ones, after three probes.
pub fn seek(
    granules: &[u64],
    places: &[u64],
    sequences: &[u32],
    target: u64,
) -> Result<Sought, Refusal>
    ensures { told_columns result ≡ seek_columns granules.now places.now sequences.now target }
{
    if !are_equal(granules, places, sequences) {
        return Err(Refusal::ShortOutput);
    }
    Ok(seek_in(granules, target))
}
