// An index as a lent slice of records (RULES.md, 15). Each function is short: it reads or stores one record, or passes the slice
// on from call to call. The search itself is in `index_search`, on plain numbers.
#![tactic(auto)]

ghost use Rattle.octets.specs.Given.{given};
ghost use Rattle.std.specs.Prelude.{◌≡◌, get_or, set};
ghost use Rattle.index_search.specs.Index.{no_record, granules_of, first_fall, seek_of};
ghost use Rattle.index_search.specs.Search.{finish};
ghost use Rattle.index_search.specs.Answers.{told_sought};

use index_search::{IndexRecord, Search, Sought};

// The record at place i of an index, or one of zeros where the index has no such place (RULES.md, 15). It refuses nothing.
// Example: of an empty index every record is read as granule 0, place 0 and sequence number 0.
pub fn record_at(records: &[IndexRecord], i: usize) -> IndexRecord
    ensures { result ≡ get_or records.now i no_record }
{
    if i < records.len() {
        return records[i];
    }
    IndexRecord {
        granule: 0,
        place: 0,
        sequence: 0,
    }
}

// Stores the record r at place i of an index, and nothing where the index has no such place (RULES.md, 15). It refuses nothing.
// Example: in an index of one record, place 0 is set to r, and for place 1 nothing is stored.
pub fn store_at(records: &mut [IndexRecord], i: usize, r: IndexRecord)
    ensures { records.new ≡ set records.old i r }
{
    lists::store_at(records, i, r);
}

// All steps of a search.
fn run(records: &[IndexRecord], s: Search) -> Search
    ensures { result ≡ finish (granules_of records.now) s }
{
    let mut t = s;
    while t.low < t.high {
        let at = index_search::place(t);
        let r = record_at(records, at);
        t = index_search::step(t, r.granule);
    }
    t
}

// The first place of an index whose granule position is below the one before it (RULES.md, 15). It refuses nothing.
// Example: of records with the granule positions 3, 3, 2 and 1 it is `Some(2)`, and of an empty index it is `None`.
pub fn first_fall(records: &[IndexRecord]) -> Option<usize>
    ensures { given result ≡ first_fall (granules_of records.now) }
{
    let n = records.len();
    let s = index_search::scanning(n);
    let t = run(records, s);
    index_search::fall_of(t, n)
}

// The last record of an index at or before the target less the pre-roll of 3,840 samples, by halving, or the begin where there
// is none (RULES.md, 15; RFC 7845, 4.6). Refuses with 26 where a granule position is below the one before it, whatever the
// target.
// Example: of records with the granule positions 5,000, 6,000, 7,000, 7,000 and 8,000, and the target 10,840, it is
// `Record(3, 3)`: the last of two equal ones, after three probes.
pub fn seek(records: &[IndexRecord], target: u64) -> Sought
    ensures { told_sought result ≡ seek_of records.now target }
{
    let n = records.len();
    let f = first_fall(records);
    let s = index_search::halving(f, n, target);
    let t = run(records, s);
    index_search::answer(f, t)
}
