// The lines of an index of a stream, and of what a seek in it answers, as text (RULES.md, 15). Each function but `put_records`
// puts one whole line into a lent buffer from place `at` on, and answers the place after it. Where the line does not fit, it
// puts nothing and answers `at`.
#![tactic(auto)]

ghost use Rattle.std.specs.Prelude.{◌≡◌, ◌++◌, ◌∷◌, [], ◌+◌, ltb, length};
ghost use Rattle.text_put.specs.Writing.{Put};
ghost use Rattle.text_decimal.specs.Decimal.{decimal};
ghost use Rattle.list_entries.specs.Entries.{PutLines};
ghost use Rattle.index_lines.specs.Lines.{
  index_first,
  record_line,
  seek_first,
  found_line,
  begin_line,
  number_refused_line,
  place_refused_line,
  records_in,
};

use list_entries::Listed;

// No line of a record is longer: two numbers of 20 digits, one of 10, two spaces and a line feed.
pub const LONGEST: usize = 53;

// A name, the digits of a number after it, and a byte after them.
fn put_named(out: &mut [u8], at: usize, name: &[u8], x: u64, b: u8) -> usize
    ensures { Put out.old at (name.now ++ (decimal x ++ (b ∷ []))) result out.new }
{
    if octets::is_short(out.len(), at, name.len() + text_decimal::digits_of(x) + 1) {
        return at;
    }
    let next = text_put::put_bytes(out, at, name);
    text_decimal::put_ended(out, next, x, b)
}

// The line above all records of an index: "granule place sequence" (RULES.md, 15). Where it does not fit, nothing is put.
// Example: `put_index_first(out, 0)` answers 23, where `out` has 23 bytes or more.
pub fn put_index_first(out: &mut [u8], at: usize) -> usize
    ensures { Put out.old at index_first result out.new }
{
    text_put::put_bytes(out, at, b"granule place sequence\n")
}

// Whether the line of a record passes the end of the buffer.
fn lacks_record(len: usize, at: usize, granule: u64, place: u64, sequence: u64) -> bool
    ensures { result ≡ ltb len (at + length (record_line granule place sequence)) }
{
    octets::is_short(
        len,
        at,
        text_decimal::digits_of(granule)
            + text_decimal::digits_of(place)
            + text_decimal::digits_of(sequence)
            + 3,
    )
}

// The line of a record: its granule position, the place of its page and its sequence number (RULES.md, 15). Where it does not
// fit, nothing is put. Example: `put_record(out, 0, 960, 5123, 2)` puts "960 5123 2".
pub fn put_record(out: &mut [u8], at: usize, granule: u64, place: u64, sequence: u32) -> usize
    ensures { Put out.old at (record_line granule place sequence) result out.new }
{
    let number = sequence as u64;
    if lacks_record(out.len(), at, granule, place, number) {
        return at;
    }
    let second = text_decimal::put_ended(out, at, granule, b' ');
    let third = text_decimal::put_ended(out, second, place, b' ');
    text_decimal::put_ended(out, third, number, b'\n')
}

// The line above what a seek found: "granule place sequence probes" (RULES.md, 15). Where it does not fit, nothing is put.
// Example: `put_seek_first(out, 0)` answers 30, where `out` has 30 bytes or more.
pub fn put_seek_first(out: &mut [u8], at: usize) -> usize
    ensures { Put out.old at seek_first result out.new }
{
    text_put::put_bytes(out, at, b"granule place sequence probes\n")
}

// The line of the record that a seek found, and the number of probes (RULES.md, 15). Where it does not fit, nothing is put.
// Example: `put_found(out, 0, 960, 5123, 2, 7)` puts "960 5123 2 7".
pub fn put_found(
    out: &mut [u8],
    at: usize,
    granule: u64,
    place: u64,
    sequence: u32,
    probes: u64,
) -> usize
    ensures { Put out.old at (found_line granule place sequence probes) result out.new }
{
    list_lines::put_entry(out, at, granule, place, sequence as u64, probes)
}

// The line of a seek that found no record early enough, with the number of probes (RULES.md, 15). Where it does not fit,
// nothing is put. Example: `put_begin(out, 0, 7)` puts "begin 7".
pub fn put_begin(out: &mut [u8], at: usize, probes: u64) -> usize
    ensures { Put out.old at (begin_line probes) result out.new }
{
    put_named(out, at, b"begin ", probes, b'\n')
}

// The line of a refusal that names neither a page nor a place, by its number (RULES.md, 15). Where it does not fit, nothing is
// put. Example: `put_number_refused(out, 0, 24)` puts "refused 24".
pub fn put_number_refused(out: &mut [u8], at: usize, number: u64) -> usize
    ensures { Put out.old at (number_refused_line number) result out.new }
{
    put_named(out, at, b"refused ", number, b'\n')
}

// The line of a refusal, by its number, and of the place that it names (RULES.md, 15). Where it does not fit, nothing is put.
// Example: `put_place_refused(out, 0, 26, 3)` puts "refused 26 place 3".
pub fn put_place_refused(out: &mut [u8], at: usize, number: u64, place: u64) -> usize
    ensures { Put out.old at (place_refused_line number place) result out.new }
{
    if octets::is_short(
        out.len(),
        at,
        16 + text_decimal::digits_of(number) + text_decimal::digits_of(place),
    ) {
        return at;
    }
    let next = put_named(out, at, b"refused ", number, b' ');
    put_named(out, next, b"place ", place, b'\n')
}

// The lines of records from place `at` on, by their granule positions, places and sequence numbers, as long as the longest
// line would fit (RULES.md, 15). The shortest of the three lists says how many records there are.
// Example: the granule positions 960 and 1920, the places 5123 and 5423 and the sequence numbers 2 and 3, from place 0 of 100
// bytes, put the lines "960 5123 2" and "1920 5423 3", and give the count 2 and the place 23.
pub fn put_records(
    granules: &[u64],
    places: &[u64],
    sequences: &[u32],
    out: &mut [u8],
    at: usize,
) -> Listed
    ensures { PutLines out.old at
        (records_in (length out.old) at granules.now places.now sequences.now)
        result out.new }
{
    let n = octets::least(octets::least(granules.len(), places.len()), sequences.len());
    let mut next = at;
    let mut i = 0;
    while i < n {
        if octets::is_short(out.len(), next, LONGEST) {
            return Listed { count: i, at: next };
        }
        next = put_record(out, next, granules[i], places[i], sequences[i]);
        i += 1;
    }
    Listed { count: i, at: next }
}
