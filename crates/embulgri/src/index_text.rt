// The lines that the program prints of an index and of a seek, for it alone. Each function puts whole lines into a lent buffer
// (RULES.md, 15).
ghost use Rattle.text_put.specs.Writing.{Put};
ghost use Rattle.index_lines.specs.Lines.{index_first, seek_first, found_line, begin_line};
ghost use Rattle.index_lines.specs.Lines.{number_refused_line, place_refused_line};
ghost use Rattle.embulgri.specs.Index.{RecordsIn};

// The line above all records, from place `at` of `out` on: it returns the place after it, or `at` where it does not fit
// (embulgri.h). Example: with at 0 and an `out` of 23 bytes or more it returns 23.
pub fn embulgri_index_first(out: &mut [u8], at: u64) -> u64
    ensures { Put out.old at index_first result out.new }
{
    index_lines::put_index_first(out, at as usize) as u64
}

// The lines of records, from place `at` of `out` on, as long as the longest line would fit. Into `put`: how many lines, and the
// place after them (embulgri.h).
// Example: the granule position 960, the place 5123 and the sequence number 2 put "960 5123 2" and a line feed.
pub fn embulgri_index_records(
    granules: &[u64],
    places: &[u64],
    sequences: &[u32],
    out: &mut [u8],
    at: u64,
    put: &mut [u64; 2],
)
    ensures { RecordsIn granules.now places.now sequences.now at
        out.old out.new put.new }
{
    let listed = index_lines::put_records(granules, places, sequences, out, at as usize);
    *put = [listed.count as u64, listed.at as u64];
}

// The line above what a seek found, from place `at` of `out` on: it returns the place after it, or `at` where it does not fit
// (embulgri.h). Example: with at 0 and an `out` of 30 bytes or more it returns 30.
pub fn embulgri_seek_first(out: &mut [u8], at: u64) -> u64
    ensures { Put out.old at seek_first result out.new }
{
    index_lines::put_seek_first(out, at as usize) as u64
}

// The line of the record that a seek found and of its probes, in the same way (embulgri.h).
// Example: 960, 5123, 2 and 7 put "960 5123 2 7" and a line feed.
pub fn embulgri_seek_found(
    granule: u64,
    place: u64,
    sequence: u32,
    probes: u64,
    out: &mut [u8],
    at: u64,
) -> u64
    ensures { Put out.old at (found_line granule place sequence probes) result out.new }
{
    index_lines::put_found(out, at as usize, granule, place, sequence, probes) as u64
}

// The line of a seek that found no record, in the same way (embulgri.h). Example: 7 probes put "begin 7" and a line feed.
pub fn embulgri_seek_begin(probes: u64, out: &mut [u8], at: u64) -> u64
    ensures { Put out.old at (begin_line probes) result out.new }
{
    index_lines::put_begin(out, at as usize, probes) as u64
}

// The line of a refusal that names neither a page nor a place, in the same way (embulgri.h).
// Example: number 24 puts "refused 24" and a line feed.
pub fn embulgri_index_refused(number: u64, out: &mut [u8], at: u64) -> u64
    ensures { Put out.old at (number_refused_line number) result out.new }
{
    index_lines::put_number_refused(out, at as usize, number) as u64
}

// The line of a refusal with its place, in the same way (embulgri.h).
// Example: number 26 and place 3 put "refused 26 place 3" and a line feed.
pub fn embulgri_seek_refused(number: u64, place: u64, out: &mut [u8], at: u64) -> u64
    ensures { Put out.old at (place_refused_line number place) result out.new }
{
    index_lines::put_place_refused(out, at as usize, number, place) as u64
}
