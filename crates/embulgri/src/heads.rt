// Identification headers, for programs in C, Rust and Python: eight numbers and the 255 places of the mapping. The matrix of
// family 3 stays where it lies in the packet (RULES.md, 14).
ghost use Rattle.embulgri.specs.Answers.{HeadIn, HeadLaid, MatrixIn, EntryIn};

use refusal::Refusal;

// Reads one identification header. Into `fields`: its eight numbers. Into `mapping`: its 255 places. Returns 12, 13 or 0
// (RULES.md, 4; embulgri.h).
// Example: 2 channels, pre-skip 312, rate 48000, gain 0 and family 0 store 1, 2, 312, 48000, 0, 0, 1, 1 and the places 0, 1
// and zeros.
pub fn embulgri_head_read(packet: &[u8], fields: &mut [u64; 8], mapping: &mut [u8; 255]) -> u32
    ensures { HeadIn packet.now result
        fields.old fields.new mapping.old mapping.new }
{
    let read = head_reader::read_head(packet);
    let verdict = read.verdict;
    let head = read.head;
    match verdict {
        Ok(()) => {
            *fields = head_numbers::numbers_of(head);
            let places = head.mapping;
            *mapping = places;
            0
        }
        Err(why) => refusal::number(why) as u32,
    }
}

// Writes one identification header with its matrix to the start of `out`. Into `written`: how many bytes it has. Returns 23, 22
// or 0 (RULES.md, 4; embulgri.h).
// Example: the numbers 1, 2, 312, 48000, 0, 0, 1, 1 with the places 0, 1 and zeros, no matrix, and an `out` of 19 bytes, store
// 19.
pub fn embulgri_head_write(
    fields: &[u64; 8],
    mapping: &[u8; 255],
    matrix: &[u8],
    out: &mut [u8],
    written: &mut u64,
) -> u32
    ensures { HeadLaid fields.now mapping.now matrix.now result
        out.old out.new written.old written.new }
{
    if !head_numbers::numbers_fit(fields) {
        return refusal::number(Refusal::UnfitFields) as u32;
    }
    let head = head_numbers::head_of(fields, mapping);
    let wrote = head_writer::write_head(head, matrix, out);
    match wrote {
        Ok(n) => {
            *written = n as u64;
            0
        }
        Err(why) => refusal::number(why) as u32,
    }
}

// Finds the matrix of an identification header. Into `part`: where it starts in the packet, and how many bytes it has, or two
// zeros where the family has none. Returns 12, 13 or 0 (RULES.md, 4; embulgri.h).
// Example: a right header of family 3 with 4 channels, 2 streams and 2 coupled stores 21 and 32.
pub fn embulgri_head_matrix(packet: &[u8], part: &mut [u64; 2]) -> u32
    ensures { MatrixIn packet.now result part.old part.new }
{
    let read = head_matrix::read_size(packet);
    match read {
        Ok(n) => {
            *part = head_numbers::matrix_numbers(n);
            0
        }
        Err(why) => refusal::number(why) as u32,
    }
}

// Reads entry i of the matrix of an identification header, the first being 0. Into `value`: the entry in 16 bits. Returns 12,
// 13, 20 or 0 (RULES.md, 4; embulgri.h). Example: a matrix that begins with the bytes 0xff and 0xff stores 65535 for entry 0.
pub fn embulgri_head_matrix_entry(packet: &[u8], i: u64, value: &mut u64) -> u32
    ensures { EntryIn packet.now i result value.old value.new }
{
    let read = head_matrix::read_entry(packet, i as usize);
    match read {
        Ok(x) => {
            *value = number_signed::unsigned16(x) as u64;
            0
        }
        Err(why) => refusal::number(why) as u32,
    }
}
