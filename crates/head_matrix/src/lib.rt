// The matrix of an identification header of family 3 (RFC 8486, 3.2): how long it is, its bytes, and its entries. Nothing is
// copied.
#![tactic(auto)]

ghost use Rattle.refusal.specs.Told.{told};
ghost use Rattle.std.specs.Prelude.{◌≡◌};
ghost use Rattle.head_reader.specs.Reading.{read_matrix};
ghost use Rattle.head_matrix.specs.Matrix.{read_size, matrix_in, entry_at, read_entry};

use head_fields::place;
use refusal::Refusal;

// How many bytes the matrix has (RULES.md, 4). It lies from place 21 on. 12 and 13: as `head_reader::read_head` tells.
// Example: of a right header of family 3 with 4 channels, 2 streams and 2 coupled it gives `Ok(32)`. Of any right
// header of family 0 it gives `Ok(0)`.
pub fn read_size(b: &[u8]) -> Result<usize, Refusal>
    ensures { told result ≡ read_size b.now }
{
    let read = head_reader::read_head(b);
    read.verdict?;
    let h = read.head;
    Ok(head_families::matrix_length(h.family, h.streams, h.coupled, h.channels))
}

// The bytes of the matrix, empty where `read_size` refuses and where the family has none (RULES.md, 4).
// Example: of a right header of family 3 with 1 channel and 1 stream it is the 2 bytes from place 21 on.
pub fn matrix(b: &[u8]) -> &[u8]
    ensures { result.now ≡ matrix_in (read_matrix b.now) }
{
    let n = read_size(b).unwrap_or(0);
    octets::part_of(b, place::MATRIX, n)
}

// Entry i of the bytes of a matrix, the first being 0 (RULES.md, 4). 20: it has no such entry.
// Example: `entry_at(&[0xff, 0x7f], 0)` gives `Ok(32767)`, and entry 1 is refused by 20.
pub fn entry_at(m: &[u8], i: usize) -> Result<i16, Refusal>
    ensures { told result ≡ entry_at m.now i }
{
    let past = i >= m.len() / 2;
    if past {
        return Err(Refusal::NoSuchPart);
    }
    Ok(number_signed::signed16(number_reader::number16(m, 2 * i)))
}

// Entry i of the matrix, the first being 0, in the stored order (RULES.md, 4). 12 and 13: as `head_reader::read_head` tells. 20:
// neither, and the matrix has no such entry, as in every family but 3.
// Example: where the matrix begins with the bytes 0xff and 0x7f, `read_entry(b, 0)` gives `Ok(32767)`.
pub fn read_entry(b: &[u8], i: usize) -> Result<i16, Refusal>
    ensures { told result ≡ read_entry b.now i }
{
    let n = read_size(b)?;
    entry_at(octets::part_of(b, place::MATRIX, n), i)
}
