// Writing the identification header of an Ogg Opus stream (RFC 7845, 5.1; RFC 8486, 3).
#![tactic(auto)]

ghost use Rattle.std.specs.Prelude.{◌≡◌};
ghost use Rattle.octets.specs.Octets.{copied};
ghost use Rattle.head_writer.specs.Writing.{start_of, head_bytes, HeadFits, Wrote};

use head_fields::{Head, SIGNATURE, START_LENGTH, place};
use refusal::Refusal;

// The bytes before the table.
fn start_of(h: Head) -> [u8; START_LENGTH]
    ensures { result ≡ start_of h }
{
    let gain = h.gain;
    let s = SIGNATURE;
    let p = number_writer::octets64(h.preskip as u64);
    let r = number_writer::octets64(h.rate as u64);
    let g = number_writer::octets64(number_signed::unsigned16(gain) as u64);
    [
        s[0], s[1], s[2], s[3], s[4], s[5], s[6], s[7], h.version, h.channels, p[0], p[1], r[0],
        r[1], r[2], r[3], g[0], g[1], h.family,
    ]
}

// A header of right fields and its matrix, into an output with room for them.
fn put_head(h: Head, matrix: &[u8], out: &mut [u8])
    requires { HeadFits h matrix.now out.old }
    ensures { out.new ≡ copied out.old 0 (head_bytes h matrix.now) }
{
    let start = start_of(h);
    octets::copy_at(out, 0, &start);
    if head_families::has_counts(h.family) {
        let mapping = h.mapping;
        let used = head_families::index_count(h.family, h.channels);
        number_writer::put8(out, place::STREAMS, h.streams);
        number_writer::put8(out, place::COUPLED, h.coupled);
        octets::copy_at(out, place::INDICES, &mapping[..used]);
        octets::copy_at(out, place::INDICES + used, matrix);
    }
}

// The header of these fields and this matrix, written to the start of `out`. 23: the version is not 1, the channel mapping is
// wrong, family 0 has other counts or indices than its own, an unused place of the mapping is not zero, the header would be
// longer than 61,440 bytes, or the matrix does not have the bytes that family 3 asks for, and none in another family. 22: not
// 23, and `out` is shorter than the header. On refusal nothing is written.
// Example: right fields of family 0 and no matrix give `Ok(19)`, where `out` has 19 bytes or more.
pub fn write_head(h: Head, matrix: &[u8], out: &mut [u8]) -> Result<usize, Refusal>
    ensures { Wrote h matrix.now out.old result out.new }
{
    if !head_fields::writable_head(h) {
        return Err(Refusal::UnfitFields);
    }
    let other = matrix.len()
        != head_families::matrix_length(h.family, h.streams, h.coupled, h.channels);
    if other {
        return Err(Refusal::UnfitFields);
    }
    let size = head_fields::head_length(h.family, h.streams, h.coupled, h.channels);
    if out.len() < size {
        return Err(Refusal::ShortOutput);
    }
    put_head(h, matrix, out);
    Ok(size)
}
