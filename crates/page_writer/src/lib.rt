// Writing an Ogg page (RFC 3533), and computing the checksum of a page again.
#![tactic(auto)]

ghost use Rattle.std.specs.Prelude.{◌≡◌, ◌≤◌, length};
ghost use Rattle.octets.specs.Octets.{copied};
ghost use Rattle.page_writer.specs.Writing.{with_checksum, start_of, page_bytes, page_size, Wrote, WroteAny};

use page_layout::{CAPTURE, CHECKSUM_AT, LACING_AT, PageHeader};
use refusal::Refusal;

// Puts the page's checksum into its field (RULES.md, 3; RFC 3533, 6). It refuses nothing: bytes that end before the field's
// end stay as they are. Example: "OggS" and 23 zero bytes get the bytes 11 a5 a1 9e, in hexadecimal, at places 22 to 25.
pub fn renew_checksum(page: &mut [u8])
    ensures { page.new ≡ with_checksum page.old }
{
    let sum = page_crc::page_checksum(page);
    number_writer::put32(page, CHECKSUM_AT, sum);
}

// The bytes before the lacing values, the checksum zero.
fn start_of(h: PageHeader, count: u8) -> [u8; LACING_AT]
    ensures { result ≡ start_of h count }
{
    let c = CAPTURE;
    let g = number_writer::octets64(h.granule);
    let s = number_writer::octets64(h.serial as u64);
    let q = number_writer::octets64(h.sequence as u64);
    [
        c[0], c[1], c[2], c[3], 0, h.flags, g[0], g[1], g[2], g[3], g[4], g[5], g[6], g[7], s[0],
        s[1], s[2], s[3], q[0], q[1], q[2], q[3], 0, 0, 0, 0, count,
    ]
}

// The page of fields that fit, into an output with room for it.
fn put_page(h: PageHeader, lacing: &[u8], body: &[u8], out: &mut [u8])
    requires lacing_len_bound { length lacing.now ≤ 255 }
    requires body_in_bounds { page_size lacing.now body.now ≤ length out.old }
    ensures { out.new ≡ copied out.old 0 (page_bytes h lacing.now body.now) }
{
    let count = lacing.len();
    let size = LACING_AT + count + body.len();
    let start = start_of(h, count as u8);
    octets::copy_at(out, 0, &start);
    octets::copy_at(out, LACING_AT, lacing);
    octets::copy_at(out, LACING_AT + count, body);
    renew_checksum(&mut out[..size]);
}

// The page of these fields, lacing values and body, written to the start of `out`, for any flags (RULES.md, 3 and 16; RFC 3533,
// 6). 23: more than 255 values, or values that do not sum to the body's length. 22: not 23, and `out` is shorter than the page.
// On refusal nothing is written.
// Example: `write_any_page(h, &[3], b"abc", &mut out)` gives `Ok(31)` also where the flags are 8, if `out` has
// 31 bytes.
pub fn write_any_page(
    h: PageHeader,
    lacing: &[u8],
    body: &[u8],
    out: &mut [u8],
) -> Result<usize, Refusal>
    ensures { WroteAny h lacing.now body.now out.old result out.new }
{
    if !page_lacing::is_body(lacing, body) {
        return Err(Refusal::UnfitFields);
    }
    let size = LACING_AT + lacing.len() + body.len();
    if out.len() < size {
        return Err(Refusal::ShortOutput);
    }
    put_page(h, lacing, body, out);
    Ok(size)
}

// The same for flags of at most 7, the marks that a page can have: any others are refused by 23.
// Example: `write_page(h, &[3], b"abc", &mut out)` gives `Ok(31)`, where the flags and `out` allow it.
pub fn write_page(
    h: PageHeader,
    lacing: &[u8],
    body: &[u8],
    out: &mut [u8],
) -> Result<usize, Refusal>
    ensures { Wrote h lacing.now body.now out.old result out.new }
{
    let unknown = h.flags > 7;
    if unknown {
        return Err(Refusal::UnfitFields);
    }
    write_any_page(h, lacing, body, out)
}
