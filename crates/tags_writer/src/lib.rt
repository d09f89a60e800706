// Writing the comment header of an Ogg Opus stream (RFC 7845, 5.2).
#![tactic(auto)]

ghost use Rattle.std.specs.Prelude.{◌≡◌};
ghost use Rattle.octets.specs.Octets.{copied};
ghost use Rattle.tags_reader.specs.Packet.{text_bytes};
ghost use Rattle.tags_writer.specs.Writing.{comments_of, packet_of, Wrote};
ghost use Rattle.tags_writer.specs.Code.{right_lengths, packet_size, SmallParts, right_fields};
ghost use Rattle.tags_writer.specs.Code.{TextRoom, CommentsRoom, PacketRoom};

use limits::PACKET_MAX;
use refusal::Refusal;
use tags_layout::{EMPTY_SIZE, SIGNATURE, VENDOR_PLACE, VENDOR_START};
use tags_rules::Gains;

// Whether the lengths sum to the text, without a sum that could wrap, and the comments are right.
fn right_lengths(text: &[u8], lengths: &[u64]) -> bool
    ensures { result ≡ right_lengths text.now lengths.now }
{
    let mut at = 0;
    let mut gains = Gains {
        track: false,
        album: false,
    };
    for length in lengths {
        let size = *length as usize;
        if text.len() - at < size {
            return false;
        }
        let comment = octets::part_of(text, at, size);
        let Some(next) = tags_rules::judge(comment, gains.track, gains.album) else {
            return false;
        };
        at += size;
        gains = next;
    }
    at == text.len()
}

// How long the packet of these fields is.
fn packet_size(vendor: &[u8], text: &[u8], lengths: &[u64]) -> usize
    requires { SmallParts vendor.now text.now lengths.now }
    ensures { result ≡ packet_size vendor.now text.now lengths.now }
{
    EMPTY_SIZE + vendor.len() + text.len() + 4 * lengths.len()
}

// Whether a packet of these fields is one that reading takes, and no longer than a packet may be.
fn right_fields(vendor: &[u8], text: &[u8], lengths: &[u64]) -> bool
    ensures { result ≡ right_fields vendor.now text.now lengths.now }
{
    if vendor.len() > PACKET_MAX {
        return false;
    }
    if text.len() > PACKET_MAX {
        return false;
    }
    if lengths.len() > PACKET_MAX {
        return false;
    }
    let long = packet_size(vendor, text, lengths) > PACKET_MAX;
    if long {
        return false;
    }
    if !utf8::is_utf8(vendor) {
        return false;
    }
    right_lengths(text, lengths)
}

// A text after its length, into an output with room for it.
fn put_text(out: &mut [u8], at: usize, t: &[u8])
    requires { TextRoom out.old at t.now }
    ensures { out.new ≡ copied out.old at (text_bytes t.now) }
{
    number_writer::put32(out, at, t.len() as u32);
    octets::copy_at(out, at + 4, t);
}

// The comments one after the other, into an output with room for them.
fn put_comments(out: &mut [u8], start: usize, text: &[u8], lengths: &[u64])
    requires { CommentsRoom out.old start text.now lengths.now }
    ensures { out.new ≡ copied out.old start (comments_of text.now lengths.now) }
{
    let mut at = start;
    let mut from = 0;
    for length in lengths {
        let size = *length as usize;
        put_text(out, at, octets::part_of(text, from, size));
        at += 4 + size;
        from += size;
    }
}

// A packet of right fields, into an output with room for it.
fn put_tags(vendor: &[u8], text: &[u8], lengths: &[u64], out: &mut [u8])
    requires { PacketRoom out.old vendor.now text.now lengths.now }
    ensures { out.new
        ≡ copied out.old 0 (packet_of vendor.now text.now lengths.now) }
{
    octets::copy_at(out, 0, &SIGNATURE);
    put_text(out, VENDOR_PLACE, vendor);
    let at = VENDOR_START + vendor.len();
    number_writer::put32(out, at, lengths.len() as u32);
    put_comments(out, at + 4, text, lengths);
}

// The comment header of a vendor and of comments that are joined in `text`, written to the start of `out`. 23: the lengths
// do not sum to the text, the packet would be longer than 61,440 bytes, or reading would refuse it. 22: not 23, and `out` is
// shorter than the packet. On refusal nothing is written.
// Example: `write_tags(b"v", b"a=1b=2", &[3, 3], &mut out)` writes the comments "a=1" and "b=2", and gives
// `Ok(31)`, where `out` has 31 bytes or more.
pub fn write_tags(
    vendor: &[u8],
    text: &[u8],
    lengths: &[u64],
    out: &mut [u8],
) -> Result<usize, Refusal>
    ensures { Wrote vendor.now text.now lengths.now
        out.old result out.new }
{
    if !right_fields(vendor, text, lengths) {
        return Err(Refusal::UnfitFields);
    }
    let size = packet_size(vendor, text, lengths);
    let short = out.len() < size;
    if short {
        return Err(Refusal::ShortOutput);
    }
    put_tags(vendor, text, lengths, out);
    Ok(size)
}
