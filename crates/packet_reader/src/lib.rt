// Audio packets of one or more streams (RFC 7845, 3; RFC 6716, 3 and Appendix B): what they are made of.
#![tactic(auto)]

ghost use Rattle.refusal.specs.Told.{told};
ghost use Rattle.std.specs.Prelude.{◌≡◌, ◌-◌, ◌≤◌};
ghost use Rattle.packet_frames.specs.Packet.{parse};
ghost use Rattle.packet_reader.specs.Streams.{measured_of, read_packet, is_single};
ghost use Rattle.packet_reader.specs.Code.{made_of, OpusIs, contents_in, agreed, joined};

use packet_frames::FRAME_MAX;
use refusal::Refusal;

// What feeding lists of an audio packet: its length in samples at 48 kHz, and the number of frames of its first Opus packet.
#[derive(Clone, Copy)]
pub struct Measure {
    pub samples: u32,
    pub frames: u32,
}

// What an audio packet is made of. All but the length is of its first Opus packet: its frames, whether it is stereo, and
// whether every frame is empty.
#[derive(Clone, Copy)]
pub struct Contents {
    pub measure: Measure,
    pub stereo: bool,
    pub silent: bool,
}

// What an Opus packet is made of, and the place after it.
#[derive(Clone, Copy)]
struct OpusRead {
    contents: Contents,
    next: usize,
}

// A packet in front of later ones: what it is made of, if they are legal and have its length. What they are is known first, so
// that an illegal one is told before a length that differs.
fn with_first(first: Contents, later: Result<Contents, Refusal>) -> Result<Contents, Refusal>
    ensures { result ≡ joined first later }
{
    let second = later?;
    if second.measure.samples != first.measure.samples {
        return Err(Refusal::MixedLengths);
    }
    Ok(first)
}

// An Opus packet by its first byte, the number of its frames, and whether they are empty.
fn made_of(toc: u8, frames: u32, silent: bool) -> Contents
    requires { frames ≤ 63 }
    ensures { result ≡ made_of toc frames silent }
{
    Contents {
        measure: Measure {
            samples: frames * packet_toc::frame_samples(toc),
            frames,
        },
        stereo: packet_toc::is_stereo(toc),
        silent,
    }
}

// What an Opus packet is made of, and the place after it.
fn read_opus(s: &[u8], delimited: bool) -> Option<OpusRead>
    ensures { OpusIs s.now (contents_in s.now (parse delimited s.now)) result }
{
    let toc = octets::byte_at(s, 0);
    let framed = packet_frames::packet_frames(s, delimited)?;
    Some(OpusRead {
        contents: made_of(toc, framed.count as u32, framed.silent),
        next: framed.next,
    })
}

// The last packet, or a self-delimited one and the streams that follow it.
fn read_streams(s: &[u8], streams: u64) -> Result<Contents, Refusal>
    ensures { result ≡ agreed (measured_of (streams - 1) s.now) }
{
    let first = read_opus(s, streams > 1).ok_or(Refusal::IllegalPacket)?;
    if streams <= 1 {
        return Ok(first.contents);
    }
    let later = read_streams(&s[first.next..], streams - 1);
    with_first(first.contents, later)
}

// What an audio packet of so many streams is made of. 13: the number of streams is not from 1 to 255. 15: not 13, and one of
// its Opus packets is illegal. 16: neither, and they differ in length.
// Example: `read_packet(&[0xfc], 1)` gives `Ok` with 960 samples, 1 frame, stereo and silent both true: one empty frame of 20 ms.
pub fn read_packet(bytes: &[u8], streams: u64) -> Result<Contents, Refusal>
    ensures { told result ≡ read_packet bytes.now streams }
{
    if streams == 0 {
        return Err(Refusal::BadMapping);
    }
    let many = streams > 255;
    if many {
        return Err(Refusal::BadMapping);
    }
    read_streams(bytes, streams)
}

// Whether the bytes are a packet of one frame that has no length coded, by its first byte and its length (RULES.md, 6): nearly
// all packets of one stream are. As a packet of one stream it is then legal. It refuses nothing.
// Example: `is_single(&[0xf8, 0xaa])` is true, and `is_single(&[0xf9, 0xaa])` is false.
pub fn is_single(bytes: &[u8]) -> bool
    ensures { result ≡ is_single bytes.now }
{
    let toc = octets::byte_at(bytes, 0);
    (bytes.len() > 0) & ((bytes.len() < FRAME_MAX + 2) & (toc % 4 == 0))
}

// The same as `read_packet` (RULES.md, 6). A legal packet of one stream with the code 0 is answered at once, in so little
// code that it can be in its caller's loop. Example: `read_packet_quick(&[0xf8, 0xaa], 1)` gives `Ok` with 960 samples and
// 1 frame, stereo and silent both false.
pub fn read_packet_quick(bytes: &[u8], streams: u64) -> Result<Contents, Refusal>
    ensures { told result ≡ read_packet bytes.now streams }
{
    if streams == 1 {
        if is_single(bytes) {
            return Ok(made_of(octets::byte_at(bytes, 0), 1, bytes.len() == 1));
        }
    }
    read_packet(bytes, streams)
}
