// The pieces of a page by its lacing values, and the measures of the packets that complete on it.
ghost use Rattle.std.specs.Prelude.{◌≡◌, ◌+◌, ◌<◌, ◌≤◌, length, take, drop};
ghost use Rattle.stream.specs.Page.{whole_from};
ghost use Rattle.feed_audio.specs.Code.{first_from, count_of, Packable, packed_of, measures_in, in_front, measured};
ghost use Rattle.feed_audio.specs.Code.{Measures, Ready, packets_by, Measurable};
ghost use Rattle.feed_audio.specs.Alike.{is_single_of, Cut, Alike, AlikeOn};

use packet_reader::Measure;
use refusal::Refusal;
use stream::Pending;

// The first piece of a page: its lacing values and bytes, and whether a packet ends with it.
#[derive(Clone, Copy)]
pub(crate) struct Piece {
    pub(crate) values: usize,
    pub(crate) bytes: usize,
    pub(crate) ends: bool,
}

pub(crate) fn first_piece(lacing: &[u8]) -> Piece
    requires { length lacing.now ≤ 255 }
    ensures { result ≡ first_from 0 lacing.now }
{
    let mut bytes: usize = 0;
    for (i, x) in lacing.iter().enumerate() {
        let v = octets::wide(*x);
        bytes += v;
        if v < 255 {
            return Piece {
                values: i + 1,
                bytes,
                ends: true,
            };
        }
    }
    Piece {
        values: lacing.len(),
        bytes,
        ends: false,
    }
}

// How many packets there are, and the sum of their lengths in samples.
#[derive(Clone, Copy)]
pub(crate) struct Measured {
    pub(crate) count: usize,
    pub(crate) samples: u32,
}

// How many packets complete: each has one frame, no length coded, and this first byte.
#[derive(Clone, Copy)]
pub(crate) struct Same {
    pub(crate) count: usize,
    pub(crate) toc: u8,
}

// A measure in one number, so that those of a page are one array: no packet has 64 frames.
pub(crate) fn packed(m: Measure) -> u32
    requires { Packable m }
    ensures { result ≡ packed_of m }
{
    m.samples * 64 + m.frames
}

// A reader that has its headers has 1 to 255 streams.
pub(crate) fn stream_count(streams: u8) -> u64
    ensures { result ≡ count_of streams }
{
    if streams == 0 { 1 } else { streams as u64 }
}

// Measures the packets that complete in `body` from value `from` and byte `at` on, into `measures`. The first `n` are there
// already, and have `d` samples.
fn measure(
    lacing: &[u8],
    body: &[u8],
    from: usize,
    at: usize,
    streams: u64,
    measures: &mut [u32],
    n: usize,
    d: u32,
) -> Result<Measured, Refusal>
    requires { Ready from at n d lacing.now body.now measures.old }
    ensures { Measures result measures.new (in_front (measures_in (take n measures.old))
        (measured streams (whole_from 0 (drop from lacing.now) (drop at body.now)))) }
{
    let mut count = n;
    let mut sum = d;
    let mut start = at;
    let mut bytes: usize = 0;
    for i in from..lacing.len() {
        let v = octets::wide(lacing[i]);
        bytes += v;
        if v < 255 {
            let end = start + bytes;
            let contents = packet_reader::read_packet_quick(&body[start..end], streams)?;
            let m = contents.measure;
            measures[count] = packed(m);
            count += 1;
            sum += m.samples;
            start = end;
            bytes = 0;
        }
    }
    Ok(Measured {
        count,
        samples: sum,
    })
}

// Measures the packets of a page whose first piece, of `values` values and `bytes` bytes, ends. A held packet is whole in
// `carry`.
pub(crate) fn measure_page(
    pending: Pending,
    values: usize,
    bytes: usize,
    lacing: &[u8],
    body: &[u8],
    carry: &[u8],
    streams: u64,
    measures: &mut [u32],
) -> Result<Measured, Refusal>
    requires { Measurable pending values bytes lacing.now body.now carry.now measures.old }
    ensures { Measures result measures.new (measured streams
        (packets_by pending values bytes lacing.now body.now carry.now)) }
{
    match pending {
        Pending::Nothing => measure(lacing, body, 0, 0, streams, measures, 0, 0),
        Pending::Dropped => measure(lacing, body, values, bytes, streams, measures, 0, 0),
        Pending::Held(n) => {
            let whole = n + bytes;
            let contents = packet_reader::read_packet(&carry[..whole], streams)?;
            let m = contents.measure;
            measures[0] = packed(m);
            measure(lacing, body, values, bytes, streams, measures, 1, m.samples)
        }
    }
}

fn is_single_of(bytes: &[u8], toc: u8) -> bool
    ensures { result ≡ is_single_of toc bytes.now }
{
    let first = octets::byte_at(bytes, 0);
    packet_reader::is_single(bytes) & (first == toc)
}

// Whether the packets that complete in `body`, from its start on, all have one frame, no length coded, and one first byte.
fn same_packets(lacing: &[u8], body: &[u8]) -> Option<Same>
    requires { Cut lacing.now body.now }
    ensures { Alike result lacing.now body.now }
{
    let toc = octets::byte_at(body, 0);
    let mut count: usize = 0;
    let mut start: usize = 0;
    let mut bytes: usize = 0;
    for x in lacing {
        let v = octets::wide(*x);
        bytes += v;
        if v < 255 {
            let end = start + bytes;
            if !is_single_of(&body[start..end], toc) {
                return None;
            }
            start = end;
            count += 1;
            bytes = 0;
        }
    }
    Some(Same { count, toc })
}

// The same of a page's packets, by what is pending. A reader of several streams is told that they differ.
pub(crate) fn same_on(pending: Pending, streams: u64, lacing: &[u8], body: &[u8]) -> Option<Same>
    requires { Cut lacing.now body.now }
    ensures { AlikeOn result pending streams lacing.now body.now }
{
    let several = streams != 1;
    if several {
        return None;
    }
    match pending {
        Pending::Nothing => same_packets(lacing, body),
        Pending::Dropped => None,
        Pending::Held(n) => None,
    }
}
