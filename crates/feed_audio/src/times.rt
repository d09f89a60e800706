// 15 to 19, and the lists: when the packets of a page end, and how much of them is kept.
ghost use Rattle.std.specs.Prelude.{◌≡◌, ℕ, ◌+◌, ◌-◌, ◌/◌, ◌%◌, ◌<◌, ◌^◌, take, set, replicate, List, []};
ghost use Rattle.refusal.specs.Told.{Told};
ghost use Rattle.packet_reader.specs.declared.Measure.{Measure};
ghost use Rattle.granule.specs.Samples.{trimmed_of, kept_of};
ghost use Rattle.stream.specs.Lent.{lent_of};
ghost use Rattle.stream.specs.Packets.{samples_of};
ghost use Rattle.stream.specs.Feed.{entries};
ghost use Rattle.feed_audio.specs.Code.{count_of, measures_in, measured, packets_by, Measurable, Times, Room, Lists};
ghost use Rattle.feed_audio.specs.Code.{all_of, Measures, Placeable, counts_by};

use super::packets;
use super::packets::Piece;
use granule::Placed;
use page_layout::PageHeader;
use refusal::Refusal;
use stream::{Core, Counts};

// How many packets there are, the sum of their lengths, and where they lie.
#[derive(Clone, Copy)]
pub(crate) struct Timed {
    pub(crate) count: usize,
    pub(crate) samples: u32,
    pub(crate) place: Placed,
}

// Judges a page by `count` packets of `d` samples in all: where they lie, or 17 to 19.
pub(crate) fn judge_page(core: Core, h: PageHeader, count: usize, d: u32) -> Result<Timed, Refusal>
    requires { h.granule < 2 ^ 63 }
    ensures { (packed : List ℕ) (t : Told (List Measure)) →
        Measures (all_of count d) packed t → Times result packed core h t }
{
    let position = core.position;
    let last = page_flags::is_last_page(h.flags);
    let place = granule::judge(position, core.preskip, h.granule, d, last)?;
    Ok(Timed {
        count,
        samples: d,
        place,
    })
}

// Measures the packets that complete on a page, into `measures`, and judges the page by their lengths: where they lie, or 15
// to 19.
pub(crate) fn time_page(
    core: Core,
    h: PageHeader,
    first: Piece,
    lacing: &[u8],
    body: &[u8],
    carry: &[u8],
    measures: &mut [u32],
) -> Result<Timed, Refusal>
    requires measurable { Measurable core.pending first.values first.bytes lacing.now body.now carry.now measures.old }
    requires small { h.granule < 2 ^ 63 }
    ensures { Times result measures.new core h (measured (count_of core.streams)
        (packets_by core.pending first.values first.bytes
        lacing.now body.now carry.now)) }
{
    let pending = core.pending;
    let streams = packets::stream_count(core.streams);
    let all = packets::measure_page(
        pending,
        first.values,
        first.bytes,
        lacing,
        body,
        carry,
        streams,
        measures,
    )?;
    judge_page(core, h, all.count, all.samples)
}

// The samples that are to skip after `d` others.
fn skip_after(skip: u16, d: u32) -> u16
    ensures { result ≡ skip - d }
{
    if skip as u32 <= d { 0 } else { skip - d as u16 }
}

fn wide(d: u32) -> u64
    ensures { result ≡ d }
{
    d as u64
}

// Lists one packet, at place `i`: its measure is `m`, it begins after position `at`, and `left` samples are still to skip.
fn list_one(
    i: usize,
    m: u32,
    at: u64,
    left: u16,
    last: bool,
    g: u64,
    ends: &mut [u64],
    lengths: &mut [u64],
    kept: &mut [u64],
    frames: &mut [u64],
)
    requires { Placeable i m at ends.old lengths.old kept.old frames.old }
    ensures ends { ends.new ≡ set ends.old i (at + m / 64) }
    ensures lengths { lengths.new ≡ set lengths.old i (m / 64) }
    ensures kept { kept.new ≡ set kept.old i (kept_of left last g at (m / 64)) }
    ensures frames { frames.new ≡ set frames.old i (m % 64) }
{
    let d = m / 64;
    let samples = wide(d);
    ends[i] = at + samples;
    lengths[i] = samples;
    kept[i] = granule::kept(at, d, left, g, last);
    frames[i] = wide(m % 64);
}

// Lists the packets of the first `n` measures, the first beginning after position `from`: how many samples are then still to
// skip.
pub(crate) fn list_packets(
    measures: &[u32],
    n: usize,
    from: u64,
    skip: u16,
    last: bool,
    g: u64,
    ends: &mut [u64],
    lengths: &mut [u64],
    kept: &mut [u64],
    frames: &mut [u64],
) -> u16
    requires { Room n from measures.now ends.old lengths.old kept.old frames.old }
    ensures { Lists result skip (samples_of (measures_in (take n measures.now)))
        (entries skip last g from (measures_in (take n measures.now)))
        (lent_of [] ends.old lengths.old kept.old frames.old)
        ends.new lengths.new kept.new frames.new }
{
    let mut at = from;
    let mut left = skip;
    for i in 0..n {
        let m = measures[i];
        let d = m / 64;
        list_one(i, m, at, left, last, g, ends, lengths, kept, frames);
        at += wide(d);
        left = skip_after(left, d);
    }
    left
}

// The same of `n` packets with one measure.
// stays: one function of both would take the measure of place `i` by a closure, whose contract is longer than this loop.
pub(crate) fn list_same(
    m: u32,
    n: usize,
    from: u64,
    skip: u16,
    last: bool,
    g: u64,
    ends: &mut [u64],
    lengths: &mut [u64],
    kept: &mut [u64],
    frames: &mut [u64],
) -> u16
    requires { Room n from (replicate n m) ends.old lengths.old kept.old frames.old }
    ensures { Lists result skip (samples_of (measures_in (replicate n m)))
        (entries skip last g from (measures_in (replicate n m)))
        (lent_of [] ends.old lengths.old kept.old frames.old)
        ends.new lengths.new kept.new frames.new }
{
    let d = m / 64;
    let mut at = from;
    let mut left = skip;
    for i in 0..n {
        list_one(i, m, at, left, last, g, ends, lengths, kept, frames);
        at += wide(d);
        left = skip_after(left, d);
    }
    left
}

// The page's own record.
pub(crate) fn counts_of(
    count: usize,
    d: u32,
    place: Placed,
    skip: u16,
    last: bool,
    g: u64,
) -> Counts
    requires { place.trimmed ≡ trimmed_of last g place.from d }
    ensures { result ≡ counts_by count d place skip last g }
{
    let samples = d as u64;
    let kept = granule::kept(place.from, d, skip, g, last);
    Counts {
        packets: count as u64,
        samples,
        kept,
        skipped: samples - kept - place.trimmed,
        trimmed: place.trimmed,
        hole: place.hole,
    }
}
