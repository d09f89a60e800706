// The lists of a page where a packet completes: 15 to 19, and the entries. Nearly all pages have packets of one frame and one
// first byte, and these need no array of measures.
ghost use Rattle.std.specs.Prelude.{◌<◌, ◌≤◌, ◌^◌, [], replicate};
ghost use Rattle.refusal.specs.Told.{gives};
ghost use Rattle.stream.specs.Lent.{lent_of};
ghost use Rattle.feed_audio.specs.Code.{count_of, measured, packets_by, Measurable};
ghost use Rattle.feed_audio.specs.Alike.{single, Roomy, ListsPage};

use super::packets::Piece;
use super::{packets, times};
use granule::Placed;
use packet_reader::Measure;
use page_layout::PageHeader;
use refusal::Refusal;
use stream::Core;

// How many packets there are, the sum of their lengths, where they lie, and how many samples are then still to skip.
#[derive(Clone, Copy)]
pub(crate) struct Listed {
    pub(crate) count: usize,
    pub(crate) samples: u32,
    pub(crate) place: Placed,
    pub(crate) left: u16,
}

// Lists `count` packets of one frame that have the first byte `toc`.
fn list_alike(
    core: Core,
    h: PageHeader,
    count: usize,
    toc: u8,
    skip: u16,
    ends: &mut [u64],
    lengths: &mut [u64],
    kept: &mut [u64],
    frames: &mut [u64],
) -> Result<Listed, Refusal>
    requires few { count ≤ 255 }
    requires room { Roomy ends.old lengths.old kept.old frames.old }
    requires small { h.granule < 2 ^ 63 }
    ensures { ListsPage result core h skip (gives (replicate count (single toc)))
        (lent_of [] ends.old lengths.old kept.old frames.old)
        ends.new lengths.new kept.new frames.new }
{
    let samples = packet_toc::frame_samples(toc);
    let d = count as u32 * samples;
    let timed = times::judge_page(core, h, count, d)?;
    let place = timed.place;
    let last = page_flags::is_last_page(h.flags);
    let m = packets::packed(Measure { samples, frames: 1 });
    let left = times::list_same(
        m,
        timed.count,
        place.from,
        skip,
        last,
        h.granule,
        ends,
        lengths,
        kept,
        frames,
    );
    Ok(Listed {
        count: timed.count,
        samples: timed.samples,
        place,
        left,
    })
}

// Measures the packets of a page one by one, and lists them.
fn list_measured(
    core: Core,
    h: PageHeader,
    first: Piece,
    skip: u16,
    lacing: &[u8],
    body: &[u8],
    carry: &[u8],
    ends: &mut [u64],
    lengths: &mut [u64],
    kept: &mut [u64],
    frames: &mut [u64],
) -> Result<Listed, Refusal>
    requires measurable { Measurable core.pending first.values first.bytes lacing.now body.now carry.now ends.old }
    requires room { Roomy ends.old lengths.old kept.old frames.old }
    requires small { h.granule < 2 ^ 63 }
    ensures { ListsPage result core h skip (measured (count_of core.streams)
        (packets_by core.pending first.values first.bytes
        lacing.now body.now carry.now))
        (lent_of [] ends.old lengths.old kept.old frames.old)
        ends.new lengths.new kept.new frames.new }
{
    let mut measures = [0u32; 255];
    let timed = times::time_page(core, h, first, lacing, body, carry, &mut measures)?;
    let place = timed.place;
    let last = page_flags::is_last_page(h.flags);
    let left = times::list_packets(
        &measures,
        timed.count,
        place.from,
        skip,
        last,
        h.granule,
        ends,
        lengths,
        kept,
        frames,
    );
    Ok(Listed {
        count: timed.count,
        samples: timed.samples,
        place,
        left,
    })
}

// Lists the packets that complete on a page whose first piece ends; a held packet is whole in `carry`. Under a refusal the lists
// stay.
pub(crate) fn list_page(
    core: Core,
    h: PageHeader,
    first: Piece,
    skip: u16,
    lacing: &[u8],
    body: &[u8],
    carry: &[u8],
    ends: &mut [u64],
    lengths: &mut [u64],
    kept: &mut [u64],
    frames: &mut [u64],
) -> Result<Listed, Refusal>
    requires measurable { Measurable core.pending first.values first.bytes lacing.now body.now carry.now ends.old }
    requires room { Roomy ends.old lengths.old kept.old frames.old }
    requires small { h.granule < 2 ^ 63 }
    ensures { ListsPage result core h skip (measured (count_of core.streams)
        (packets_by core.pending first.values first.bytes
        lacing.now body.now carry.now))
        (lent_of [] ends.old lengths.old kept.old frames.old)
        ends.new lengths.new kept.new frames.new }
{
    let pending = core.pending;
    let streams = packets::stream_count(core.streams);
    match packets::same_on(pending, streams, lacing, body) {
        Some(same) => list_alike(
            core, h, same.count, same.toc, skip, ends, lengths, kept, frames,
        ),
        None => list_measured(
            core, h, first, skip, lacing, body, carry, ends, lengths, kept, frames,
        ),
    }
}
