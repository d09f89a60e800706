// One audio page of an Ogg Opus stream, fed to a reader that expects it: refusals 9, 11 and 15 to 19, the lists, the carry
// buffer and the reader that follows.
#![tactic(auto)]

ghost use Rattle.std.specs.Prelude.{◌≡◌, not, ◌&&◌, List, ℕ, ◌≤◌, length};
ghost use Rattle.octets.specs.Octets.{Bytes};
ghost use Rattle.stream.specs.Page.{page_with};
ghost use Rattle.stream.specs.Readings.{readings};
ghost use Rattle.stream.specs.Feed.{reader_of, FedIs, told_page};
ghost use Rattle.stream.specs.Lent.{Lent, lent_of, with_carry, at_entry, at_exit};
ghost use Rattle.stream.specs.State.{is_audio};
ghost use Rattle.feed_audio.specs.Audio.{audio_on, FeedsAudio};
ghost use Rattle.feed_audio.specs.Code.{fresh_by, fed_past11, Fitting, AnyCompletes, NoneCompletes};
ghost use Rattle.page_lacing.specs.Lacing.{is_body};

use granule::Position;
use packets::Piece;
use page_layout::PageHeader;
use refusal::Refusal;
use stream::{Core, PageFed, Phase, Tally};

mod carried;
mod lists;
mod packets;
mod times;

// Feeds a page where an audio packet completes.
fn feed_completing(
    core: Core,
    tally: Tally,
    h: PageHeader,
    first: Piece,
    rest: usize,
    lacing: &[u8],
    body: &[u8],
    carry: &mut [u8],
    ends: &mut [u64],
    lengths: &mut [u64],
    kept: &mut [u64],
    frames: &mut [u64],
) -> Result<PageFed, Refusal>
    requires { AnyCompletes core h first rest lacing.now body.now
        (lent_of carry.old ends.old lengths.old kept.old frames.old) }
    ensures { (crc : Bytes → ℕ) →
        FedIs (fed_past11 (readings crc) (reader_of core tally) (at_entry carry ends lengths kept frames)
        (page_with h lacing.now body.now)) (told_page result) (at_exit carry ends lengths kept frames) }
{
    let pending = core.pending;
    let skip = tally.skip;
    carried::append(pending, first.bytes, body, carry);
    let listed = lists::list_page(
        core, h, first, skip, lacing, body, carry, ends, lengths, kept, frames,
    )?;
    let last = page_flags::is_last_page(h.flags);
    carried::keep_rest(rest, body, carry);
    let counts = times::counts_of(
        listed.count,
        listed.samples,
        listed.place,
        skip,
        last,
        h.granule,
    );
    let next = carried::next_core(core, h, carried::begun(rest), Position::At(h.granule));
    Ok(PageFed {
        core: next,
        tally: feed_next::next_tally(tally, listed.left, counts),
        counts,
    })
}

// Feeds a page where no packet completes; its piece has `bytes` bytes.
fn feed_piece(
    core: Core,
    tally: Tally,
    h: PageHeader,
    bytes: usize,
    rest: usize,
    body: &[u8],
    carry: &mut [u8],
) -> Result<PageFed, Refusal>
    requires piece { bytes ≤ length body.now }
    requires fresh { fresh_by core.pending rest ≤ length body.now }
    ensures { (crc : Bytes → ℕ) (l : List ℕ) (m : Lent) →
        NoneCompletes core bytes rest l body.now (with_carry m carry.old) →
        FedIs (fed_past11 (readings crc) (reader_of core tally) (with_carry m carry.old)
        (page_with h l body.now)) (told_page result) (with_carry m carry.new) }
{
    let pending = core.pending;
    let position = core.position;
    carried::append(pending, bytes, body, carry);
    carried::keep_rest(carried::fresh(pending, rest), body, carry);
    let next = carried::next_core(core, h, carried::still_pending(pending, rest), position);
    let counts = feed_next::no_counts();
    Ok(PageFed {
        core: next,
        tally: feed_next::next_tally(tally, tally.skip, counts),
        counts,
    })
}

// Feeds a page that fits: 9, 11, and what follows.
fn feed_page(
    core: Core,
    tally: Tally,
    h: PageHeader,
    lacing: &[u8],
    body: &[u8],
    carry: &mut [u8],
    ends: &mut [u64],
    lengths: &mut [u64],
    kept: &mut [u64],
    frames: &mut [u64],
) -> Result<PageFed, Refusal>
    requires { Fitting core lacing.now body.now
        (lent_of carry.old ends.old lengths.old kept.old frames.old) }
    ensures { (crc : Bytes → ℕ) →
        FedIs (audio_on (readings crc) (reader_of core tally) (at_entry carry ends lengths kept frames)
        (page_with h lacing.now body.now)) (told_page result) (at_exit carry ends lengths kept frames) }
{
    let pending = core.pending;
    let first = packets::first_piece(lacing);
    let Some(rest) = feed_lacing::scan_page(pending, lacing) else {
        return Err(Refusal::PacketTooLong);
    };
    if granule::wrong_granule(granule::GRANULE_MAX, first.ends, h.granule) {
        return Err(Refusal::WrongGranule);
    }
    if first.ends {
        return feed_completing(
            core, tally, h, first, rest, lacing, body, carry, ends, lengths, kept, frames,
        );
    }
    feed_piece(core, tally, h, first.bytes, rest, body, carry)
}

fn is_fed(phase: Phase, short: bool, lacing: &[u8], body: &[u8]) -> bool
    ensures { result ≡ (is_audio phase && (not short && is_body lacing.now body.now)) }
{
    if !feed_phase::is_audio(phase) {
        return false;
    }
    if short {
        return false;
    }
    page_lacing::is_body(lacing, body)
}

// Feeds one audio page, with the fields `h`, to the state that expects it, after refusals 2 to 8 (RULES.md, 7). 9: a packet
// would pass 61,440 bytes. 11: the granule. 15, 16: a packet. 19, 18, 17: the granule and the samples. Not audio: the carry
// buffer or a lent list is too short, these are no lacing values and body of a page, or the state is not among the audio
// pages; all stays.
// Example: where the position is 960, nothing is pending and nothing is to skip, a page of one packet of 960 samples with
// granule position 1920 lists the end stamp 1920, the length 960, the kept count 960 and the frames, 1.
pub fn feed_audio(
    core: Core,
    tally: Tally,
    h: PageHeader,
    lacing: &[u8],
    body: &[u8],
    carry: &mut [u8],
    ends: &mut [u64],
    lengths: &mut [u64],
    kept: &mut [u64],
    frames: &mut [u64],
) -> Option<Result<PageFed, Refusal>>
    ensures { (crc : Bytes → ℕ) →
        FeedsAudio (readings crc) (reader_of core tally) (page_with h lacing.now body.now)
        (at_entry carry ends lengths kept frames) result (at_exit carry ends lengths kept frames) }
{
    let phase = core.phase;
    let short = feed_memory::is_short(
        carry.len(),
        ends.len(),
        lengths.len(),
        kept.len(),
        frames.len(),
    );
    if !is_fed(phase, short, lacing, body) {
        return None;
    }
    Some(feed_page(
        core, tally, h, lacing, body, carry, ends, lengths, kept, frames,
    ))
}
