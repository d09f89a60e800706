// One page of the two headers of an Ogg Opus stream, fed to a reader that expects it: refusals 9 to 14, the carry buffer and
// the reader that follows.
#![tactic(auto)]

ghost use Rattle.std.specs.Prelude.{◌≡◌, ℕ};
ghost use Rattle.octets.specs.Octets.{Bytes};
ghost use Rattle.stream.specs.Lent.{Lent, with_carry};
ghost use Rattle.stream.specs.Page.{page_with};
ghost use Rattle.stream.specs.Readings.{readings};
ghost use Rattle.stream.specs.Feed.{reader_of, FedIs, told_page};
ghost use Rattle.feed_fields.specs.Checked.{found};
ghost use Rattle.feed_header.specs.Header.{is_header, is_header_page, header_on, FeedsHeader};
ghost use Rattle.feed_header.specs.Code.{lacing_found, Shaped, HeadDue, CommentDue, longer as longerBy, Within};

use page_layout::PageHeader;
use refusal::Refusal;
use stream::{Core, PageFed, Pending, Phase, Shape, Tally};

// 9 to 11 of a header page of this shape.
fn check_lacing(core: Core, h: PageHeader, lacing: &[u8], shape: Shape) -> Result<(), Refusal>
    requires { Shaped core shape lacing.now }
    ensures { (carry body : Bytes) → found result ≡ lacing_found core h carry lacing.now body }
{
    let phase = core.phase;
    let pending = core.pending;
    if feed_lacing::is_long(pending, lacing) {
        return Err(Refusal::PacketTooLong);
    }
    if feed_lacing::wrong_shape(phase, shape) {
        return Err(Refusal::HeaderShape);
    }
    if granule::wrong_granule(0, feed_lacing::is_ends(shape), h.granule) {
        return Err(Refusal::WrongGranule);
    }
    Ok(())
}

// The page of the identification header. Nothing is written to lent memory.
fn feed_head(
    core: Core,
    tally: Tally,
    h: PageHeader,
    lacing: &[u8],
    body: &[u8],
) -> Result<PageFed, Refusal>
    requires { HeadDue core lacing.now body.now }
    ensures { (crc : Bytes → ℕ) (m : Lent) →
        FedIs (header_on (readings crc) (reader_of core tally) m (page_with h lacing.now body.now))
        (told_page result) m }
{
    let position = core.position;
    let shape = feed_lacing::shape_of(lacing);
    check_lacing(core, h, lacing, shape)?;
    let read = head_reader::read_head(body);
    let verdict = read.verdict;
    verdict?;
    let head = read.head;
    let core = feed_next::next_core(
        h,
        Phase::Comment,
        Pending::Nothing,
        position,
        head.streams,
        head.preskip,
    );
    let counts = feed_next::no_counts();
    let after = feed_next::next_tally(tally, head.preskip, counts);
    Ok(PageFed {
        core,
        tally: after,
        counts,
    })
}

// What is unfinished after n more bytes of it.
fn longer(pending: Pending, n: usize) -> Pending
    requires { Within pending n }
    ensures { result ≡ longerBy pending n }
{
    match pending {
        Pending::Nothing => Pending::Held(n),
        Pending::Held(k) => Pending::Held(k + n),
        Pending::Dropped => Pending::Dropped,
    }
}

// A page of the comment packet. It is gathered in the carry buffer from place 0, also where it is on one page.
fn feed_comment(
    core: Core,
    tally: Tally,
    h: PageHeader,
    lacing: &[u8],
    body: &[u8],
    carry: &mut [u8],
) -> Result<PageFed, Refusal>
    requires { CommentDue core lacing.now body.now carry.old }
    ensures { (crc : Bytes → ℕ) (m : Lent) →
        FedIs (header_on (readings crc) (reader_of core tally) (with_carry m carry.old)
        (page_with h lacing.now body.now)) (told_page result) (with_carry m carry.new) }
{
    let pending = core.pending;
    let position = core.position;
    let streams = core.streams;
    let preskip = core.preskip;
    let shape = feed_lacing::shape_of(lacing);
    check_lacing(core, h, lacing, shape)?;
    let left = longer(pending, body.len());
    feed_memory::append(Phase::Comment, pending, body, carry);
    if !feed_lacing::is_ends(shape) {
        let core = feed_next::next_core(h, Phase::Comment, left, position, streams, preskip);
        let counts = feed_next::no_counts();
        let after = feed_next::next_tally(tally, tally.skip, counts);
        return Ok(PageFed {
            core,
            tally: after,
            counts,
        });
    }
    tags_reader::read_tags(octets::part_of(carry, 0, feed_memory::held_in(left)))?;
    let core = feed_next::next_core(
        h,
        Phase::Audio,
        Pending::Nothing,
        position,
        streams,
        preskip,
    );
    let counts = feed_next::no_counts();
    let after = feed_next::next_tally(tally, tally.skip, counts);
    Ok(PageFed {
        core,
        tally: after,
        counts,
    })
}

// A first page with nothing pending, or a page of the comment packet.
fn is_header(phase: Phase, pending: Pending) -> bool
    ensures { result ≡ is_header phase pending }
{
    match phase {
        Phase::First => matches!(pending, Pending::Nothing),
        Phase::Comment => true,
        Phase::Audio | Phase::Opened | Phase::Ended => false,
    }
}

fn is_fed(phase: Phase, pending: Pending, room: usize, lacing: &[u8], body: &[u8]) -> bool
    ensures { result ≡ is_header_page phase pending lacing.now body.now room }
{
    if !is_header(phase, pending) {
        return false;
    }
    if feed_memory::is_carry_short(room) {
        return false;
    }
    page_lacing::is_body(lacing, body)
}

// Feeds one page of the two headers, with the fields `h`, to the state that expects it, after refusals 2 to 8 (RULES.md, 7).
// 9: the packet would pass 61,440 bytes. 10: the first page is not one whole packet, or a later one not one piece of the
// comment header. 11: the granule. 12, 13: the identification header. 14: the comment header. Not a header: the carry buffer
// is too short, these are no lacing values and body of a page, or the state expects no header page; all stays.
// Example: in `Phase::First` with nothing pending, a right page of the identification header with pre-skip 312 gives a core
// in `Phase::Comment`, 312 samples to skip and a record of zeros.
pub fn feed_header(
    core: Core,
    tally: Tally,
    h: PageHeader,
    lacing: &[u8],
    body: &[u8],
    carry: &mut [u8],
) -> Option<Result<PageFed, Refusal>>
    ensures { (crc : Bytes → ℕ) (m : Lent) →
        FeedsHeader (readings crc) (reader_of core tally) (page_with h lacing.now body.now)
        (with_carry m carry.old) result (with_carry m carry.new) }
{
    let phase = core.phase;
    let pending = core.pending;
    if !is_fed(phase, pending, carry.len(), lacing, body) {
        return None;
    }
    if feed_phase::is_first(phase) {
        return Some(feed_head(core, tally, h, lacing, body));
    }
    Some(feed_comment(core, tally, h, lacing, body, carry))
}
