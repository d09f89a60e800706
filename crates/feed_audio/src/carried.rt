// The carry buffer and the state after an audio page.
ghost use Rattle.std.specs.Prelude.{◌≡◌, ◌-◌, ◌≤◌, length, take};
ghost use Rattle.stream.specs.declared.Phase.TheVariants.{Audio as InAudio};
ghost use Rattle.stream.specs.Feed.{carried_in, appended, with_rest};
ghost use Rattle.feed_audio.specs.Code.{rest_of, begun_by, still_by, fresh_by, next_core};

use granule::Position;
use page_layout::PageHeader;
use stream::{Core, Pending, Phase};

// Appends the first piece, of `bytes` bytes, to the held packet that it continues.
pub(crate) fn append(pending: Pending, bytes: usize, body: &[u8], carry: &mut [u8])
    requires { bytes ≤ length body.now }
    ensures { carry.new
        ≡ appended InAudio (carried_in pending carry.old) (take bytes body.now) carry.old }
{
    feed_memory::append(Phase::Audio, pending, &body[..bytes], carry);
}

// Writes the last `rest` bytes of the body, a new packet left unfinished, from place 0.
pub(crate) fn keep_rest(rest: usize, body: &[u8], carry: &mut [u8])
    requires { rest ≤ length body.now }
    ensures { carry.new ≡ with_rest (rest_of rest body.now) carry.old }
{
    if rest > 0 {
        let at = body.len() - rest;
        octets::copy_at(carry, 0, &body[at..]);
    }
}

// The unfinished packet of `rest` bytes that begins on this page, if there is one.
pub(crate) fn begun(rest: usize) -> Pending
    ensures { result ≡ begun_by rest }
{
    if rest == 0 {
        Pending::Nothing
    } else {
        Pending::Held(rest)
    }
}

// What is unfinished after a page where no packet completes.
pub(crate) fn still_pending(pending: Pending, rest: usize) -> Pending
    ensures { result ≡ still_by pending rest }
{
    match pending {
        Pending::Nothing => begun(rest),
        Pending::Held(_) => Pending::Held(rest),
        Pending::Dropped => Pending::Dropped,
    }
}

// How many bytes of a new packet such a page has.
pub(crate) fn fresh(pending: Pending, rest: usize) -> usize
    ensures { result ≡ fresh_by pending rest }
{
    match pending {
        Pending::Nothing => rest,
        Pending::Held(_) => 0,
        Pending::Dropped => 0,
    }
}

// The core after the page, which is ended where the page is marked last.
pub(crate) fn next_core(core: Core, h: PageHeader, pending: Pending, position: Position) -> Core
    ensures { result ≡ next_core core h pending position }
{
    let phase = if page_flags::is_last_page(h.flags) {
        Phase::Ended
    } else {
        Phase::Audio
    };
    feed_next::next_core(h, phase, pending, position, core.streams, core.preskip)
}
