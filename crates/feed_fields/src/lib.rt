// The checks of a page's fields against what a reader expects (RULES.md, refusals 5 to 8).
#![tactic(auto)]

ghost use Rattle.std.specs.Prelude.{◌≡◌, [], ◌∷◌};
ghost use Rattle.octets.specs.Octets.{Bytes};
ghost use Rattle.refusal.specs.Checks.{◌when◌, first_of};
ghost use Rattle.stream.specs.Page.{page_with};
ghost use Rattle.stream.specs.State.{expecting};
ghost use Rattle.stream.specs.Rules.{wrong_flags, field_checks};
ghost use Rattle.stream.specs.Feed.{view};
ghost use Rattle.feed_fields.specs.Checked.{found, is_pending};

use granule::Position;
use page_layout::PageHeader;
use refusal::Refusal;
use stream::{Core, Pending, Phase};

// ---- what is unfinished

fn is_pending(pending: Pending) -> bool
    ensures { result ≡ is_pending pending }
{
    matches!(pending, Pending::Held(_) | Pending::Dropped)
}

// ---- the fields

// Refuses where the test holds. Example: `refuse_if(true, Refusal::WrongFlags)` is `Err(Refusal::WrongFlags)`.
fn refuse_if(holds: bool, why: Refusal) -> Result<(), Refusal>
    ensures { found result ≡ first_of (why when holds ∷ []) }
{
    if holds { Err(why) } else { Ok(()) }
}

// 7
fn wrong_flags(phase: Phase, flags: u8) -> bool
    ensures { result ≡ wrong_flags phase flags }
{
    let mark = page_flags::is_first_page(flags) != feed_phase::is_first(phase);
    let end = feed_phase::in_headers(phase) & page_flags::is_last_page(flags);
    (flags > 7) | (mark | end)
}

// 5 to 8, of the core that expects the page (RULES.md, 2): another serial, another sequence number than the one due, wrong
// flags, and a continued mark where no packet is unfinished or none where one is. The first in this order is given.
// Example: in `Phase::Audio` with serial 7, number 3 due and nothing pending, a page with serial 7, sequence 3 and flags 0
// passes. With flags 1 it is 8.
pub fn check_fields(core: Core, h: PageHeader) -> Result<(), Refusal>
    ensures { (carry lacing body : Bytes) →
        found result ≡ first_of (field_checks (view core carry) (page_with h lacing body)) }
{
    let phase = core.phase;
    let pending = core.pending;
    let flags = h.flags;
    refuse_if(h.serial != core.serial, Refusal::OtherSerial)?;
    refuse_if(h.sequence != core.next, Refusal::OutOfSequence)?;
    refuse_if(wrong_flags(phase, flags), Refusal::WrongFlags)?;
    refuse_if(
        page_flags::is_continued(flags) != is_pending(pending),
        Refusal::WrongContinued,
    )
}

fn same_position(p: Position) -> Position
    ensures { result ≡ p }
{
    match p {
        Position::Unset => Position::Unset,
        Position::Joined => Position::Joined,
        Position::At(g) => Position::At(g),
    }
}

fn same_pending(p: Pending) -> Pending
    ensures { result ≡ p }
{
    match p {
        Pending::Nothing => Pending::Nothing,
        Pending::Held(n) => Pending::Held(n),
        Pending::Dropped => Pending::Dropped,
    }
}

// The same core, its enums made again: so the compiler need not copy, page after page, the unused bytes in them.
// stays: speed may not change, and this is what keeps those bytes from being copied.
fn remade(core: Core) -> Core
    ensures { result ≡ core }
{
    let position = core.position;
    let pending = core.pending;
    let phase = core.phase;
    Core {
        phase,
        pending: same_pending(pending),
        position: same_position(position),
        serial: core.serial,
        next: core.next,
        streams: core.streams,
        preskip: core.preskip,
    }
}

// The core that expects the page: a first page brings its serial, and a page that a reader was opened at its serial, its
// sequence number and, by its continued mark, a dropped packet (RULES.md, 7 and 9). It refuses nothing.
// Example: in `Phase::First` a page with serial 7 gives a core with serial 7, sequence number 0 due and nothing pending.
pub fn expected(core: Core, h: PageHeader) -> Core
    ensures { (carry lacing body : Bytes) → view result carry ≡ expecting (view core carry) (page_with h lacing body) }
{
    let phase = core.phase;
    let position = core.position;
    match phase {
        Phase::First => Core {
            phase: Phase::First,
            pending: Pending::Nothing,
            position,
            serial: h.serial,
            next: 0,
            streams: core.streams,
            preskip: core.preskip,
        },
        Phase::Opened => {
            let pending = if page_flags::is_continued(h.flags) {
                Pending::Dropped
            } else {
                Pending::Nothing
            };
            Core {
                phase: Phase::Audio,
                pending,
                position,
                serial: h.serial,
                next: h.sequence,
                streams: core.streams,
                preskip: core.preskip,
            }
        }
        Phase::Comment => remade(core),
        Phase::Audio => remade(core),
        Phase::Ended => remade(core),
    }
}
