// A reader's core and tally as sixteen numbers, and back.
#![tactic(auto)]

ghost use Rattle.std.specs.Prelude.{◌≡◌, ◌%◌};
ghost use Rattle.stream.specs.Feed.{reader_of};
ghost use Rattle.feed_numbers.specs.Numbers.{phase_number, pending_number, position_number, granule_in, StandFor};
ghost use Rattle.feed_numbers.specs.Numbers.{phase_from, pending_from, position_from, reader_from};

use granule::Position;
use stream::{Core, Pending, Phase, Tally};

fn phase_number(phase: Phase) -> u64
    ensures { result ≡ phase_number phase }
{
    match phase {
        Phase::First => 0,
        Phase::Comment => 1,
        Phase::Audio => 2,
        Phase::Opened => 3,
        Phase::Ended => 4,
    }
}

fn pending_number(pending: Pending) -> u64
    ensures { result ≡ pending_number pending }
{
    match pending {
        Pending::Nothing => 0,
        Pending::Held(_) => 1,
        Pending::Dropped => 2,
    }
}

fn position_number(position: Position) -> u64
    ensures { result ≡ position_number position }
{
    match position {
        Position::Unset => 0,
        Position::Joined => 1,
        Position::At(_) => 2,
    }
}

fn granule_in(position: Position) -> u64
    ensures { result ≡ granule_in position }
{
    match position {
        Position::Unset => 0,
        Position::Joined => 0,
        Position::At(g) => g,
    }
}

// The numbers of a reader with this core and this tally (RULES.md, 14). It refuses nothing.
// Example: those of `feed_start::start_core()` and `feed_start::no_tally()` are sixteen zeros.
pub fn numbers_of(core: Core, tally: Tally) -> [u64; 16]
    ensures { StandFor result (reader_of core tally) }
{
    let phase = core.phase;
    let pending = core.pending;
    let position = core.position;
    [
        phase_number(phase),
        pending_number(pending),
        feed_memory::held_in(pending) as u64,
        position_number(position),
        granule_in(position),
        core.serial as u64,
        core.next as u64,
        core.streams as u64,
        core.preskip as u64,
        tally.skip as u64,
        tally.kept,
        tally.skipped,
        tally.trimmed,
        tally.hole,
        0,
        0,
    ]
}

#[tactic(auto, unfolding(crate::specs::Numbers::phase_from))]
fn phase_from(n: u64) -> Phase
    ensures { result ≡ phase_from n }
{
    match n {
        0 => Phase::First,
        1 => Phase::Comment,
        2 => Phase::Audio,
        3 => Phase::Opened,
        _ => Phase::Ended,
    }
}

#[tactic(auto, unfolding(crate::specs::Numbers::pending_from))]
fn pending_from(n: u64, count: u64) -> Pending
    ensures { result ≡ pending_from n count }
{
    match n {
        0 => Pending::Nothing,
        1 => Pending::Held(count as usize),
        _ => Pending::Dropped,
    }
}

#[tactic(auto, unfolding(crate::specs::Numbers::position_from))]
fn position_from(n: u64, g: u64) -> Position
    ensures { result ≡ position_from n g }
{
    match n {
        0 => Position::Unset,
        1 => Position::Joined,
        _ => Position::At(g),
    }
}

// The core of the reader that the numbers represent (RULES.md, 14). It refuses nothing.
// Example: 9 in place 0 gives `Phase::Ended`, and 256 in place 7 gives 0 streams.
pub fn core_from(state: &[u64; 16]) -> Core
    ensures { result ≡ (reader_from state.now).core }
{
    Core {
        phase: phase_from(state[0]),
        pending: pending_from(state[1], state[2]),
        position: position_from(state[3], state[4]),
        serial: (state[5] % 4294967296) as u32,
        next: (state[6] % 4294967296) as u32,
        streams: (state[7] % 256) as u8,
        preskip: (state[8] % 65536) as u16,
    }
}

// The tally of the reader that the numbers represent (RULES.md, 14). It refuses nothing.
// Example: 312 in place 9 gives 312 samples to skip, and 65536 gives 0.
pub fn tally_from(state: &[u64; 16]) -> Tally
    ensures { result ≡ (reader_from state.now).tally }
{
    Tally {
        skip: (state[9] % 65536) as u16,
        kept: state[10],
        skipped: state[11],
        trimmed: state[12],
        hole: state[13],
    }
}
