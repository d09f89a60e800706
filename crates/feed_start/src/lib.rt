// The core and tally that a reader of a stream begins with: of a stream's first page, or opened part way.
#![tactic(auto)]

ghost use Rattle.std.specs.Prelude.{◌≡◌};
ghost use Rattle.stream.specs.Feed.{no_tally, start, open_part_way};
ghost use Rattle.feed_start.specs.Answers.{told_opened};

use granule::Position;
use head_fields::Head;
use refusal::Refusal;
use stream::{Core, Pending, Phase, Tally};

// The core and tally of a reader opened part way.
#[derive(Clone, Copy)]
pub struct CoreOpened {
    pub core: Core,
    pub tally: Tally,
}

// The core of a reader that waits for the first page of a stream (RULES.md, 7). It refuses nothing.
// Example: its phase is `Phase::First`, nothing is pending, and its four numbers are 0.
pub fn start_core() -> Core
    ensures { result ≡ start.core }
{
    Core {
        phase: Phase::First,
        pending: Pending::Nothing,
        position: Position::Unset,
        serial: 0,
        next: 0,
        streams: 0,
        preskip: 0,
    }
}

// The tally of a reader before any page: nothing is to skip yet, and every total is zero (RULES.md, 7). It refuses nothing.
// Example: `no_tally().kept` is 0, as the four other numbers are.
pub fn no_tally() -> Tally
    ensures { result ≡ no_tally }
{
    Tally {
        skip: 0,
        kept: 0,
        skipped: 0,
        trimmed: 0,
        hole: 0,
    }
}

// The core and tally of a reader opened part way, in a stream with this header. 23: no reading gives
// these fields, by `head_fields::right_head` (RULES.md, 9).
// Example: right fields with 1 stream and pre-skip 312 give a core with these two, and a tally of zeros.
pub fn open_core(head: Head) -> Result<CoreOpened, Refusal>
    ensures { told_opened result ≡ open_part_way head }
{
    if !head_fields::right_head(head) {
        return Err(Refusal::UnfitFields);
    }
    let core = Core {
        phase: Phase::Opened,
        pending: Pending::Nothing,
        position: Position::Joined,
        serial: 0,
        next: 0,
        streams: head.streams,
        preskip: head.preskip,
    };
    let tally = no_tally();
    Ok(CoreOpened { core, tally })
}
