// What follows an accepted page: the core that expects the next one, the totals, and the record of a page that lists nothing.
#![tactic(auto)]

ghost use Rattle.std.specs.Prelude.{◌≡◌};
ghost use Rattle.stream.specs.Feed.{no_counts, tally_after};
ghost use Rattle.feed_next.specs.Next.{core_after};

use granule::Position;
use page_layout::PageHeader;
use stream::{Core, Counts, Pending, Phase, Tally};

// The core after a page with the fields `h`: its serial, and the sequence number that is then due (RULES.md, 7). It refuses
// nothing. Example: after sequence number 4 number 5 is due, and after 4294967295 number 0.
pub fn next_core(
    h: PageHeader,
    phase: Phase,
    pending: Pending,
    position: Position,
    streams: u8,
    preskip: u16,
) -> Core
    ensures { result ≡ core_after h phase pending position streams preskip }
{
    Core {
        phase,
        pending,
        position,
        serial: h.serial,
        next: h.sequence.wrapping_add(1),
        streams,
        preskip,
    }
}

// The record of a page that lists nothing (RULES.md, 7). Example: `no_counts().kept` is 0, as the five other numbers are.
pub fn no_counts() -> Counts
    ensures { result ≡ no_counts }
{
    Counts {
        packets: 0,
        samples: 0,
        kept: 0,
        skipped: 0,
        trimmed: 0,
        hole: 0,
    }
}

// The tally after an accepted page with this record, `skip` samples being still to skip: each count is added to its total,
// modulo 2^64 (RULES.md, 8). It refuses nothing.
// Example: a tally of 960 samples kept and a record of 648 give one of 1608.
pub fn next_tally(tally: Tally, skip: u16, counts: Counts) -> Tally
    ensures { result ≡ tally_after tally skip counts }
{
    Tally {
        skip,
        kept: tally.kept.wrapping_add(counts.kept),
        skipped: tally.skipped.wrapping_add(counts.skipped),
        trimmed: tally.trimmed.wrapping_add(counts.trimmed),
        hole: tally.hole.wrapping_add(counts.hole),
    }
}
