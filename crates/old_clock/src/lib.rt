// The old clock, kept to explain the old logs: their count of samples was an f32. The exact count is kept with it.
#![tactic(auto)]

ghost use Rattle.refusal.specs.Told.{told};
ghost use Rattle.std.specs.Prelude.{◌≡◌};
ghost use Rattle.old_clock.specs.Clock.{start_clock, right_length, add_samples};

use refusal::Refusal;

#[derive(Clone, Copy)]
pub struct Clock {
    pub reading: f32,
    pub count: u64,
}

// The clock before any packet (RULES.md, 10). It refuses nothing. Example: `start()` has the reading 0.0 and the count 0.
pub fn start() -> Clock
    ensures { result ≡ start_clock }
{
    Clock {
        reading: 0.0,
        count: 0,
    }
}

// A length in samples that a packet can have.
#[tactic(auto, unfolding(crate::specs::Clock::right_length))]
fn right_length(samples: u64) -> bool
    ensures { result ≡ right_length samples }
{
    if samples < 120 {
        return false;
    }
    if samples > 5760 {
        return false;
    }
    samples % 120 == 0
}

// The clock after a packet of this length. 30: the length is not a multiple of 120 from 120 to 5760, or the exact count would
// pass 2^63 - 1. Example: `add(start(), 960)` gives the reading 960.0 and the count 960.
pub fn add(clock: Clock, samples: u64) -> Result<Clock, Refusal>
    ensures { told result ≡ add_samples clock samples }
{
    if !right_length(samples) {
        return Err(Refusal::ClockRange);
    }
    let count = clock.count;
    if count > 9223372036854775807 - samples {
        return Err(Refusal::ClockRange);
    }
    // 16 bits hold every right length, and an f32 holds every number of 16 bits
    let step = (samples as u16) as f32;
    let next = Clock {
        reading: clock.reading + step,
        count: count + samples,
    };
    Ok(next)
}
