// The memory that is lent to a feeding: its room, and the held packet in the carry buffer.
#![tactic(auto)]

ghost use Rattle.std.specs.Prelude.{◌≡◌};
ghost use Rattle.stream.specs.Feed.{carried_in, appended};
ghost use Rattle.stream.specs.Lent.{short_carry, short_lists, short_by};
ghost use Rattle.stream.specs.Feedings.{held_of};

use limits::{LIST_MAX, PACKET_MAX};
use stream::{Pending, Phase};

// Whether 1 holds of the carry buffer, by its length: it has fewer than 61,440 bytes (RULES.md, 1).
// Example: `is_carry_short(61439)` is true, and `is_carry_short(61440)` is false.
pub fn is_carry_short(carry: usize) -> bool
    ensures { result ≡ short_carry carry }
{
    carry < PACKET_MAX
}

// Whether 1 holds of the four lists, by their lengths: one has fewer than 255 places (RULES.md, 1).
// Example: `are_lists_short(255, 254, 255, 255)` is true, and `are_lists_short(255, 255, 255, 255)` is false.
pub fn are_lists_short(ends: usize, lengths: usize, kept: usize, frames: usize) -> bool
    ensures { result ≡ short_lists ends lengths kept frames }
{
    (ends < LIST_MAX) | ((lengths < LIST_MAX) | ((kept < LIST_MAX) | (frames < LIST_MAX)))
}

// Whether 1 holds, by the lengths of what is lent: the carry buffer or one of the lists is too short (RULES.md, 1).
// Example: `is_short(61440, 255, 255, 255, 254)` is true, and `is_short(61440, 255, 255, 255, 255)` is false.
pub fn is_short(carry: usize, ends: usize, lengths: usize, kept: usize, frames: usize) -> bool
    ensures { result ≡ short_by carry ends lengths kept frames }
{
    is_carry_short(carry) | are_lists_short(ends, lengths, kept, frames)
}

// How many bytes of the carry buffer are held (RULES.md, 7). It refuses nothing.
// Example: `held_in(Pending::Held(300))` is 300, and `held_in(Pending::Dropped)` is 0.
pub fn held_in(pending: Pending) -> usize
    ensures { result ≡ held_of pending }
{
    match pending {
        Pending::Nothing => 0,
        Pending::Held(n) => n,
        Pending::Dropped => 0,
    }
}

// Puts a piece after the held bytes that it continues; of the comment packet the first one too, at place 0 (RULES.md, 7).
// Nothing is put of a dropped packet, of an audio packet that begins here, or where the piece does not fit.
// Example: with `Pending::Held(2)` a piece of 3 bytes is put at places 2 to 4 of a `carry` of 5 bytes or more.
pub fn append(phase: Phase, pending: Pending, piece: &[u8], carry: &mut [u8])
    ensures { carry.new
        ≡ appended phase (carried_in pending carry.old) piece.now carry.old }
{
    match pending {
        Pending::Nothing => match phase {
            Phase::Comment => octets::copy_at(carry, 0, piece),
            Phase::First | Phase::Audio | Phase::Opened | Phase::Ended => {}
        },
        Pending::Held(n) => octets::copy_at(carry, n, piece),
        Pending::Dropped => {}
    }
}
