// The bounds of the rules (RULES.md, 1). No code. Functions that ask for room or measure a packet compare with these.
#![tactic(auto)]

// The most bytes that a packet may have.
pub const PACKET_MAX: usize = 61440;

// The most packets that complete on a page, and so the places that each list of a feeding must have.
pub const LIST_MAX: usize = 255;
