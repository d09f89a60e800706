// The places of the fields in an identification header (RFC 7845, 5.1; RFC 8486, 3).

pub const VERSION: usize = 8;

pub const CHANNELS: usize = 9;

pub const PRESKIP: usize = 10;

pub const RATE: usize = 12;

pub const GAIN: usize = 16;

pub const FAMILY: usize = 18;

// The table, which family 0 does not have: two counts, and an index for each channel or the matrix of family 3.
pub const STREAMS: usize = 19;

pub const COUPLED: usize = 20;

pub const INDICES: usize = 21;

pub const MATRIX: usize = 21;
