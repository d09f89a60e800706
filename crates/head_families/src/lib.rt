// The channel mapping families of an identification header (RFC 7845, 5.1.1; RFC 8486, 3).
#![tactic(auto)]

ghost use Rattle.std.specs.Prelude.{◌≡◌};
ghost use Rattle.head_families.specs.Families.{ambisonic_channels, allowed_channels};
ghost use Rattle.head_families.specs.Families.{has_counts, has_matrix, IndexCount, matrix_length};

// The numbers of ambisonic channels, (1 + n)^2 + 2j (RFC 8486, 3.1).
const AMBISONIC: [u8; 30] = [
    1, // n = 0, j = 0
    3, // n = 0, j = 1
    4, // n = 1, j = 0
    6, // n = 1, j = 1
    9, // n = 2, j = 0
    11, // n = 2, j = 1
    16, // n = 3, j = 0
    18, // n = 3, j = 1
    25, // n = 4, j = 0
    27, // n = 4, j = 1
    36, // n = 5, j = 0
    38, // n = 5, j = 1
    49, // n = 6, j = 0
    51, // n = 6, j = 1
    64, // n = 7, j = 0
    66, // n = 7, j = 1
    81, // n = 8, j = 0
    83, // n = 8, j = 1
    100, // n = 9, j = 0
    102, // n = 9, j = 1
    121, // n = 10, j = 0
    123, // n = 10, j = 1
    144, // n = 11, j = 0
    146, // n = 11, j = 1
    169, // n = 12, j = 0
    171, // n = 12, j = 1
    196, // n = 13, j = 0
    198, // n = 13, j = 1
    225, // n = 14, j = 0
    227, // n = 14, j = 1
];

// Whether a family has the number of streams and that of coupled ones: every family but 0 (RULES.md, 4).
// Example: `has_counts(0)` is false, and `has_counts(1)` is true.
pub fn has_counts(family: u8) -> bool
    ensures { result ≡ has_counts family }
{
    family != 0
}

// Whether a family has a matrix in place of indices: family 3 (RULES.md, 4).
// Example: `has_matrix(3)` is true, and `has_matrix(2)` is false.
pub fn has_matrix(family: u8) -> bool
    ensures { result ≡ has_matrix family }
{
    family == 3
}

// How many indices a header has: one for each channel, and none in family 3, which has a matrix (RULES.md, 4).
// Example: `index_count(2, 4)` is 4, and `index_count(3, 4)` is 0.
pub fn index_count(family: u8, channels: u8) -> usize
    ensures { IndexCount family channels result }
{
    if has_matrix(family) {
        return 0;
    }
    octets::wide(channels)
}

// How many bytes the matrix of a header has: in family 3 two for each pair of a decoded channel and a channel, else none
// (RULES.md, 4).
// Example: `matrix_length(3, 2, 1, 4)` is 24, and `matrix_length(2, 2, 1, 4)` is 0.
pub fn matrix_length(family: u8, streams: u8, coupled: u8, channels: u8) -> usize
    ensures { result ≡ matrix_length family streams coupled channels }
{
    if !has_matrix(family) {
        return 0;
    }
    let decoded = octets::wide(coupled) + octets::wide(streams);
    2 * (decoded * octets::wide(channels))
}

fn ambisonic_channels(channels: u8) -> bool
    ensures { result ≡ ambisonic_channels channels }
{
    AMBISONIC.contains(&channels)
}

// Whether a family allows so many channels (RULES.md, 4). Families 0, 1, 2, 3 and 255 are known, and any other allows none.
// Example: `allowed_channels(1, 8)` and `allowed_channels(2, 4)` are true, and `allowed_channels(2, 5)` is false.
pub fn allowed_channels(family: u8, channels: u8) -> bool
    ensures { result ≡ allowed_channels family channels }
{
    if channels < 1 {
        return false;
    }
    match family {
        0 => channels <= 2,
        1 => channels <= 8,
        2 => ambisonic_channels(channels),
        3 => ambisonic_channels(channels),
        255 => true,
        _ => false,
    }
}
