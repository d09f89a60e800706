// The fields of an identification header as eight numbers and the 255 places of its mapping, and where its matrix lies, for
// callers in other languages.
#![tactic(auto)]

ghost use Rattle.std.specs.Prelude.{◌≡◌};
ghost use Rattle.head_numbers.specs.Numbers.{head_numbers, fitting, head_from, matrix_numbers};

use head_fields::{Head, place};

// The eight numbers of a header (RULES.md, 14): version, channels, pre-skip, input rate, gain in 16 bits, family, streams,
// coupled. It refuses nothing.
// Example: version 1, 2 channels, pre-skip 312, rate 48000, gain -573, family 0, 1 stream and 1 coupled give 1, 2, 312, 48000,
// 64963, 0, 1, 1.
pub fn numbers_of(h: Head) -> [u64; 8]
    ensures { result ≡ head_numbers h }
{
    let gain = h.gain;
    [
        h.version as u64,
        h.channels as u64,
        h.preskip as u64,
        h.rate as u64,
        number_signed::unsigned16(gain) as u64,
        h.family as u64,
        h.streams as u64,
        h.coupled as u64,
    ]
}

// Whether each of the eight numbers fits its field's width (RULES.md, 14): 16 bits for pre-skip and gain, 32 for the rate,
// and 8 for any other. Where one does not, it is 23 across C.
// Example: 1, 2, 312, 48000, 0, 0, 1, 1 fit, and 1, 256, 312, 48000, 0, 0, 1, 1 do not.
pub fn numbers_fit(fields: &[u64; 8]) -> bool
    ensures { result ≡ fitting fields.now }
{
    let bounds = [256u64, 256, 65536, 4294967296, 65536, 256, 256, 256];
    // stays: the edit `last_number_not_looked_at` ends this loop one number earlier
    let mut i = 0;
    while i < 8 {
        if fields[i] >= bounds[i] {
            return false;
        }
        i += 1;
    }
    true
}

// The fields of such numbers, with this mapping (RULES.md, 14). Of a number that does not fit, its lowest bits. It refuses
// nothing. Example: 64963 for the gain gives -573, and 257 for the channels gives 1.
pub fn head_of(fields: &[u64; 8], mapping: &[u8; 255]) -> Head
    ensures { result ≡ head_from fields.now mapping.now }
{
    let gain = number_signed::signed16((fields[4] % 65536) as u16);
    let places = *mapping;
    Head {
        version: (fields[0] % 256) as u8,
        channels: (fields[1] % 256) as u8,
        preskip: (fields[2] % 65536) as u16,
        rate: (fields[3] % 4294967296) as u32,
        gain,
        family: (fields[5] % 256) as u8,
        streams: (fields[6] % 256) as u8,
        coupled: (fields[7] % 256) as u8,
        mapping: places,
    }
}

// Where a matrix of so many bytes lies in its header (RULES.md, 14): its place and its length, or two zeros where there is none.
// It refuses nothing. Example: `matrix_numbers(32)` gives 21 and 32.
pub fn matrix_numbers(size: usize) -> [u64; 2]
    ensures { result ≡ matrix_numbers size }
{
    if size == 0 {
        return [0, 0];
    }
    [place::MATRIX as u64, size as u64]
}
