// The first byte of an Opus packet (RFC 6716, 3.1): the samples of a frame, and whether it is stereo.
#![tactic(auto)]

ghost use Rattle.std.specs.Prelude.{◌≡◌};
ghost use Rattle.packet_toc.specs.Toc.{frame_samples, is_stereo};

// Samples in a frame of each config, in units of 120 (RFC 6716, 3.1, table 2): bytes, since the table is stored at each call.
const UNITS: [u8; 32] = [
    4, // 0: SILK, 10 ms
    8, // 1: SILK, 20 ms
    16, // 2: SILK, 40 ms
    24, // 3: SILK, 60 ms
    4, // 4: SILK, 10 ms
    8, // 5: SILK, 20 ms
    16, // 6: SILK, 40 ms
    24, // 7: SILK, 60 ms
    4, // 8: SILK, 10 ms
    8, // 9: SILK, 20 ms
    16, // 10: SILK, 40 ms
    24, // 11: SILK, 60 ms
    4, // 12: hybrid, 10 ms
    8, // 13: hybrid, 20 ms
    4, // 14: hybrid, 10 ms
    8, // 15: hybrid, 20 ms
    1, // 16: CELT, 2.5 ms
    2, // 17: CELT, 5 ms
    4, // 18: CELT, 10 ms
    8, // 19: CELT, 20 ms
    1, // 20: CELT, 2.5 ms
    2, // 21: CELT, 5 ms
    4, // 22: CELT, 10 ms
    8, // 23: CELT, 20 ms
    1, // 24: CELT, 2.5 ms
    2, // 25: CELT, 5 ms
    4, // 26: CELT, 10 ms
    8, // 27: CELT, 20 ms
    1, // 28: CELT, 2.5 ms
    2, // 29: CELT, 5 ms
    4, // 30: CELT, 10 ms
    8, // 31: CELT, 20 ms
];

// The samples of a frame at 48 kHz, by the config in a packet's first byte, its top five bits (RULES.md, 6; RFC 6716, 3.1).
// Example: `frame_samples(0xfc)` is 960, for config 31.
pub fn frame_samples(toc: u8) -> u32
    ensures { result ≡ frame_samples toc }
{
    let config = toc / 8;
    UNITS[config as usize] as u32 * 120
}

// Whether a packet is stereo, by the bit s of its first byte, of value 4 (RFC 6716, 3.1).
// Example: `is_stereo(0xfc)` is true, and `is_stereo(0xf8)` is false.
pub fn is_stereo(toc: u8) -> bool
    ensures { result ≡ is_stereo toc }
{
    toc / 4 % 2 == 1
}
