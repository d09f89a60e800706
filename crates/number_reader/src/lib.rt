// Numbers in bytes, lowest byte first (RULES.md, 3); bytes past the end are zero.
#![tactic(auto)]

ghost use Rattle.std.specs.Prelude.{◌≡◌, ◌≤◌};
ghost use Rattle.octets.specs.Numbers.{number};
ghost use Rattle.number_reader.specs.Reading.{NumberRead};

// The number in the n bytes from `at` on. The last byte comes first, so that each turn is one digit more.
fn number_at(s: &[u8], at: usize, n: usize) -> u64
    requires { n ≤ 8 }
    ensures { NumberRead n s.now at result }
{
    if s.len() <= at {
        return 0;
    }
    let mut x: u64 = 0;
    for i in (0..n).rev() {
        x = x * 256 + u64::from(octets::byte_at(s, at + i));
    }
    x
}

// The number in the two bytes from place `at` on (RULES.md, 3).
// Example: `number16(&[0x38, 0x01], 0)` is 312, and `number16(&[0x38, 0x01], 1)` is 1.
pub fn number16(s: &[u8], at: usize) -> u16
    ensures { result ≡ number 2 s.now at }
{
    number_at(s, at, 2) as u16
}

// The number in the four bytes from place `at` on (RULES.md, 3). Example: `number32(&[1, 2, 0, 0], 0)` is 513.
pub fn number32(s: &[u8], at: usize) -> u32
    ensures { result ≡ number 4 s.now at }
{
    number_at(s, at, 4) as u32
}

// The number in the eight bytes from place `at` on (RULES.md, 3).
// Example: `number64(&[0, 1, 0, 0, 0, 0, 0, 0], 0)` is 256, and so is `number64(&[0, 1], 0)`.
pub fn number64(s: &[u8], at: usize) -> u64
    ensures { result ≡ number 8 s.now at }
{
    number_at(s, at, 8)
}
