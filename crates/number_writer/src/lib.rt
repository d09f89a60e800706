// Numbers written into a lent buffer, lowest byte first (RULES.md, 3). What does not fit is not written.
#![tactic(auto, using(crate::proofs::Bytes::lowest, crate::proofs::Bytes::one))]

ghost use Rattle.std.specs.Prelude.{◌≡◌};
ghost use Rattle.octets.specs.Octets.{copied};
ghost use Rattle.octets.specs.Numbers.{octets};

// The eight bytes of a number, lowest first (RULES.md, 3). Example: `octets64(258)` is `[2, 1, 0, 0, 0, 0, 0, 0]`.
pub fn octets64(x: u64) -> [u8; 8]
    ensures { result ≡ octets 8 x }
{
    x.to_le_bytes()
}

// Puts the byte x into d at place `at`, or nothing where it does not fit.
// Example: `put8(&mut d, 1, 7)` makes `[9, 7]` of a `d` that is `[9, 9]`; one of one byte stays.
pub fn put8(d: &mut [u8], at: usize, x: u8)
    ensures { d.new ≡ copied d.old at (octets 1 x) }
{
    octets::copy_at(d, at, &[x]);
}

// Puts the four bytes of x into d from place `at` on, lowest first (RULES.md, 3), or nothing where they do not fit.
// Example: `put32(&mut d, 0, 258)` makes `[2, 1, 0, 0, 9]` of a `d` of five bytes of 9; one of three stays.
pub fn put32(d: &mut [u8], at: usize, x: u32)
    ensures { d.new ≡ copied d.old at (octets 4 x) }
{
    octets::copy_at(d, at, &x.to_le_bytes());
}

// Puts the eight bytes of x into d from place `at` on, lowest first (RULES.md, 3), or nothing where they do not fit.
// Example: `put64(&mut d, 1, 258)` makes `[9, 2, 1, 0, 0, 0, 0, 0, 0]` of a `d` of nine bytes of 9; one of eight stays.
pub fn put64(d: &mut [u8], at: usize, x: u64)
    ensures { d.new ≡ copied d.old at (octets 8 x) }
{
    octets::copy_at(d, at, &octets64(x));
}
