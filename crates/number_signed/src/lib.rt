// Signed numbers of 16 bits, in two's complement.
#![tactic(auto)]

ghost use Rattle.std.specs.Prelude.{◌≡◌};
ghost use Rattle.std.specs.Int.{w16};
ghost use Rattle.std.proofs.Common.{to_z, of_z};

// A number of 16 bits read as signed: one below 32,768 as it is, any other less 65,536 (RULES.md, 4, the output gain).
// Example: `signed16(32767)` is 32767, and `signed16(65535)` is -1.
pub fn signed16(x: u16) -> i16
    ensures { result ≡ to_z w16 x }
{
    x.cast_signed()
}

// The 16 bits of a signed number: one of 0 or above as it is, any other plus 65,536 (RULES.md, 4, the output gain).
// Example: `unsigned16(5)` is 5, and `unsigned16(-1)` is 65535.
pub fn unsigned16(g: i16) -> u16
    ensures { result ≡ of_z w16 g }
{
    g.cast_unsigned()
}
