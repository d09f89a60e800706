// Lacing values: 255 goes on, a smaller one ends a packet.
#![tactic(auto)]

ghost use Rattle.std.specs.Prelude.{◌≡◌};
ghost use Rattle.page_lacing.specs.Lacing.{Summed, is_body};

// The sum of the lacing values, which is the length of the body in bytes (RULES.md, 3; RFC 3533, 6). A page has at most 255
// values: of a longer list the first 255 count. Example: `sum_of(&[255, 3])` is 258.
pub fn sum_of(lacing: &[u8]) -> usize
    ensures { Summed lacing.now result }
{
    let mut n: usize = 0;
    for v in octets::part_of(lacing, 0, 255) {
        n += usize::from(*v);
    }
    n
}

// Whether a page can have these lacing values and this body: there are at most 255 values, and their sum is the length of
// the body in bytes (RULES.md, 3; RFC 3533, 6).
// Example: `is_body(&[3], b"abc")` is true, and `is_body(&[4], b"abc")` is false.
pub fn is_body(lacing: &[u8], body: &[u8]) -> bool
    ensures { result ≡ is_body lacing.now body.now }
{
    let few = lacing.len() <= 255;
    few && sum_of(lacing) == body.len()
}
