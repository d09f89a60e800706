// A stream that is fed in parts, each to a reader of its own, for programs in C, Rust and Python (RULES.md, 19).
ghost use Rattle.std.specs.Prelude.{◌≡◌};
ghost use Rattle.octets.specs.Pick.{pick};
ghost use Rattle.stream_parts.specs.Agree.{agreeing};
ghost use Rattle.stream_parts.specs.Totals.{totals_after};

// Returns 1 where two readers agree, each with its carry buffer: numbers 0 to 9 of their states are equal, and the first bytes
// of the buffers, as many as number 2 says. Returns 0 where they do not, or where a buffer is shorter than that (RULES.md, 19;
// embulgri.h). It stores nothing and refuses nothing.
// Example: two states of sixteen zeros return 1, and 0 where one of them has 1 in place 9.
pub fn embulgri_agree(a: &[u64; 16], c: &[u8], b: &[u64; 16], d: &[u8]) -> u32
    ensures { result
        ≡ pick (agreeing a.now c.now b.now d.now) 1 0 }
{
    if stream_parts::agree(a, c, b, d) {
        return 1;
    }
    0
}

// Rewrites the totals of `end`, numbers 10 to 13, to those of the whole: the totals of r, and what those of the other reader
// gained from o to `end`, modulo 2^64. The other numbers stay (RULES.md, 19; embulgri.h). It refuses nothing.
// Example: with 100 in place 10 of r, 30 of o and 50 of `end`, that of `end` becomes 120.
pub fn embulgri_totals_after(r: &[u64; 16], o: &[u64; 16], end: &mut [u64; 16])
    ensures { end.new ≡ totals_after r.now o.now end.old }
{
    stream_parts::totals_after(r, o, end);
}
