// A stream that is fed in parts, each to a reader of its own: whether two readers agree, and the totals of the whole (RULES.md,
// 19).
#![tactic(auto)]

ghost use Rattle.std.specs.Prelude.{◌≡◌};
ghost use Rattle.stream_parts.specs.Agree.{equal_at, compared, equal_bytes, agreeing};
ghost use Rattle.stream_parts.specs.Totals.{whole_total, totals_after};

// Whether numbers 0 to 9 are equal.
fn are_equal(a: &[u64; 16], b: &[u64; 16]) -> bool
    ensures { result ≡ equal_at compared a.now b.now }
{
    let mut i = 0;
    while i < 10 {
        if a[i] != b[i] {
            return false;
        }
        i += 1;
    }
    true
}

// Whether both buffers have n bytes, and these are equal.
fn begin_alike(n: usize, c: &[u8], d: &[u8]) -> bool
    ensures { result ≡ equal_bytes n c.now d.now }
{
    if c.len() < n {
        return false;
    }
    octets::begins_with(d, octets::part_of(c, 0, n))
}

// Whether two readers in sixteen numbers agree, each with its carry buffer (RULES.md, 19): numbers 0 to 9 are equal, and the
// first bytes of the buffers, as many as number 2 says. False where a buffer is shorter than that. It refuses nothing.
// Example: sixteen zeros agree with fourteen zeros and two ones, whatever the buffers.
pub fn agree(a: &[u64; 16], c: &[u8], b: &[u64; 16], d: &[u8]) -> bool
    ensures { result ≡ agreeing a.now c.now b.now d.now }
{
    if are_equal(a, b) {
        return begin_alike(a[2] as usize, c, d);
    }
    false
}

// A total of the whole, modulo 2^64: r, and what was gained from o to e.
fn whole_total(r: u64, o: u64, e: u64) -> u64
    ensures { result ≡ whole_total r o e }
{
    std::num::wrapping_add_u64(r, std::num::wrapping_sub_u64(e, o))
}

// Rewrites numbers 10 to 13 of `end`, the totals, to those of the whole (RULES.md, 19): the totals of r, and what those of the
// other reader gained from o to `end`, modulo 2^64. The other numbers stay. It refuses nothing.
// Example: with 100 in place 10 of r, 30 of o and 50 of `end`, that of `end` becomes 120.
pub fn totals_after(r: &[u64; 16], o: &[u64; 16], end: &mut [u64; 16])
    ensures { end.new ≡ totals_after r.now o.now end.old }
{
    let kept = whole_total(r[10], o[10], end[10]);
    let skipped = whole_total(r[11], o[11], end[11]);
    let trimmed = whole_total(r[12], o[12], end[12]);
    let hole = whole_total(r[13], o[13], end[13]);
    end[10] = kept;
    end[11] = skipped;
    end[12] = trimmed;
    end[13] = hole;
}
