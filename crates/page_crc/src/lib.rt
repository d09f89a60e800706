// The checksum of an Ogg page (RFC 3533): polynomial 0x04c11db7, high bit first, start 0, no final change.
// Defined bit by bit in specs/Crc.antt; computed here sixteen bytes a turn, by sixteen tables (specs/Sliced.antt).
// `page_checksum_with` takes the tables from the caller, who makes them once by `page_crc_tables::table::tables`. The others
// make them at each call. For short inputs they make tables of half bytes, which take longer to use but less to store.
#![tactic(auto)]

ghost use Rattle.std.specs.Prelude.{◌≡◌, ℕ, ◌+◌, ◌≤◌, ◌<◌, length, take, drop};
ghost use Rattle.page_crc_tables.specs.Table.{Right, entry_in, half_entry_in};
ghost use Rattle.page_crc.specs.Crc.{checksum_end, crc, page_crc};
ghost use Rattle.page_crc.specs.Sliced.{moved, block_of, sliced, head_sliced, page_sliced};
ghost use Rattle.page_crc.specs.Code.{Meets, HasEntry, Adds};

use page_layout::CHECKSUM_AT;

// Up to this length the tables of half bytes take less time, by measurement.
const SHORT: usize = 640;

// Where the checksum field of a page ends.
const CHECKSUM_END: usize = CHECKSUM_AT + 4;

// The register moved left by k bytes.
fn shifted(x: u32, k: usize) -> u32
    ensures { result ≡ moved x k }
{
    match k {
        0 => x,
        1 => x << 8,
        2 => x << 8 << 8,
        3 => x << 8 << 8 << 8,
        _ => 0,
    }
}

// The byte at `at + k`, xored with what the register's top holds when the byte meets it.
fn met(x: u32, s: &[u8], at: usize, k: usize) -> usize
    requires { at + k < length s.now }
    ensures { Meets x s.now at k result }
{
    let b = (shifted(x, k) >> 24) ^ (s[at + k] as u32);
    b as usize
}

// Sixteen tables, of bytes or of half bytes.
trait Tables: Drop {
    // the entries that `entry` gives
    ghost entries: { Self → ℕ → ℕ → ℕ };

    // The right tables. Tables are stored at the start of the function that makes them.
    fn right() -> Self
        ensures { Right (entries result) };

    // What a byte b in the register's top adds, with j bytes of its block after it.
    fn entry(&self, j: usize, b: usize) -> u32
        requires { HasEntry j b }
        ensures { result ≡ entries self.now j b };
}

impl Tables for [u32; 4096] {
    ghost entries = { entry_in };

    fn right() -> [u32; 4096] {
        page_crc_tables::table::tables()
    }

    fn entry(&self, j: usize, b: usize) -> u32 {
        self[j * 256 + b]
    }
}

impl Tables for [u32; 512] {
    ghost entries = { half_entry_in };

    fn right() -> [u32; 512] {
        page_crc_tables::halves::halves()
    }

    fn entry(&self, j: usize, b: usize) -> u32 {
        self[j * 32 + b / 16] ^ self[j * 32 + 16 + b % 16]
    }
}

// What the byte adds to the register x after m bytes of s from `at` on, where j of them follow it.
fn added<T: Tables>(tables: &T, x: u32, s: &[u8], at: usize, m: usize, j: usize) -> u32
    requires j_bound { j < m }
    requires m_bound { m ≤ 16 }
    requires m_in_bounds { at + m ≤ length s.now }
    ensures { Adds (T.entries tables.now) x s.now at m j result }
{
    let k = m - 1 - j;
    let b = met(x, s, at, k);
    tables.entry(j, b)
}

// The register x after m bytes of s from `at` on: for each byte the entry for the j bytes that follow it. At a number m
// the compiler unrolls the loops and computes every k; it unrolls eight turns by half bytes, but not sixteen: hence two
// loops. They go from the last byte to the first, so that only the last four turns wait for x.
fn block<T: Tables>(tables: &T, x: u32, s: &[u8], at: usize, m: usize) -> u32
    requires m_bound { m ≤ 16 }
    requires m_in_bounds { at + m ≤ length s.now }
    ensures { result ≡ block_of (T.entries tables.now) x (take m (drop at s.now)) }
{
    let mut y = shifted(x, m);
    let n = m.min(8);
    for j in 0..n {
        y ^= added(tables, x, s, at, m, j);
    }
    for j in n..m {
        y ^= added(tables, x, s, at, m, j);
    }
    y
}

// The register r after the bytes of s: sixteen at a time, then eight, four, two, one.
fn update<T: Tables>(tables: &T, r: u32, s: &[u8]) -> u32
    ensures { result ≡ sliced (T.entries tables.now) r s.now }
{
    // stays: a turn goes on by a block, whose size is written out so that the compiler unrolls its loops
    let mut x = r;
    let mut i = 0;
    while i < s.len() {
        let left = s.len() - i;
        if left >= 16 {
            x = block(tables, x, s, i, 16);
            i += 16;
        } else if left >= 8 {
            x = block(tables, x, s, i, 8);
            i += 8;
        } else if left >= 4 {
            x = block(tables, x, s, i, 4);
            i += 4;
        } else if left >= 2 {
            x = block(tables, x, s, i, 2);
            i += 2;
        } else {
            x = block(tables, x, s, i, 1);
            i += 1;
        }
    }
    x
}

// The register r after the bytes of s, by tables that are made here.
fn checksum_from<T: Tables>(r: u32, s: &[u8]) -> u32
    ensures { result ≡ crc r s.now }
{
    let tables = T::right();
    update(&tables, r, s)
}

// The checksum of the bytes as they are (RULES.md, 3; RFC 3533, 6). It refuses nothing.
// Example: `checksum(b"123456789")` is 0x89a1897f.
pub fn checksum(s: &[u8]) -> u32
    ensures { result ≡ crc 0 s.now }
{
    if s.len() <= SHORT {
        checksum_from::<[u32; 512]>(0, s)
    } else {
        checksum_from::<[u32; 4096]>(0, s)
    }
}

// The register after the bytes of a page up to the end of its checksum field, as `update` goes through those before the
// field and through the field. The sizes of the blocks are written out, so that the compiler needs no loop for them. This
// saves time on short pages.
fn head_checksum(tables: &[u32; 4096], page: &[u8]) -> u32
    requires { checksum_end ≤ length page.now }
    ensures { result ≡ head_sliced (entry_in tables.now) page.now }
{
    let zeros = [0u8; 4];
    let first = block(tables, 0, page, 0, 16);
    let second = block(tables, first, page, 16, 4);
    let third = block(tables, second, page, 20, 2);
    block(tables, third, &zeros, 0, 4)
}

// The checksum of a page, its own checksum field taken as zeros (RULES.md, 3; RFC 3533, 6), by lent tables: those of
// `page_crc_tables::table::tables` give the checksum, and others what they give. Of a shorter slice, those of the field's
// four bytes that it has are taken as zeros: a slice that ends before the field gives the checksum of its bytes as they are.
// It refuses nothing.
// Example: by the right tables "OggS" and 23 zero bytes give 0x9ea1a511, whatever the bytes at places 22 to 25 become.
pub fn page_checksum_with(tables: &[u32; 4096], page: &[u8]) -> u32
    ensures { result ≡ page_sliced (entry_in tables.now) page.now }
{
    if page.len() >= CHECKSUM_END {
        let head = head_checksum(tables, page);
        return update(tables, head, &page[CHECKSUM_END..]);
    }
    let zeros = [0u8; 4];
    let a = CHECKSUM_AT.min(page.len());
    let b = CHECKSUM_END.min(page.len());
    let head = update(tables, 0, &page[..a]);
    let field = update(tables, head, &zeros[..b - a]);
    update(tables, field, &page[b..])
}

fn long_page_checksum(page: &[u8]) -> u32
    ensures { result ≡ page_crc page.now }
{
    let tables = <[u32; 4096]>::right();
    page_checksum_with(&tables, page)
}

// stays: `page_checksum_with` ends in the same three runs, but with one function for both the compiler stores the tables so
// that a page of 28 bytes takes a sixth longer, by measurement
fn short_page_checksum(page: &[u8]) -> u32
    ensures { result ≡ page_crc page.now }
{
    let halves = <[u32; 512]>::right();
    let zeros = [0u8; 4];
    let a = CHECKSUM_AT.min(page.len());
    let b = CHECKSUM_END.min(page.len());
    let head = update(&halves, 0, &page[..a]);
    let field = update(&halves, head, &zeros[..b - a]);
    update(&halves, field, &page[b..])
}

// The same as `page_checksum_with`, by right tables that are made here (RULES.md, 3; RFC 3533, 6).
// Example: of "OggS" and 23 zero bytes it is 0x9ea1a511.
pub fn page_checksum(page: &[u8]) -> u32
    ensures { result ≡ page_crc page.now }
{
    if page.len() <= SHORT {
        short_page_checksum(page)
    } else {
        long_page_checksum(page)
    }
}
