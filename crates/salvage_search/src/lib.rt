// Where the next page starts in a buffer of which some bytes may be damaged (RULES.md, 16).
#![tactic(auto)]

ghost use Rattle.std.specs.Prelude.{◌≡◌, ◌<◌, length, drop};
ghost use Rattle.page_crc.specs.Crc.{page_crc};
ghost use Rattle.page_crc_tables.specs.Table.{entry_in};
ghost use Rattle.page_crc.specs.Sliced.{page_sliced};
ghost use Rattle.salvage_search.specs.Search.{starts_page, next_page};

// The first byte of the capture pattern "OggS": a place that has another byte costs one comparison.
const FIRST: u8 = b'O';

// Whether the bytes begin with a whole page that has a right checksum.
fn starts_page(tables: &[u32; 4096], s: &[u8]) -> bool
    ensures { result ≡ starts_page (page_sliced (entry_in tables.now)) s.now }
{
    match page_end::end_at(s, 0) {
        None => false,
        Some(end) => page_reader::read_page_with(tables, &s[..end]).is_ok(),
    }
}

// The same of the bytes from a place of the buffer on.
fn starts_at(tables: &[u32; 4096], buffer: &[u8], at: usize) -> bool
    requires { at < length buffer.now }
    ensures { result ≡ starts_page (page_sliced (entry_in tables.now)) (drop at buffer.now) }
{
    if buffer[at] != FIRST {
        return false;
    }
    starts_page(tables, &buffer[at..])
}

// The same as `next_page`, by lent tables: those of `page_crc_tables::table::tables` give the checksum, and others what they
// give (RULES.md, 16). It refuses nothing. Whoever searches often makes the tables once.
// Example: by those tables, of "x" and a page of 27 bytes, `next_page_with(&tables, buffer, 0)` is 1.
pub fn next_page_with(tables: &[u32; 4096], buffer: &[u8], from: usize) -> usize
    ensures { result ≡ next_page (page_sliced (entry_in tables.now)) buffer.now from }
{
    let mut at = octets::least(from, buffer.len());
    let place = loop {
        if at >= buffer.len() {
            break buffer.len();
        }
        if starts_at(tables, buffer, at) {
            break at;
        }
        at += 1;
    };
    place
}

// The least place at or after `from` at which a whole page with a right checksum starts, so that 3 and 4 pass; the buffer's
// length where there is none, or where `from` is past it (RULES.md, 16). It refuses nothing.
// Example: of "x" and a page of 27 bytes, `next_page(buffer, 0)` is 1, and `next_page(buffer, 2)` is 28.
pub fn next_page(buffer: &[u8], from: usize) -> usize
    ensures { result ≡ next_page page_crc buffer.now from }
{
    let tables = page_crc_tables::table::tables();
    next_page_with(&tables, buffer, from)
}
