// The pages of a stream in a lent buffer, by their places (RULES.md, 15): no checksum is made and no packet is looked at.
#![tactic(auto)]

ghost use Rattle.std.specs.Prelude.{◌≡◌};
ghost use Rattle.recording.specs.Pages.{pages_of};
ghost use Rattle.stream.specs.Page.{ends};
ghost use Rattle.recording_pages.specs.Places.{page_at, place_of, headers_end};

// A page of a buffer: its number, the first being page 0, and where it begins.
#[derive(Clone, Copy)]
pub struct Place {
    pub page: usize,
    pub at: usize,
}

// Whether a packet ends among these lacing values (RULES.md, 3): a value is below 255. It refuses nothing.
// Example: `has_end(&[255, 255])` is false, and `has_end(&[255, 0])` is true.
pub fn has_end(lacing: &[u8]) -> bool
    ensures { result ≡ ends lacing.now }
{
    lacing.iter().any(|v| *v < 255)
}

// The bytes of the page at a place, up to the end of the buffer where it is cut (RULES.md, 15). It refuses nothing: at the end
// of the buffer and past it the page has no bytes.
// Example: of a page of 31 bytes and the three bytes "Ogg", `page_at(stream, 0)` is the page, and `page_at(stream, 31)` is "Ogg".
pub fn page_at(stream: &[u8], at: usize) -> &[u8]
    ensures { result.now ≡ page_at stream.now at }
{
    match page_end::end_at(stream, at) {
        Some(end) => octets::part_of(stream, at, end - at),
        None => octets::part_of(stream, at, stream.len()),
    }
}

// The first page after the headers and its place (RULES.md, 8 and 15): the one after the first page, from the second on, on which
// a packet ends. It refuses nothing: where the headers are not complete it is the number of pages, and the end of the buffer.
// Example: of two header pages of 47 and 44 bytes and any audio pages, `headers_end(stream)` has the page 2 and the place 91.
pub fn headers_end(stream: &[u8]) -> Place
    ensures { result ≡ headers_end stream.now }
{
    if stream.len() == 0 {
        return Place { page: 0, at: 0 };
    }
    let mut at = page_at(stream, 0).len();
    let mut page = 1;
    while at < stream.len() {
        let bytes = page_at(stream, at);
        at += bytes.len();
        page += 1;
        if has_end(page_layout::lacing_of(bytes)) {
            return Place { page, at };
        }
    }
    Place { page, at }
}

// Where a page begins, the first being page 0 (RULES.md, 15). It refuses nothing: where there is no such page it is the end of
// the buffer. Example: of two pages of 47 and 44 bytes, `place_of(stream, 1)` is 47, and `place_of(stream, 9)` is 91.
pub fn place_of(stream: &[u8], page: usize) -> usize
    ensures { result ≡ place_of (pages_of stream.now) page }
{
    let mut at = 0;
    let mut k = 0;
    while k < page {
        if at >= stream.len() {
            return at;
        }
        at += page_at(stream, at).len();
        k += 1;
    }
    at
}
