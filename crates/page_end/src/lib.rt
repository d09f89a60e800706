// Where the page that starts at a place of a buffer ends, for callers who feed the pages of a buffer one by one.
#![tactic(auto)]

ghost use Rattle.octets.specs.Given.{given};
ghost use Rattle.std.specs.Prelude.{◌≡◌};
ghost use Rattle.page_end.specs.End.{end_at};

use page_size::Extent;

// Where the page that starts at place `at` of the buffer ends (RULES.md, 3). It refuses nothing: 27 bytes or more that begin
// no page are taken up to the end of the buffer, and feeding refuses them. Where fewer than 27 bytes are left, or the buffer
// ends before the page does, the answer is `None`.
// Example: of "OggS" and 23 zero bytes `end_at(buffer, 0)` is `Some(27)`; of the first 26 of them it is `None`.
pub fn end_at(buffer: &[u8], at: usize) -> Option<usize>
    ensures { given result ≡ end_at buffer.now at }
{
    match page_size::page_extent(buffer, at) {
        Extent::Ends(end) => {
            if end > buffer.len() {
                return None;
            }
            Some(end)
        }
        Extent::Short => None,
        Extent::NoPage => Some(buffer.len()),
    }
}
