// 9, and the shape that 10 asks of a header page, by the lacing values of a page.
#![tactic(auto)]

ghost use Rattle.std.specs.Prelude.{◌≡◌, true, Some};
ghost use Rattle.octets.specs.Octets.{Bytes};
ghost use Rattle.stream.specs.Packets.{is_long};
ghost use Rattle.stream.specs.Feed.{carried_in};
ghost use Rattle.feed_lacing.specs.Scan.{scan_of, scan_by, IsAfterFirst};
ghost use Rattle.stream.specs.Shape.{shape_of, is_ends, is_other, wrong_shape};

use limits::PACKET_MAX;
use stream::{Pending, Phase, Shape};

// The values, `held` bytes of the first packet being held already.
fn scan_from(lacing: &[u8], held: usize) -> Option<usize>
    ensures { result ≡ scan_of held lacing.now }
{
    let mut bytes = held;
    for x in lacing {
        if bytes > PACKET_MAX {
            return None;
        }
        let v = octets::wide(*x);
        bytes += v;
        if v < 255 {
            if bytes > PACKET_MAX {
                return None;
            }
            bytes = 0;
        }
    }
    if bytes > PACKET_MAX {
        None
    } else {
        Some(bytes)
    }
}

// The place after the first value that ends a packet.
fn after_first(lacing: &[u8]) -> usize
    ensures { IsAfterFirst lacing.now result }
{
    for (i, v) in lacing.iter().enumerate() {
        if *v < 255 {
            return i + 1;
        }
    }
    lacing.len()
}

// Whether no packet of these values is too long and none goes on, told quickly: by their sum and the last of them.
fn is_quick(lacing: &[u8]) -> bool
    ensures { result ≡ true → scan_of 0 lacing.now ≡ Some 0 }
{
    let n = lacing.len();
    if n == 0 {
        return false;
    }
    if n > 255 {
        return false;
    }
    if lacing[n - 1] == 255 {
        return false;
    }
    page_lacing::sum_of(lacing) <= PACKET_MAX
}

// The packets of a page that continues none.
fn scan_new(lacing: &[u8]) -> Option<usize>
    ensures { result ≡ scan_of 0 lacing.now }
{
    if is_quick(lacing) {
        return Some(0);
    }
    scan_from(lacing, 0)
}

// The page's packets against 9, by what is pending (RULES.md, 2). A dropped packet is not measured. It gives the bytes of the
// packet that goes on, 0 where none does, or `None`.
// Example: `scan_page(Pending::Held(10), &[255, 255])` is `Some(520)`, and `scan_page(Pending::Nothing, &[255, 3])` is
// `Some(0)`.
pub fn scan_page(pending: Pending, lacing: &[u8]) -> Option<usize>
    ensures { result ≡ scan_by pending lacing.now }
{
    match pending {
        Pending::Nothing => scan_new(lacing),
        Pending::Held(n) => scan_from(lacing, n),
        Pending::Dropped => {
            let from = after_first(lacing);
            scan_from(&lacing[from..], 0)
        }
    }
}

// Whether 9 holds: a packet of the page, complete or not, has more than 61,440 bytes, those held included (RULES.md, 2).
// Example: `is_long(Pending::Held(61440), &[1])` is true, and `is_long(Pending::Held(61440), &[0])` is false.
pub fn is_long(pending: Pending, lacing: &[u8]) -> bool
    ensures { (carry : Bytes) → result ≡ is_long (carried_in pending carry) lacing.now }
{
    scan_page(pending, lacing).is_none()
}

// Whether the values are those of one piece, and whether that ends a packet (RULES.md, 3). It refuses nothing.
// Example: `shape_of(&[255, 3])` is `Shape::Ends`, `shape_of(&[255])` is `Shape::GoesOn`, and `shape_of(&[3, 3])` is
// `Shape::Other`.
pub fn shape_of(lacing: &[u8]) -> Shape
    ensures { result ≡ shape_of lacing.now }
{
    for (i, v) in lacing.iter().enumerate() {
        if *v < 255 {
            let more = i + 1 < lacing.len();
            return if more { Shape::Other } else { Shape::Ends };
        }
    }
    let empty = lacing.is_empty();
    if empty {
        return Shape::Other;
    }
    Shape::GoesOn
}

// Whether the page is the last piece of a packet and nothing else (RULES.md, 2, refusal 10).
// Example: `is_ends(Shape::Ends)` is true, and `is_ends(Shape::GoesOn)` is false.
pub fn is_ends(shape: Shape) -> bool
    ensures { result ≡ is_ends shape }
{
    matches!(shape, Shape::Ends)
}

fn is_other(shape: Shape) -> bool
    ensures { result ≡ is_other shape }
{
    matches!(shape, Shape::Other)
}

// Whether 10 holds (RULES.md, 2): the first page has to be one whole packet, and a page of the comment packet one piece of it.
// Example: `wrong_shape(Phase::First, Shape::GoesOn)` is true, and `wrong_shape(Phase::Comment, Shape::GoesOn)` is false.
pub fn wrong_shape(phase: Phase, shape: Shape) -> bool
    ensures { result ≡ wrong_shape phase shape }
{
    match phase {
        Phase::First => matches!(shape, Shape::GoesOn | Shape::Other),
        Phase::Comment => is_other(shape),
        Phase::Audio | Phase::Opened | Phase::Ended => false,
    }
}
