// The pieces of packets on a page, by its lacing values: 255 goes on, a smaller one ends a packet.
#![tactic(auto)]

ghost use Rattle.page_pieces.specs.Pieces.{PiecesAre};

// How many packets end, the length of each in bytes, and how many bytes are left of a packet that goes on. Places of
// `lengths` past `count` are zero.
#[derive(Clone, Copy)]
pub struct Pieces {
    pub count: usize,
    pub lengths: [usize; 255],
    pub unfinished: usize,
}

// The pieces of a lacing list (RULES.md, 3; RFC 3533, 5 and 6). A page has at most 255 values: of a longer list the first
// 255 count. Example: `pieces_of(&[255, 3, 10, 255])` has the count 2, the lengths 258 and 10, and 255 bytes unfinished.
pub fn pieces_of(lacing: &[u8]) -> Pieces
    ensures { PiecesAre result lacing.now }
{
    let mut lengths = [0usize; 255];
    let mut count: usize = 0;
    let mut bytes: usize = 0;
    for b in octets::part_of(lacing, 0, 255) {
        let v = usize::from(*b);
        bytes += v;
        let ends = v < 255;
        if ends {
            lengths[count] = bytes;
            count += 1;
            bytes = 0;
        }
    }
    Pieces {
        count,
        lengths,
        unfinished: bytes,
    }
}
