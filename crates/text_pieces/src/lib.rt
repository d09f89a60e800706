// Pieces of text put into a lent buffer one after the other, and whether all of them fitted: what a function that puts many
// lines hands on from each to the next.
#![tactic(auto)]

ghost use Rattle.std.specs.Prelude.{◌≡◌};
ghost use Rattle.text_pieces.specs.Pieces.{none, moved_to};

// The place after the pieces that were put, and whether each of them fitted.
#[derive(Clone, Copy)]
pub struct Pieces {
    pub at: usize,
    pub whole: bool,
}

// No piece yet, at the start of a buffer. It refuses nothing. Example: its place is 0, and it is whole.
pub fn begin() -> Pieces
    ensures { result ≡ none }
{
    Pieces { at: 0, whole: true }
}

// After one more piece, that was put from the place of `p` on: `next` is the place that putting it answered. Where that is the
// same place, the piece did not fit. It refuses nothing.
// Example: after `begin()`, the place 5 gives 5 and whole, and the place 0 gives 0 and not whole.
pub fn after(p: Pieces, next: usize) -> Pieces
    ensures { result ≡ moved_to p next }
{
    if next > p.at {
        return Pieces {
            at: next,
            whole: p.whole,
        };
    }
    Pieces {
        at: next,
        whole: false,
    }
}
