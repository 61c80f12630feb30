// The pieces that the reads of one submission take, kept by ascending buffer and address.
ghost use Rattle.std.specs.Prelude.{◌≡◌, ◌<◌, ◌≤◌, [], length};
ghost use Rattle.std.specs.List.{insert};
ghost use Rattle.rules.specs.Planning.{join_all, placed};
ghost use Rattle.plan.specs.Kept.{kept};

use crate::join_touching;
use arrayvec::ArrayVec;
use rules::Piece;

// Each of 64 reads takes at most the 64 ranges of a book.
const MOST_PIECES: usize = 4096;

#[derive(Drop)]
pub(crate) struct Pieces {
    pieces: ArrayVec<Piece, MOST_PIECES>,
}

// How many of these pieces stand before one more. A loop and no `position` of an iterator, which took 1.6 times as long.
fn position(pieces: &[Piece], p: Piece) -> usize
    ensures within { result ≤ length pieces.now }
    ensures there { placed p pieces.now ≡ insert pieces.now result p }
{
    let mut i = 0;
    while i < pieces.len() {
        let q = pieces[i];
        if p.precedes(q) {
            return i;
        }
        i += 1;
    }
    i
}

impl Pieces {
    // No pieces yet.
    pub(crate) fn new() -> Pieces
        ensures { kept result ≡ [] }
    {
        Pieces {
            pieces: ArrayVec::new(),
        }
    }

    // Keeps one more piece, in its order.
    pub(crate) fn insert(&mut self, p: Piece)
        requires { length (kept self.old) < 4096 }
        ensures { kept self.new ≡ placed p (kept self.old) }
    {
        let place = position(self.pieces.as_slice(), p);
        self.pieces.insert(place, p);
    }

    // Joins the pieces that touch.
    pub(crate) fn joined(&mut self) -> &[Piece]
        ensures joined { result.now ≡ join_all (kept self.old) }
        ensures few { length result.now ≤ 4096 }
    {
        let pieces = self.pieces.as_mut_slice();
        let first = join_touching(pieces);
        &pieces[first..]
    }
}
