// Pieces that touch become one range to clear.
ghost use Rattle.std.specs.Prelude.{◌≡◌, ◌<◌, ◌≤◌, length, take, drop, slice_index_or};
ghost use Rattle.rules.specs.Planning.{join_front, join_all};
ghost use Rattle.plan.specs.Kept.{blank};

use rules::Piece;

// Puts the piece at `i` before those from `w` on, joined with the first of them if they touch; where they now begin.
fn join_one(pieces: &mut [Piece], i: usize, w: usize) -> usize
    requires { (i < w) × (w ≤ length pieces.old) }
    ensures within { (i ≤ result) × (result ≤ w) }
    ensures front { take i pieces.new ≡ take i pieces.old }
    ensures joined { drop result pieces.new ≡ join_front (slice_index_or pieces.old i blank) (drop w pieces.old) }
{
    let p = pieces[i];
    match pieces.get(w) {
        Some(q) if p.touches(*q) => {
            pieces[w] = Piece {
                buffer: p.buffer,
                start: p.start,
                end: q.end,
            };
            w
        }
        _ => {
            pieces[w - 1] = p;
            w - 1
        }
    }
}

// Joins what touches, from the back; the joined pieces then stand from the answered place on.
pub(crate) fn join_touching(pieces: &mut [Piece]) -> usize
    ensures within { result ≤ length pieces.old }
    ensures joined { drop result pieces.new ≡ join_all pieces.old }
{
    let mut w = pieces.len();
    // By index, in place: the memory is fixed, and a second store would be as large again.
    for i in (0..pieces.len()).rev() {
        w = join_one(pieces, i, w);
    }
    w
}
