// The pieces of a query that are uninitialized: the ranges that meet it, cut to it.
ghost use Rattle.std.specs.Prelude.{◌≡◌, ◌≤◌, map, length, take, drop, MatchResult};
ghost use Rattle.range_list.specs.Ranges.{IsSound, pieces as pieces_of, clipped};
ghost use Rattle.range_list.specs.View.{all_ends, view, Wrote, Unwritten};

use crate::bisect::meeting;
use crate::list::InitTracker;
use crate::span::Span;
use fault::Refusal;
use index::Index;

// Writes these ranges, each cut to the query, into the first places.
fn write_cut<I: Index>(ranges: &[Span<I>], query: Span<I>, out: &mut [Span<I>])
    requires room { length ranges.now ≤ length out.old }
    ensures cut { all_ends I.Index.position (take (length ranges.now) out.new) ≡ map (clipped (I.Index.position query.start) (I.Index.position query.end)) (all_ends I.Index.position ranges.now) }
    ensures rest { drop (length ranges.now) out.new ≡ drop (length ranges.now) out.old }
{
    // By index, since a proof knows no element that was written through `iter_mut`.
    for (k, range) in ranges.iter().enumerate() {
        out[k] = range.cut(query);
    }
}

// Writes the pieces of the query in these ranges and says how many; with fewer places than pieces it declines and writes none.
pub fn pieces<I: Index>(
    ranges: &[Span<I>],
    query: Span<I>,
    out: &mut [Span<I>],
) -> Result<usize, Refusal>
    requires sound { IsSound (all_ends I.Index.position ranges.now) }
    ensures { MatchResult result (Wrote I.Index.position out.old out.new (pieces_of (I.Index.position query.start) (I.Index.position query.end) (all_ends I.Index.position ranges.now))) (Unwritten out.old out.new (pieces_of (I.Index.position query.start) (I.Index.position query.end) (all_ends I.Index.position ranges.now))) }
{
    let met = meeting(ranges, query);
    if out.len() < met.len() {
        return Err(Refusal::PlacesFull);
    }
    write_cut(met, query, out);
    Ok(met.len())
}

impl<'a, I: Index> InitTracker<'a, I> {
    // Writes the uninitialized pieces of the query and says how many; with fewer places than pieces it declines and writes none.
    pub fn uninitialized(&self, query: Span<I>, out: &mut [Span<I>]) -> Result<usize, Refusal>
        requires sound { IsSound (view I.Index.position self.now) }
        ensures { MatchResult result (Wrote I.Index.position out.old out.new (pieces_of (I.Index.position query.start) (I.Index.position query.end) (view I.Index.position self.now))) (Unwritten out.old out.new (pieces_of (I.Index.position query.start) (I.Index.position query.end) (view I.Index.position self.now))) }
    {
        pieces(self.ranges(), query, out)
    }
}
