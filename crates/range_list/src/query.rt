// Where a query first meets what is uninitialized, and how far that goes.
ghost use Rattle.std.specs.Prelude.{◌≡◌};
ghost use Rattle.range_list.specs.Ranges.{IsSound, checked};
ghost use Rattle.range_list.specs.View.{all_ends, view, positions};

use crate::bisect::ending_by;
use crate::list::InitTracker;
use crate::span::Span;
use index::{Index, later};

// The part of the query that has to be filled: from the later start up to the earlier end of the first range that it meets, or up to the query's end where it meets a second. One bisection finds the first, and the second stands beside it.
pub fn check<I: Index>(ranges: &[Span<I>], query: Span<I>) -> Option<Span<I>>
    requires sound { IsSound (all_ends I.Index.position ranges.now) }
    ensures { positions I.Index.position result ≡ checked (I.Index.position query.start) (I.Index.position query.end) (all_ends I.Index.position ranges.now) }
{
    if query.is_empty() {
        return None;
    }
    match &ranges[ending_by(ranges, query.start)..] {
        [first, second, ..] if second.start.before(query.end) => Some(Span {
            start: later(first.start, query.start),
            end: query.end,
        }),
        [first, ..] if first.start.before(query.end) => Some(first.cut(query)),
        _ => None,
    }
}

impl<'a, I: Index> InitTracker<'a, I> {
    // The part of the query that has to be filled, if it meets a range.
    pub fn check(&self, query: Span<I>) -> Option<Span<I>>
        requires sound { IsSound (view I.Index.position self.now) }
        ensures { positions I.Index.position result ≡ checked (I.Index.position query.start) (I.Index.position query.end) (view I.Index.position self.now) }
    {
        check(self.ranges(), query)
    }
}
