// Which ranges of a list a query meets, found by bisection. That the ranges are sound is a premise of each search: a slice
// that is lent has no type of its own to hold it.
ghost use Rattle.std.specs.Prelude.{◌≡◌, ◌<◌, ◌≤◌, length};
ghost use Rattle.std.specs.List.Sorted.{IsPartitionPoint};
ghost use Rattle.range_list.specs.Ranges.{IsSound, meeting as meeting_in};
ghost use Rattle.range_list.specs.View.{all_ends};

use crate::span::Span;
use index::Index;

// How many ranges end by `at`.
pub(crate) fn ending_by<I: Index>(ranges: &[Span<I>], at: I) -> usize
    requires { IsSound (all_ends I.Index.position ranges.now) }
    ensures within { result ≤ length ranges.now }
    ensures point { IsPartitionPoint (λ r. r.1 ≤ I.Index.position at) (λ r. I.Index.position at < r.1) (all_ends I.Index.position ranges.now) result }
{
    ranges.partition_point(|range| !at.before(range.end))
}

// How many ranges start before `at`.
pub(crate) fn starting_before<I: Index>(ranges: &[Span<I>], at: I) -> usize
    requires { IsSound (all_ends I.Index.position ranges.now) }
    ensures within { result ≤ length ranges.now }
    ensures point { IsPartitionPoint (λ r. r.0 < I.Index.position at) (λ r. I.Index.position at ≤ r.0) (all_ends I.Index.position ranges.now) result }
{
    ranges.partition_point(|range| range.start.before(at))
}

// The ranges that the query meets, which stand side by side.
pub(crate) fn meeting<I: Index>(ranges: &[Span<I>], query: Span<I>) -> &[Span<I>]
    requires { IsSound (all_ends I.Index.position ranges.now) }
    ensures { all_ends I.Index.position result.now ≡ meeting_in (I.Index.position query.start) (I.Index.position query.end) (all_ends I.Index.position ranges.now) }
{
    if query.is_empty() {
        return &ranges[..0];
    }
    let first = ending_by(ranges, query.start);
    let end = starting_before(ranges, query.end);
    &ranges[first..end]
}
