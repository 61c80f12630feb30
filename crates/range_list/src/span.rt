// One range of a list: from its start up to its end, which it does not hold. A query is one too, and may be empty or backward.
ghost use Rattle.std.specs.Prelude.{◌≡◌, not, nat_lt};
ghost use Rattle.range_list.specs.Ranges.{clipped};
ghost use Rattle.range_list.specs.View.{ends};

use index::{Index, earlier, later};

#[derive(Clone, Copy, Debug, Default, PartialEq, Eq)]
pub struct Span<I> {
    pub start: I,
    pub end: I,
}

impl<I: Index> Span<I> {
    // Whether it holds no index.
    pub(crate) fn is_empty(self) -> bool
        ensures { result ≡ not (nat_lt (I.Index.position self.start) (I.Index.position self.end)) }
    {
        !self.start.before(self.end)
    }

    // This range cut to the other.
    pub(crate) fn cut(self, to: Span<I>) -> Span<I>
        ensures { ends I.Index.position result ≡ clipped (I.Index.position to.start) (I.Index.position to.end) (ends I.Index.position self) }
    {
        Span {
            start: later(self.start, to.start),
            end: earlier(self.end, to.end),
        }
    }
}
