// The book of one resource: the ranges of it that are still uninitialized, in N places, and its size. Each call stands on the range list over the places.
ghost use Rattle.std.specs.Prelude.{◌≡◌, ◌<◌, ◌≤◌, length, take, MatchResult, OnErr};
ghost use Rattle.range_list.specs.Ranges.{Sound, IsSound, added, checked, drained, part, pieces as pieces_of};
ghost use Rattle.range_list.specs.View.{all_ends, positions, Unwritten, Wrote};

use fault::Refusal;
use range_list::{Index, Span, Stepping, check, discard, drain, pieces};
use std::alloc::AllocError;

// An array and a count, since the rules fix a book's places and a book is copied whole.
#[derive(Copy)]
pub struct Book<I: Index, const N: usize> {
    places: [Span<I>; N],
    len: usize,
    size: I,
    ghost full: { length places ≡ N },
    ghost fits: { len ≤ N },
    ghost sound: { ∥ Sound (I.position size) (all_ends I.position (take len places)) ∥₁ },
}

// By hand, since a generic struct with ghost fields has no derived one.
impl<I: Index, const N: usize> Clone for Book<I, N> {
    ghost is_clone = { λ s r. r ≡ s };

    ghost is_infallible = { λ _. Unit {0} };

    fn clone(&self) -> Result<Self, AllocError> {
        Ok(*self)
    }
}

impl<I: Index, const N: usize> Book<I, N> {
    ghost use Rattle.init_tracker.specs.Books.{held, fitting, kept};

    // The book that owes this range, of a resource whose size is the range's end.
    pub(crate) fn owing(range: Span<I>) -> Book<I, N>
        requires { 0 < N }
        ensures held { held result ≡ part (I.Index.position range.start) (I.Index.position range.end) }
        ensures size { result.size ≡ range.end }
    {
        Book {
            places: [range; N],
            len: usize::from(range.start.before(range.end)),
            size: range.end,
        }
    }

    // The resource's size.
    pub fn size(&self) -> I
        ensures { result ≡ self.now.size }
    {
        self.size
    }

    // How many ranges are uninitialized, at most N, and that they keep within the size.
    pub fn count(&self) -> usize
        ensures answer { result ≡ length (held self.now) }
        ensures few { length (held self.now) ≤ N }
        ensures sound { Sound (I.Index.position self.now.size) (held self.now) }
    {
        self.ranges().len()
    }

    // The ranges that are uninitialized.
    fn ranges(&self) -> &[Span<I>]
        ensures ranges { all_ends I.Index.position result.now ≡ held self.now }
        ensures sound { IsSound (all_ends I.Index.position result.now) }
    {
        &self.places[..self.len]
    }

    // The part of the query that has to be filled before it is read, if any of it is uninitialized.
    pub fn check(&self, query: Span<I>) -> Option<Span<I>>
        ensures { positions I.Index.position result ≡ checked (I.Index.position query.start) (I.Index.position query.end) (held self.now) }
    {
        check(self.ranges(), query)
    }

    // Writes the uninitialized pieces of the query and says how many; with fewer places than pieces it declines and writes none.
    pub fn uninitialized(&self, query: Span<I>, out: &mut [Span<I>]) -> Result<usize, Refusal>
        ensures { MatchResult result (Wrote I.Index.position out.old out.new (pieces_of (I.Index.position query.start) (I.Index.position query.end) (held self.now))) (Unwritten out.old out.new (pieces_of (I.Index.position query.start) (I.Index.position query.end) (held self.now))) }
    {
        pieces(self.ranges(), query, out)
    }

    // Takes the query out of the book; where more than N ranges would be left it declines, and nothing changes.
    pub fn drain(&mut self, query: Span<I>) -> Result<(), Refusal>
        ensures answer { result ≡ fitting N (drained (I.Index.position query.start) (I.Index.position query.end) (held self.old)) }
        ensures after { held self.new ≡ kept N (held self.old) (drained (I.Index.position query.start) (I.Index.position query.end) (held self.old)) }
        ensures size { self.new.size ≡ self.old.size }
        ensures declined { OnErr result (self.new ≡ self.old) }
    {
        self.len = drain(&mut self.places, self.len, query)?;
        Ok(())
    }
}

impl<I: Stepping, const N: usize> Book<I, N> {
    ghost use Rattle.init_tracker.specs.Books.{held, fitting, kept};

    // Puts an index back into the book, if it is below the size; where that would be more than N ranges it declines, and nothing changes.
    pub(crate) fn discard(&mut self, at: I) -> Result<(), Refusal>
        ensures answer { result ≡ fitting N (added (I.Index.position at) (I.Index.position self.old.size) (held self.old)) }
        ensures after { held self.new ≡ kept N (held self.old) (added (I.Index.position at) (I.Index.position self.old.size) (held self.old)) }
        ensures size { self.new.size ≡ self.old.size }
        ensures declined { OnErr result (self.new ≡ self.old) }
    {
        self.len = discard(&mut self.places, self.len, at, self.size)?;
        Ok(())
    }
}
