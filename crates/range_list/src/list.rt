// The container of a list's ranges: places that the caller lends, of which the first hold ranges. It holds no size; calls are told it.
ghost use Rattle.std.specs.Prelude.{◌≡◌, ◌-◌, ◌<◌, ◌≤◌, length, take, drop, MatchResult, slice_get};
ghost use Rattle.std.specs.List.Sorted.{IsPartitionPoint};
ghost use Rattle.fault.specs.declared.refusal.Refusal.TheVariants.{PlacesFull};
ghost use Rattle.range_list.specs.Ranges.{IsSound, whole};

use crate::bisect::ending_by;
use crate::span::Span;
use fault::Refusal;
use index::Index;

// A slice and a count, since the places are the caller's; that what they hold is sound is asked by each call that rests on it. A call keeps the same places lent, its clause `places`, so that the lender learns what they hold in the end.
#[derive(Drop)]
pub struct InitTracker<'a, I> {
    pub(crate) places: &'a mut [Span<I>],
    pub(crate) len: usize,
    ghost fits: { len ≤ length places.now },
}

impl<'a, I: Index> InitTracker<'a, I> {
    ghost use Rattle.range_list.specs.View.{view, positions};

    // The list that stands in the first `len` of these places; that there are so many is asked here, where the type begins.
    pub fn over(places: &'a mut [Span<I>], len: usize) -> InitTracker<'a, I>
        requires fits { len ≤ length places.old }
        ensures len { result.len ≡ len }
        ensures places { result.places.now ≡ places.old }
        ensures lent { result.places.ghost_name ≡ places.entry.ghost_name }
    {
        InitTracker { places, len }
    }

    // The list of all indexes below `size`; it declines where that is some and there is no place.
    pub fn new(places: &'a mut [Span<I>], size: I) -> Result<InitTracker<'a, I>, Refusal>
        ensures { MatchResult result (λ t. (t.len ≤ length t.places.now) × (view I.Index.position t ≡ whole (I.Index.position size)) × (drop t.len t.places.now ≡ drop t.len places.old) × (t.places.ghost_name ≡ places.entry.ghost_name)) (λ e. (e ≡ PlacesFull) × (length places.old ≡ 0) × (0 < I.Index.position size)) }
    {
        let all = Span {
            start: I::least(),
            end: size,
        };
        if all.is_empty() {
            return Ok(InitTracker { places, len: 0 });
        }
        if places.is_empty() {
            return Err(Refusal::PlacesFull);
        }
        places[0] = all;
        Ok(InitTracker { places, len: 1 })
    }

    // How many ranges it has.
    pub fn count(&self) -> usize
        ensures { result ≡ self.now.len }
    {
        self.len
    }

    // Its ranges.
    pub(crate) fn ranges(&self) -> &[Span<I>]
        ensures { result.now ≡ take self.now.len self.now.places.now }
    {
        &self.places[..self.len]
    }

    // Its range at `i`, if it has one there.
    pub(crate) fn range_at(&self, i: usize) -> Option<Span<I>>
        ensures { positions I.Index.position result ≡ slice_get (view I.Index.position self.now) i }
    {
        self.ranges().get(i).copied()
    }

    // Its last range before place `i`, if it has one there.
    pub(crate) fn range_before(&self, i: usize) -> Option<Span<I>>
        requires { i ≤ self.now.len }
        ensures { positions I.Index.position result ≡ slice_get (take i (view I.Index.position self.now)) (i - 1) }
    {
        self.ranges()[..i].last().copied()
    }

    // How many of its ranges end by `at`.
    pub(crate) fn find(&self, at: I) -> usize
        requires { IsSound (view I.Index.position self.now) }
        ensures within { result ≤ self.now.len }
        ensures point { IsPartitionPoint (λ r. r.1 ≤ I.Index.position at) (λ r. I.Index.position at < r.1) (view I.Index.position self.now) result }
    {
        ending_by(self.ranges(), at)
    }
}
