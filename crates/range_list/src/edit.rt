// One range of a list put in the place of another or between others, or some taken out.
ghost use Rattle.std.specs.Prelude.{◌≡◌, ◌+◌, ◌<◌, ◌≤◌, ◌++◌, length, take, drop, slice_set, MatchResult};
ghost use Rattle.std.specs.List.{insert};
ghost use Rattle.fault.specs.declared.refusal.Refusal.TheVariants.{PlacesFull};
ghost use Rattle.range_list.specs.View.{ends, view, SamePlaces};

use crate::list::InitTracker;
use crate::shift::open_at;
use crate::span::Span;
use fault::Refusal;
use index::Index;

impl<'a, I: Index> InitTracker<'a, I> {
    // Puts `s` in the place of the range at `i`.
    pub(crate) fn set(&mut self, i: usize, s: Span<I>)
        requires at { i < self.old.len }
        ensures places { SamePlaces self.old self.new × (self.new.len ≡ self.old.len) }
        ensures held { view I.Index.position self.new ≡ slice_set (view I.Index.position self.old) i (ends I.Index.position s) }
    {
        self.places[i] = s;
    }

    // Puts `s` at `i`, and moves what stands there and after up by one; it declines where there is no place more.
    pub(crate) fn insert(&mut self, i: usize, s: Span<I>) -> Result<(), Refusal>
        requires at { i ≤ self.old.len }
        ensures places { SamePlaces self.old self.new }
        ensures held { MatchResult result (λ _. (self.new.len ≡ self.old.len + 1) × (view I.Index.position self.new ≡ insert (view I.Index.position self.old) i (ends I.Index.position s))) (λ e. (e ≡ PlacesFull) × (self.new.len ≡ self.old.len) × (self.new.places.now ≡ self.old.places.now) × (length self.old.places.now ≡ self.old.len)) }
    {
        if self.len == self.places.len() {
            return Err(Refusal::PlacesFull);
        }
        open_at(&mut self.places[..self.len + 1], i, s);
        self.len += 1;
        Ok(())
    }

    // Takes the ranges from `i` up to `k` out.
    pub(crate) fn remove(&mut self, i: usize, k: usize)
        requires at { (i ≤ k) × (k ≤ self.old.len) }
        ensures places { SamePlaces self.old self.new }
        ensures held { view I.Index.position self.new ≡ take i (view I.Index.position self.old) ++ drop k (view I.Index.position self.old) }
    {
        self.places.copy_within(k..self.len, i);
        self.len -= k - i;
    }
}
