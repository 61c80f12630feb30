// A discard: one index comes back into the list, joined with the ranges that it touches.
ghost use Rattle.std.specs.Prelude.{◌≡◌, ◌+◌, ◌≤◌, ◌++◌, length, take, drop, MatchResult};
ghost use Rattle.range_list.specs.Ranges.{Sound, join, added};
ghost use Rattle.range_list.specs.View.{ends, all_ends, view, Declined, SamePlaces, Unwritten};

use crate::list::InitTracker;
use crate::span::Span;
use fault::Refusal;
use index::{Index, Stepping, same};

impl<'a, I: Index> InitTracker<'a, I> {
    // Puts `s` in the place of the ranges from `i` up to `k`, which is at most one, joined with the next if it begins where `s` ends. Inlined, since a call of its own is a good part of a discard's time.
    #[inline]
    fn put(&mut self, i: usize, k: usize, s: Span<I>) -> Result<(), Refusal>
        requires at { (i ≤ k) × ((k ≤ i + 1) × (k ≤ self.old.len)) }
        ensures places { SamePlaces self.old self.new }
        ensures held { MatchResult result (λ _. view I.Index.position self.new ≡ take i (view I.Index.position self.old) ++ join (ends I.Index.position s) (drop k (view I.Index.position self.old))) (Declined self.old self.new (take i (view I.Index.position self.old) ++ join (ends I.Index.position s) (drop k (view I.Index.position self.old)))) }
    {
        match self.range_at(k) {
            Some(next) if same(next.start, s.end) => {
                let joined = Span {
                    start: s.start,
                    ..next
                };
                self.set(k, joined);
                self.remove(i, k);
            }
            _ if i < k => self.set(i, s),
            _ => self.insert(i, s)?,
        }
        Ok(())
    }
}

impl<'a, I: Stepping> InitTracker<'a, I> {
    // Adds `at`, if it is below `size`; a list of more ranges than places is declined, and nothing changes.
    pub fn discard(&mut self, at: I, size: I) -> Result<(), Refusal>
        requires sound { Sound (I.Index.position size) (view I.Index.position self.old) }
        ensures places { SamePlaces self.old self.new }
        ensures held { MatchResult result (λ _. view I.Index.position self.new ≡ added (I.Index.position at) (I.Index.position size) (view I.Index.position self.old)) (Declined self.old self.new (added (I.Index.position at) (I.Index.position size) (view I.Index.position self.old))) }
        ensures beyond { I.Index.position size ≤ I.Index.position at → (self.new.len ≡ self.old.len) × (self.new.places.now ≡ self.old.places.now) }
        ensures sound { Sound (I.Index.position size) (view I.Index.position self.new) }
    {
        if !at.before(size) {
            return Ok(());
        }
        let i = self.find(at);
        let after = self.range_at(i);
        if after.is_some_and(|range| !at.before(range.start)) {
            return Ok(());
        }
        let next = at.next(size);
        match self.range_before(i) {
            Some(range) if !range.end.before(at) => self.put(i - 1, i, Span { end: next, ..range }),
            _ => {
                let single = Span {
                    start: at,
                    end: next,
                };
                self.put(i, i, single)
            }
        }
    }
}

// The same over a slice whose first `len` places hold the list, which are the caller's: how many hold it then.
pub fn discard<I: Stepping>(
    places: &mut [Span<I>],
    len: usize,
    at: I,
    size: I,
) -> Result<usize, Refusal>
    requires fits { len ≤ length places.old }
    requires sound { Sound (I.Index.position size) (all_ends I.Index.position (take len places.old)) }
    ensures { MatchResult result (λ n. (n ≤ length places.new) × (all_ends I.Index.position (take n places.new) ≡ added (I.Index.position at) (I.Index.position size) (all_ends I.Index.position (take len places.old)))) (Unwritten places.old places.new (added (I.Index.position at) (I.Index.position size) (all_ends I.Index.position (take len places.old)))) }
{
    let mut list = InitTracker::over(places, len);
    list.discard(at, size)?;
    Ok(list.count())
}
