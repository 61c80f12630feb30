// A drain: the positions of a query leave the list.
ghost use Rattle.std.specs.Prelude.{◌≡◌, ℕ, ◌+◌, ◌<◌, ◌≤◌, ◌++◌, length, take, drop, MatchResult};
ghost use Rattle.range_list.specs.Ranges.{Sound, IsSound, drained, left_of, begun, closed};
ghost use Rattle.range_list.specs.View.{all_ends, view, Declined, SamePlaces, Unwritten};

use crate::list::InitTracker;
use crate::span::Span;
use fault::Refusal;
use index::{Index, later};

impl<'a, I: Index> InitTracker<'a, I> {
    // Ends the range at `i` by `at`; how many ranges there are now before `at`.
    fn trim_end(&mut self, i: usize, at: I) -> usize
        requires at { i < self.old.len }
        ensures within { (i ≤ result) × (result ≤ i + 1) }
        ensures places { SamePlaces self.old self.new × (self.new.len ≡ self.old.len) }
        ensures front { take result (view I.Index.position self.new) ≡ take i (view I.Index.position self.old) ++ left_of (I.Index.position at) (drop i (view I.Index.position self.old)) }
        ensures rest { drop (i + 1) (view I.Index.position self.new) ≡ drop (i + 1) (view I.Index.position self.old) }
    {
        match self.range_at(i) {
            Some(range) if range.start.before(at) => {
                self.set(i, Span { end: at, ..range });
                i + 1
            }
            _ => i,
        }
    }

    // Begins the range at `k`, if there is one, no earlier than `at`.
    fn trim_start(&mut self, k: usize, at: I)
        requires at { k ≤ self.old.len }
        ensures places { SamePlaces self.old self.new × (self.new.len ≡ self.old.len) }
        ensures held { view I.Index.position self.new ≡ take k (view I.Index.position self.old) ++ begun (I.Index.position at) (drop k (view I.Index.position self.old)) }
    {
        if let Some(range) = self.range_at(k) {
            let trimmed = Span {
                start: later(range.start, at),
                ..range
            };
            self.set(k, trimmed);
        }
    }

    // Takes out what lies in the query, where i ranges end by its start, and k, which is more, by its end.
    fn close(&mut self, i: usize, k: usize, query: Span<I>)
        requires at { (i < k) × (k ≤ self.old.len) }
        ensures places { SamePlaces self.old self.new }
        ensures held { view I.Index.position self.new ≡ closed (I.Index.position query.start) (I.Index.position query.end) i k (view I.Index.position self.old) }
    {
        let a = self.trim_end(i, query.start);
        self.trim_start(k, query.end);
        self.remove(a, k);
    }

    // Takes out what lies in the query, where i ranges end by its start, and as many by its end; it declines where that needs a place more than there are.
    fn split(&mut self, i: usize, query: Span<I>) -> Result<(), Refusal>
        requires at { i ≤ self.old.len }
        requires order { I.Index.position query.start < I.Index.position query.end }
        ensures places { SamePlaces self.old self.new }
        ensures held { MatchResult result (λ _. view I.Index.position self.new ≡ closed (I.Index.position query.start) (I.Index.position query.end) i i (view I.Index.position self.old)) (Declined self.old self.new (closed (I.Index.position query.start) (I.Index.position query.end) i i (view I.Index.position self.old))) }
    {
        match self.range_at(i) {
            Some(range) if range.start.before(query.start) => {
                let after = Span {
                    start: query.end,
                    ..range
                };
                self.insert(i + 1, after)?;
                let before = Span {
                    end: query.start,
                    ..range
                };
                self.set(i, before);
            }
            _ => self.trim_start(i, query.end),
        }
        Ok(())
    }

    // Takes the positions of the query out; a list of more ranges than places is declined, and nothing changes.
    pub fn drain(&mut self, query: Span<I>) -> Result<(), Refusal>
        requires sound { IsSound (view I.Index.position self.old) }
        ensures places { SamePlaces self.old self.new }
        ensures held { MatchResult result (λ _. view I.Index.position self.new ≡ drained (I.Index.position query.start) (I.Index.position query.end) (view I.Index.position self.old)) (Declined self.old self.new (drained (I.Index.position query.start) (I.Index.position query.end) (view I.Index.position self.old))) }
        ensures sound { (n : ℕ) → Sound n (view I.Index.position self.old) → Sound n (view I.Index.position self.new) }
    {
        if query.is_empty() {
            return Ok(());
        }
        let i = self.find(query.start);
        let k = self.find(query.end);
        if i < k {
            self.close(i, k, query);
            return Ok(());
        }
        self.split(i, query)
    }
}

// The same over a slice whose first `len` places hold the list, which are the caller's: how many hold it then.
pub fn drain<I: Index>(places: &mut [Span<I>], len: usize, query: Span<I>) -> Result<usize, Refusal>
    requires fits { len ≤ length places.old }
    requires sound { IsSound (all_ends I.Index.position (take len places.old)) }
    ensures { MatchResult result (λ n. (n ≤ length places.new) × (all_ends I.Index.position (take n places.new) ≡ drained (I.Index.position query.start) (I.Index.position query.end) (all_ends I.Index.position (take len places.old)))) (Unwritten places.old places.new (drained (I.Index.position query.start) (I.Index.position query.end) (all_ends I.Index.position (take len places.old)))) }
{
    let mut list = InitTracker::over(places, len);
    list.drain(query)?;
    Ok(list.count())
}
