// A list of layers beside the set of positions that it should owe. Apart from the trial of a book: a list has no pieces,
// and only a book can decline a drain, so one function over both would have more cases than these two.
use crate::sets::{between, checked, has, low, only, runs, single, those};
use crate::tally::Tally;
use init_tracker::LayerInitTracker;
use range_list::Span;

// A query's positions as layers.
fn layers_of(query: Span<u64>) -> Span<u32> {
    Span {
        start: low(query.start),
        end: low(query.end),
    }
}

// The list of `size` layers from which those outside the set are drained; none where there is no list of so many.
pub(crate) fn made(size: u64, set: u64) -> Option<LayerInitTracker> {
    let mut list = LayerInitTracker::new(low(size))?;
    for p in (0..size).filter(|&p| !has(set, p)) {
        list.drain(layers_of(single(p)));
    }
    Some(list)
}

// What the list has to have filled of a query.
fn answer(list: &LayerInitTracker, query: Span<u64>) -> Option<Span<u64>> {
    list.check(layers_of(query)).map(|part| Span {
        start: u64::from(part.start),
        end: u64::from(part.end),
    })
}

// The positions that the list owes, each asked for alone.
fn owed(list: &LayerInitTracker) -> u64 {
    those(|p| answer(list, single(p)).is_some())
}

// Whether the list owes exactly the set, in as many ranges as the set has runs.
pub(crate) fn owes(list: &LayerInitTracker, set: u64) -> bool {
    owed(list) == set && list.count() as u64 == runs(set)
}

// A query of the list: what it has to have filled, and what a drain of it leaves.
pub(crate) fn try_query(list: &LayerInitTracker, set: u64, query: Span<u64>, tally: &mut Tally) {
    tally.agree(answer(list, query) == checked(set, query));
    let mut after = *list;
    after.drain(layers_of(query));
    tally.agree(owes(&after, set & !between(query)));
}

// An index put back: it is in the list then, unless it is none of the list's layers.
pub(crate) fn try_discard(
    list: &LayerInitTracker,
    size: u64,
    set: u64,
    at: u64,
    tally: &mut Tally,
) {
    let mut after = *list;
    after.discard(low(at));
    let more = if at < size { only(at) } else { 0 };
    tally.agree(owes(&after, set | more));
}
