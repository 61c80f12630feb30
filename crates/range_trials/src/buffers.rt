// A buffer's book beside the set of positions that it should owe.
use crate::sets::{POSITIONS, between, checked, has, runs, single};
use crate::tally::Tally;
use fault::Refusal;
use init_tracker::BufferInitTracker;
use range_list::Span;

// The book of `size` positions from which those outside the set are drained.
pub(crate) fn made(size: u64, set: u64) -> Result<BufferInitTracker, Refusal> {
    let mut book = BufferInitTracker::new(size);
    for p in (0..size).filter(|&p| !has(set, p)) {
        book.drain(single(p))?;
    }
    Ok(book)
}

// Whether these ranges are non-empty, ascend with gaps, and hold exactly the set.
fn are(ranges: &[Span<u64>], set: u64) -> bool {
    let mut seen = 0;
    let mut free = 0;
    for range in ranges {
        if range.start < free || range.start >= range.end {
            return false;
        }
        seen |= between(*range);
        free = range.end.wrapping_add(1);
    }
    seen == set
}

// Whether the pieces of the query are exactly the set.
fn pieces_are(book: &BufferInitTracker, query: Span<u64>, set: u64) -> bool {
    let mut out = [Span::default(); 64];
    match book.uninitialized(query, &mut out) {
        Ok(n) => are(&out[..n], set),
        Err(_) => false,
    }
}

// Whether the book owes exactly the set, in as many ranges as the set has runs.
pub(crate) fn owes(book: &BufferInitTracker, set: u64) -> bool {
    let all = Span {
        start: 0,
        end: POSITIONS,
    };
    pieces_are(book, all, set) && book.count() as u64 == runs(set)
}

// A query of the book: what it has to have filled, its pieces, and what a drain of it leaves.
pub(crate) fn try_query(book: &BufferInitTracker, set: u64, query: Span<u64>, tally: &mut Tally) {
    let inside = between(query);
    tally.agree(book.check(query) == checked(set, query));
    tally.agree(pieces_are(book, query, set & inside));
    let mut after = *book;
    let done = after.drain(query).is_ok();
    tally.agree(done && owes(&after, set & !inside));
}
