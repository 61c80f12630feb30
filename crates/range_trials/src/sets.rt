// A plain set of the positions 0 to 8, as a bit for each, and what it says of a query by its definition. A set is a bare
// number, so that counting up tries every set.
use range_list::Span;

// How many positions there are.
pub const POSITIONS: u64 = 9;

// A position as a layer's index.
pub(crate) fn low(p: u64) -> u32 {
    (p & 0xffff_ffff) as u32
}

// This one position as a query.
pub(crate) fn single(p: u64) -> Span<u64> {
    Span {
        start: p,
        end: p.wrapping_add(1),
    }
}

// The set of this one position.
pub(crate) fn only(p: u64) -> u64 {
    1u64.wrapping_shl(low(p))
}

// Whether the set has this position.
pub(crate) fn has(set: u64, p: u64) -> bool {
    set & only(p) != 0
}

// The set of the positions that pass. One fold: with a filter before it the trial took 1.4 times as long.
pub(crate) fn those<F: Fn(u64) -> bool>(pass: F) -> u64
    requires { F.IsAlwaysCallable pass }
{
    (0..POSITIONS).fold(0, |set, p| if pass(p) { set | only(p) } else { set })
}

// The positions of the query; none where it is empty or backward.
pub(crate) fn between(query: Span<u64>) -> u64 {
    those(|p| query.start <= p && p < query.end)
}

// The first position of the set.
fn first(set: u64) -> u64 {
    (0..POSITIONS).find(|&p| has(set, p)).unwrap_or(POSITIONS)
}

// The first position from `from` on that is not in the set.
fn run_end(set: u64, from: u64) -> u64 {
    (from..POSITIONS)
        .find(|&p| !has(set, p))
        .unwrap_or(POSITIONS)
}

// What of a query has to be filled: from its first position in the set up to the end of the run there, or up to the query's end if that run is not all.
pub(crate) fn checked(set: u64, query: Span<u64>) -> Option<Span<u64>> {
    let inside = set & between(query);
    if inside == 0 {
        return None;
    }
    let start = first(inside);
    let run = Span {
        start,
        end: run_end(inside, start),
    };
    Some(if inside == between(run) {
        run
    } else {
        Span { start, ..query }
    })
}

// How many runs of positions the set has: one begins at each position whose predecessor is missing.
pub(crate) fn runs(set: u64) -> u64 {
    u64::from((set & !set.wrapping_shl(1)).count_ones())
}
