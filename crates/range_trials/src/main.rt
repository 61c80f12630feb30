// Tries every range list of up to 6 positions, as a buffer's book and as a list of layers, against a plain set of positions.
// A cast by `as` goes between `usize` and another number, or to fewer bits, where there is no `From`; none loses anything.
#![tactic(auto)]

mod buffers;
mod layers;
mod sets;
mod tally;

use init_tracker::{BufferInitTracker, LayerInitTracker};
use range_list::Span;
use sets::{POSITIONS, only};
use std::io;
use std::io::Write;
use tally::Tally;

// Every query from 0 to 8, backward ones too.
fn try_queries(book: &BufferInitTracker, list: &LayerInitTracker, set: u64, tally: &mut Tally) {
    for from in 0..POSITIONS {
        for to in 0..POSITIONS {
            let query = Span {
                start: from,
                end: to,
            };
            tally.query();
            buffers::try_query(book, set, query, tally);
            layers::try_query(list, set, query, tally);
        }
    }
}

// Every index from 0 to 8 put back; a buffer's book takes none back.
fn try_discards(list: &LayerInitTracker, size: u64, set: u64, tally: &mut Tally) {
    for at in 0..POSITIONS {
        tally.discard();
        layers::try_discard(list, size, set, at, tally);
    }
}

// The set's list, made by draining what is outside the set, and all that is asked of it.
fn try_set(size: u64, set: u64, tally: &mut Tally) {
    tally.list();
    let (Ok(book), Some(list)) = (buffers::made(size, set), layers::made(size, set)) else {
        return tally.agree(false);
    };
    tally.agree(buffers::owes(&book, set));
    tally.agree(layers::owes(&list, set));
    try_queries(&book, &list, set, tally);
    try_discards(&list, size, set, tally);
}

// Every set of positions below `size`.
fn try_size(size: u64, tally: &mut Tally) {
    for set in 0..only(size) {
        try_set(size, set, tally);
    }
}

// Prints how many were tried, and how many differences there are.
fn main(rt: HostRuntime) -> io::Result<()> {
    let mut tally = Tally::default();
    for size in 0..7 {
        try_size(size, &mut tally);
    }
    println!(rt; "lists {}", tally.lists)?;
    println!(rt; "queries {}", tally.queries)?;
    println!(rt; "discards {}", tally.discards)?;
    println!(rt; "differences {}", tally.differences)
}
