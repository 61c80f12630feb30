// Session files: reading one, call by call, and writing its listing.
// A cast by `as` goes between `usize` and another number, or to fewer bits, where there is no `From`; none loses anything.
#![tactic(auto)]

mod decode;
mod header;
mod journal;
mod laws;
mod lines;
mod session;
mod words;
mod work;

pub use decode::decode_call;
pub use header::{Header, read_header};
pub use laws::sample_stands;
pub use session::run;
