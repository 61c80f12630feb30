// The planner: buffers with their books, lists of steps, and every call on them.
// A cast by `as` goes between `usize` and another number, or to fewer bits, where there is no `From`; none loses anything.
#![tactic(auto)]

mod list;
mod planner;
mod uses;

pub use fault::Unmade;
pub use planner::Planner;
