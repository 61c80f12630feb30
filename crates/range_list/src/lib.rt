// Lists of the ranges that are still uninitialized, over the caller's places and for every kind of index.
#![tactic(auto)]

mod bisect;
mod cutting;
mod discarding;
mod draining;
mod edit;
mod list;
mod meaning;
mod query;
mod shift;
mod span;

pub use cutting::pieces;
pub use discarding::discard;
pub use draining::drain;
pub use index::{Index, Stepping};
pub use list::InitTracker;
pub use meaning::{laws_stand, trials_stand};
pub use query::check;
pub use shift::open_at;
pub use span::Span;
