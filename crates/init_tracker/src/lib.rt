// The books of what is still uninitialized: one list of ranges for each resource, in places of its own.
#![tactic(auto)]

mod book;
mod buffer;
mod kind;
mod layer;

pub use book::Book;
pub use buffer::BufferInitTracker;
pub use kind::MemoryInitKind;
pub use layer::LayerInitTracker;
