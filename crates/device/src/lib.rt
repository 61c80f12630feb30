// The device under the planner: what a command does to memory, the trait of all that takes commands,
// and two that do, a journal and bytes in memory.
// A cast by `as` goes between `usize` and another number, or to fewer bits, where there is no `From`; none loses anything.
#![tactic(auto)]

mod byte_memory;
mod command;
mod interface;
mod journal;
mod run;

pub use byte_memory::ByteMemory;
pub use command::{Command, CommandKind};
pub use fault::Unmade;
pub use interface::{Device, MOST_CELLS, SLOTS};
pub use journal::Journal;
pub use run::run_all;
