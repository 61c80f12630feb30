// A journal of commands, in records given at making: what memory would hold, kept as the writes that lead there.
ghost use Rattle.std.specs.Prelude.{◌≡◌, ◌≤◌, true, vec_len};
ghost use Rattle.device.specs.Meaning.{all_within};

use crate::{Command, SLOTS};

mod making;
mod sweep;
mod taking;

// The records before `used` are written, in memory that is given at making, so that no command needs any; every cell begins at `start`; a slot has the cells that `extents` gives it.
#[derive(Drop)]
pub struct Journal {
    records: Vec<Command>,
    used: usize,
    start: u8,
    extents: [u64; SLOTS],
    ghost room: { used ≤ vec_len records },
    ghost bounded: { all_within extents ≡ true },
}
