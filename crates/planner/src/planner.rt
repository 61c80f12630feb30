// The planner owns its device, so that nothing else changes it.
ghost use Rattle.std.specs.Prelude.{◌≡◌, ◌≤◌, length};

use crate::list::CommandList;
use device::Device;
use plan::Buffer;

mod listing;
mod making;
mod performing;
mod stepping;
mod submitting;

// How many buffers there are numbers for.
pub const BUFFERS: usize = 16;

// The largest pitch.
const MOST_PITCH: u32 = 256;

// How many lists there are.
pub const LISTS: usize = 4;

// Each call that commands nothing says by a clause of its own that the device stays: no fact of the type could say it.
#[derive(Drop)]
pub struct Planner<D: Device> {
    device: D,
    // By number; `made` numbers are given out, and none comes back.
    // An array and a count: the rules speak of all sixteen places, made or not.
    buffers: [Buffer; 16],
    made: usize,
    lists: [CommandList; 4],
    mark: u32,
    pitch: u32,
    ghost slots: { length buffers ≡ 16 },
    ghost few: { made ≤ 16 },
    ghost four: { length lists ≡ 4 },
}
