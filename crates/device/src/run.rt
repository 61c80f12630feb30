// Commands one after another, on any device.
ghost use Rattle.std.specs.Prelude.{◌≡◌, ◌<◌, ◌≤◌, false, length, take, slice_index_or};
ghost use Rattle.device.specs.Meaning.{Followed, allowed};
ghost use Rattle.device.specs.declared.command.Command.{Command as Step};

use crate::{Command, Device};

// Takes commands in order up to the first that is declined, and answers how many were taken.
pub fn run_all<D: Device>(device: &mut D, commands: &[Command]) -> usize
    ensures within { result ≤ length commands.now }
    ensures followed { Followed (D.Device.meaning device.old) (take result commands.now) (D.Device.meaning device.new) }
    ensures stopped { (d : Step) → result < length commands.now → allowed (D.Device.meaning device.new) (slice_index_or commands.now result d) ≡ false }
{
    for (taken, command) in commands.iter().enumerate() {
        if !device.take(*command) {
            return taken;
        }
    }
    commands.len()
}
