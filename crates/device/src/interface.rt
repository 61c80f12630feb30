// What takes commands: a journal, a graphics device, or bytes in memory, all under one contract.
ghost use Rattle.std.specs.Prelude.{◌≡◌, ℕ, ◌≤◌, List, [], ◌∷◌, ◌++◌, if◌then◌else◌};
ghost use Rattle.device.specs.Meaning.{Meaning, Took, allowed, most_cells, total_of};
ghost use Rattle.device.specs.declared.command.Command.{Command as Step};

use crate::Command;

// How many slots the ends of this crate know.
pub const SLOTS: usize = 24;

// The most cells that a slot has.
pub const MOST_CELLS: u64 = 1 << 40;

pub trait Device {
    // The cells, extents and allowance of a device.
    ghost meaning: { Self → Meaning };

    // What a device keeps of the commands that it took between two moments; it need keep nothing.
    ghost keeps: { Self → List Step → Self → Type 0 };

    // Takes one command, or declines it and changes nothing. A bool: its answer is the rule `allowed` itself.
    fn take(&mut self, c: Command) -> bool
        ensures answer { result ≡ allowed (meaning self.old) c }
        ensures took { Took (meaning self.old) c result (meaning self.new) }
        ensures kept { keeps self.old (if result then c ∷ [] else []) self.new };

    // How many cells the slot has.
    fn extent(&self, slot: u8) -> u64
        ensures { result ≡ (meaning self.now).extent slot };

    // How many commands are still taken.
    fn allowance(&self) -> u64
        ensures { result ≡ (meaning self.now).allowance };

    // The sum of the bytes of a range, or 0, as the rules say, where the range passes the slot's extent. The range comes
    // as three numbers: a struct of them would be made for this call and taken apart in it.
    fn total(&self, slot: u8, first: u64, count: u64) -> u64
        ensures { result ≡ total_of (meaning self.now) slot first count };

    // No slot extends past 2^40 cells.
    ghost bounded: { (d : Self) (s : ℕ) → (meaning d).extent s ≤ most_cells };

    // Over no commands it keeps what it had.
    ghost none: { (d : Self) → keeps d [] d };

    // Over some commands and then others it keeps both.
    ghost more: { (d e f : Self) (cs more : List Step) → keeps d cs e → keeps e more f → keeps d (cs ++ more) f };
}
