// One write to a range of one slot's cells: the only thing that a planner asks of a device.
ghost use Rattle.std.specs.Prelude.{◌≡◌};
ghost use Rattle.device.specs.Commands.{byte_of, covers, fits_in};

// Why the cells are written; only a fill has a byte of its own.
#[derive(Clone, Copy, Debug, Default, PartialEq, Eq)]
pub enum CommandKind {
    #[default]
    Clear,
    Copy,
    Pass,
    Fill(u8),
}

// The cells of a slot from first on, count of them, and why they are written.
#[derive(Clone, Copy, Debug, Default, PartialEq, Eq)]
pub struct Command {
    pub kind: CommandKind,
    pub slot: u8,
    pub first: u64,
    pub count: u64,
}

impl CommandKind {
    // The byte that a command of this kind leaves in its cells.
    pub fn byte(self) -> u8
        ensures { result ≡ byte_of self }
    {
        match self {
            CommandKind::Clear | CommandKind::Copy | CommandKind::Pass => 0,
            CommandKind::Fill(byte) => byte,
        }
    }
}

impl Command {
    // Whether the command covers a cell of a slot.
    pub fn covers(self, slot: u8, cell: u64) -> bool
        ensures { result ≡ covers self slot cell }
    {
        self.slot == slot && self.first <= cell && cell - self.first < self.count
    }

    // Whether the command stays within a slot of this extent. The test is one line, here, in both totals and over a step: a
    // function of three bare numbers would say no more.
    pub fn fits(self, extent: u64) -> bool
        ensures { result ≡ fits_in (λ _. extent) self }
    {
        self.count == 0 || (self.first <= extent && self.count <= extent - self.first)
    }
}
