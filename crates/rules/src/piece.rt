// A range of one buffer's cells that a read took out of its book, and that has to be cleared.
ghost use Rattle.std.specs.Prelude.{◌≡◌, ◌-◌};
ghost use Rattle.rules.specs.Planning.{precedes, touches, clear_of};

use device::{Command, CommandKind};

#[derive(Clone, Copy, Debug, Default, PartialEq, Eq)]
pub struct Piece {
    pub buffer: u8,
    pub start: u64,
    pub end: u64,
}

impl Piece {
    // How many cells it holds.
    pub fn count(self) -> u64
        ensures { result ≡ self.end - self.start }
    {
        self.end.saturating_sub(self.start)
    }

    // Whether it stands before another, by buffer and address. Not as tuples: the search for a piece's place asks this of
    // every piece before it, and took nearly twice as long.
    pub fn precedes(self, other: Piece) -> bool
        ensures { result ≡ precedes self other }
    {
        self.buffer < other.buffer || (self.buffer == other.buffer && self.start < other.start)
    }

    // Whether another of the same buffer begins where it ends.
    pub fn touches(self, other: Piece) -> bool
        ensures { result ≡ touches self other }
    {
        self.buffer == other.buffer && self.end == other.start
    }

    // The command that clears it.
    pub fn clear(self) -> Command
        ensures { result ≡ clear_of self }
    {
        Command {
            kind: CommandKind::Clear,
            slot: self.buffer,
            first: self.start,
            count: self.count(),
        }
    }
}
