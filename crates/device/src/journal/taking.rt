// A journal as a device: it takes a command by writing it down.
ghost use Rattle.std.specs.Prelude.{◌≡◌, slice_index};
ghost use Rattle.device.specs.Continuing.{continued_none, continued_more};
ghost use Rattle.device.specs.Extents.{extent_within};
ghost use Rattle.device.specs.Journal.{Continued, meaning_of};

use crate::journal::Journal;
use crate::journal::sweep::SlotCells;
use crate::{Command, Device, SLOTS};

// The extent of a slot, and 0 of a slot that there is not.
fn extent_at(extents: &[u64; SLOTS], slot: u8) -> u64
    ensures { result ≡ slice_index extents.now slot }
{
    extents.get(usize::from(slot)).copied().unwrap_or(0)
}

impl Device for Journal {
    ghost meaning = { meaning_of };

    ghost keeps = { Continued };

    ghost bounded = { λ d s. extent_within d.extents s d.bounded };

    ghost none = { continued_none };

    ghost more = { continued_more };

    // Writes the command down after those before it, or declines it and writes nothing.
    fn take(&mut self, c: Command) -> bool {
        if self.used == self.records.len() || !c.fits(extent_at(&self.extents, c.slot)) {
            return false;
        }
        self.records[self.used] = c;
        self.used += 1;
        true
    }

    // The extent given for the slot at making.
    fn extent(&self, slot: u8) -> u64 {
        extent_at(&self.extents, slot)
    }

    // The free records.
    fn allowance(&self) -> u64 {
        (self.records.len() - self.used) as u64
    }

    // Sums by the records, however many cells the range has.
    fn total(&self, slot: u8, first: u64, count: u64) -> u64 {
        let extent = extent_at(&self.extents, slot);
        if first > extent || count > extent - first {
            return 0;
        }
        let cells = SlotCells {
            records: self.written(),
            start: self.start,
            slot,
        };
        cells.sum(first, first + count)
    }
}
