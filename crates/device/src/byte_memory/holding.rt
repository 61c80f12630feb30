// How a memory is made, commanded, and taken apart.
ghost use Rattle.std.specs.Prelude.{◌≡◌, is_ok, MatchResult};
ghost use Rattle.fault.specs.Unmade.{Returned};
ghost use Rattle.device.specs.ByteMemory.{Laid, memory_meaning};
ghost use Rattle.device.specs.Rows.{laid_out, lengths};
ghost use Rattle.device.specs.Extents.{extent_within};

use crate::byte_memory::ByteMemory;
use crate::byte_memory::rows::{laid_out, length_at, paint, sum_at};
use crate::{Command, Device};
use fault::{Refusal, Unmade};

impl ByteMemory {
    // A memory of these rows, or the rows back where they are too many or too long.
    pub fn new(rows: Vec<Vec<u8>>, allowance: u64) -> Result<ByteMemory, Unmade<Vec<Vec<u8>>>>
        ensures answer { is_ok result ≡ laid_out rows.items }
        ensures made { MatchResult result (Laid rows allowance) (Returned rows) }
    {
        if !laid_out(&rows) {
            return Err(Unmade {
                refusal: Refusal::BadDescription,
                given: rows,
            });
        }
        Ok(ByteMemory {
            rows,
            left: allowance,
        })
    }

    // Gives the rows back.
    pub fn into_rows(self) -> Vec<Vec<u8>>
        ensures { result ≡ self.rows }
    {
        self.rows
    }
}

impl Device for ByteMemory {
    ghost meaning = { memory_meaning };

    ghost keeps = { λ _ _ _. Unit {0} };

    ghost bounded = { λ d s. extent_within (lengths d.rows.items) s d.bounded };

    ghost none = { λ d. tt };

    ghost more = { λ d e f cs more p q. tt };

    // Writes the command into its row, or declines it and writes nothing.
    fn take(&mut self, c: Command) -> bool {
        if self.left == 0 || !c.fits(length_at(&self.rows, c.slot)) {
            return false;
        }
        paint(&mut self.rows, c);
        self.left -= 1;
        true
    }

    // The length of the slot's row.
    fn extent(&self, slot: u8) -> u64 {
        length_at(&self.rows, slot)
    }

    // What is left of the allowance given at making.
    fn allowance(&self) -> u64 {
        self.left
    }

    // Sums cell by cell.
    fn total(&self, slot: u8, first: u64, count: u64) -> u64 {
        let extent = length_at(&self.rows, slot);
        if first > extent || count > extent - first {
            return 0;
        }
        sum_at(&self.rows, slot, first, count)
    }
}
