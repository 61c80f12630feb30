// How a journal is made, read, and taken apart.
ghost use Rattle.std.specs.Prelude.{◌≡◌, is_ok, MatchResult};
ghost use Rattle.device.specs.Meaning.{all_within};
ghost use Rattle.fault.specs.Unmade.{Returned};
ghost use Rattle.device.specs.Journal.{Fresh, written};

use crate::journal::Journal;
use crate::{Command, MOST_CELLS, SLOTS};
use fault::{Refusal, Unmade};

// Whether every extent is one that a slot may have.
fn within(extents: &[u64]) -> bool
    ensures { result ≡ all_within extents.now }
{
    extents.iter().all(|&extent| extent <= MOST_CELLS)
}

impl Journal {
    // A journal with nothing written, or the records back where an extent passes the most cells.
    pub fn new(
        records: Vec<Command>,
        start: u8,
        extents: [u64; SLOTS],
    ) -> Result<Journal, Unmade<Vec<Command>>>
        ensures answer { is_ok result ≡ all_within extents }
        ensures made { MatchResult result (Fresh records start extents) (Returned records) }
    {
        if !within(&extents) {
            return Err(Unmade {
                refusal: Refusal::BadDescription,
                given: records,
            });
        }
        Ok(Journal {
            records,
            used: 0,
            start,
            extents,
        })
    }

    // The commands taken so far, in order.
    pub fn written(&self) -> &[Command]
        ensures { result.now ≡ written self.now }
    {
        &self.records[0..self.used]
    }

    // Gives the records' memory back.
    pub fn into_records(self) -> Vec<Command>
        ensures { result ≡ self.records }
    {
        self.records
    }
}
