// The device of a session: a journal as its header asks.
ghost use Rattle.std.specs.Prelude.{◌≡◌, [], IfOk};
ghost use Rattle.device.specs.Journal.{written};
ghost use Rattle.session_file.specs.Standing.{MadeBy};

use crate::header::Header;
use device::{Command, Journal, MOST_CELLS, SLOTS};
use std::alloc::{AllocError, Global};

// A journal with nothing written, room for the allowance, and every cell at the starting byte.
pub(crate) fn make_journal(heap: Global, header: Header) -> Result<Journal, AllocError>
    ensures { IfOk result (λ j. MadeBy header j × (written j ≡ [])) }
{
    let records = vec![in heap; Command::default(); header.allowance as usize]?;
    Ok(Journal::new(records, header.start, [MOST_CELLS; SLOTS]).unwrap())
}
