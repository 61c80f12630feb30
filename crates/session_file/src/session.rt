// A whole session: from the bytes of a file to the text of its listing.
ghost use Rattle.std.specs.Prelude.{◌≡◌, ◌≤◌, ◌++◌, length, drop, IfOk, OnOk, string_bytes};
ghost use Rattle.planner.specs.View.{view};
ghost use Rattle.session_file.specs.Session.{lines_from, listing};
ghost use Rattle.session_file.specs.Standing.{Called, MadeBy, stands};

use crate::decode::{CALL_BYTES, decode_call};
use crate::header::{Header, read_header};
use crate::journal::make_journal;
use crate::lines::{Line, write_line};
use crate::work::write_call;
use device::{Command, Journal};
use planner::Planner;
use rules::{Call, Records, Report};
use std::alloc::{AllocError, Global};

// The mark of a session's planner.
const MARK: u32 = 0;

// What was written after the first so many commands.
fn since(written: &[Command], before: usize) -> &[Command]
    requires { before ≤ length written.now }
    ensures { result.now ≡ drop before written.now }
{
    &written[before..]
}

// A planner over a journal, the memory that its calls fill, and the listing so far.
#[derive(Drop)]
struct Session {
    planner: Planner<Journal>,
    records: Records,
    listing: String,
}

impl Session {
    // One call: it is performed, and its work and its line are listed under its number.
    fn perform(&mut self, number: u64, call: Call) -> Result<(), AllocError>
        ensures { OnOk result (Called number call self.old self.new) }
    {
        let before = self.planner.device().written().len();
        let answer = self.planner.perform(call, &mut self.records);
        let commands = since(self.planner.device().written(), before);
        write_call(
            &mut self.listing,
            number,
            answer,
            commands,
            &self.records.report,
        )
    }

    // So many calls, one after the other, which these bytes begin with.
    fn run(&mut self, header: Header, calls: &[u8]) -> Result<(), AllocError>
        requires { MadeBy header self.old.planner.device }
        ensures { OnOk result (string_bytes self.new.listing ≡ string_bytes self.old.listing ++ lines_from header header.calls 0 calls.now (stands self.old)) }
    {
        let mut rest = calls;
        for before in 0..u64::from(header.calls) {
            let Some(call) = decode_call(rest) else {
                return write_line(&mut self.listing, Line::Bad);
            };
            self.perform(before + 1, call)?;
            rest = &rest[CALL_BYTES..];
        }
        Ok(())
    }
}

// The listing of a file; it fails for want of memory only.
pub fn run(heap: Global, input: &[u8]) -> Result<String, AllocError>
    ensures { IfOk result (λ text. string_bytes text ≡ listing input.now) }
{
    let mut listing = String::new(heap);
    let Some(header) = read_header(input) else {
        write_line(&mut listing, Line::Bad)?;
        return Ok(listing);
    };
    let journal = make_journal(heap, header)?;
    let planner = Planner::new(journal, MARK, header.pitch).unwrap();
    let mut session = Session {
        planner,
        records: Records {
            report: Report::new(),
        },
        listing,
    };
    session.run(header, &input[header.offset as usize..])?;
    let Session { listing, .. } = session;
    Ok(listing)
}
