// The lines of a listing.
ghost use Rattle.std.specs.Prelude.{◌≡◌, ◌++◌, Some, OnOk, string_bytes};
ghost use Rattle.std.specs.Fmt.{WritesOnOk};
ghost use Rattle.session_file.specs.Lines.{answer_line, command_line, line_bytes};

use device::{Command, CommandKind};
use fault::Refusal;
use rules::{Accepted, Answer};
use std::alloc::AllocError;
use std::fmt;

// One line, which is displayed with its end.
#[derive(Clone, Copy, Debug, PartialEq, Eq)]
pub(crate) enum Line {
    // A command that the device took.
    Taken(Command),
    // The sum of a read.
    Sum(u64),
    // A call of this number that was accepted, and its value.
    Accepted { call: u64, value: u64 },
    // A call of this number that was declined, and why.
    Declined { call: u64, cause: Refusal },
    // A file that is not as it must be. Its line is always the same: a bad description, with no call ahead of it.
    Bad,
}

impl fmt::Display for Line {
    ghost output = { λ line. Some (line_bytes line) };

    fn fmt<W: fmt::Write>(&self, f: &mut fmt::Formatter<W>) -> fmt::Result {
        match *self {
            Line::Taken(command) => write_command(f, command),
            Line::Sum(sum) => writeln!(f, "sum {sum}"),
            Line::Accepted { call, value } => writeln!(f, "{call} ok {value}"),
            Line::Declined { call, cause } => {
                let number = u8::from(cause);
                writeln!(f, "{call} no {number}")
            }
            Line::Bad => writeln!(f, "no 20"),
        }
    }
}

// A command's line; a fill says its byte too.
fn write_command<W: fmt::Write>(f: &mut fmt::Formatter<W>, command: Command) -> fmt::Result
    ensures { WritesOnOk W.write_str_gives f.old result (command_line command) f.new }
{
    let Command {
        kind,
        slot,
        first,
        count,
    } = command;
    match kind {
        CommandKind::Clear => writeln!(f, "clear {slot} {first} {count}"),
        CommandKind::Copy => writeln!(f, "copy {slot} {first} {count}"),
        CommandKind::Pass => writeln!(f, "pass {slot} {first} {count}"),
        CommandKind::Fill(byte) => writeln!(f, "fill {slot} {first} {count} {byte}"),
    }
}

impl Line {
    // The own line of a call of this number, by its answer; a submission's value is how many cells were cleared.
    pub(crate) fn of_call(call: u64, cleared: u64, answer: Answer) -> Line
        ensures { line_bytes result ≡ answer_line call cleared answer }
    {
        let value = match answer {
            Ok(Accepted::Made(number)) => u64::from(number),
            Ok(Accepted::Done) => 0,
            Ok(Accepted::Submitted) => cleared,
            Err(fault) => {
                return Line::Declined {
                    call,
                    cause: fault.refusal,
                };
            }
        };
        Line::Accepted { call, value }
    }
}

// Writes a line at the end of what is there.
pub(crate) fn write_line(out: &mut String, line: Line) -> Result<(), AllocError>
    ensures { OnOk result (string_bytes out.new ≡ string_bytes out.old ++ line_bytes line) }
{
    write!(out, "{line}")
}
