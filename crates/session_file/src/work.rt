// The work of a submission in the order in which it happened: its commands, and each sum where its read stood.
ghost use Rattle.std.specs.Prelude.{◌≡◌, ◌-◌, ◌++◌, take, drop, OnOk, string_bytes};
ghost use Rattle.session_file.specs.Lines.{command_lines};
ghost use Rattle.session_file.specs.Session.{call_lines};
ghost use Rattle.session_file.specs.Work.{work_lines};

use crate::lines::{Line, write_line};
use device::Command;
use rules::{Accepted, Answer, Report};
use std::alloc::AllocError;

// A line for each command.
fn write_commands(out: &mut String, commands: &[Command]) -> Result<(), AllocError>
    ensures { OnOk result (string_bytes out.new ≡ string_bytes out.old ++ command_lines commands.now) }
{
    for command in commands {
        write_line(out, Line::Taken(*command))?;
    }
    Ok(())
}

// A line for each command from one number up to another, as far as there are any.
fn write_part(out: &mut String, commands: &[Command], from: u64, to: u64) -> Result<(), AllocError>
    ensures { OnOk result (string_bytes out.new ≡ string_bytes out.old ++ command_lines (take (to - from) (drop from commands.now))) }
{
    let end = to.min(commands.len() as u64);
    if from >= end {
        return Ok(());
    }
    write_commands(out, &commands[from as usize..end as usize])
}

// What an accepted submission did, by its commands and its report.
pub(crate) fn write_work(
    out: &mut String,
    commands: &[Command],
    report: &Report,
) -> Result<(), AllocError>
    ensures { OnOk result (string_bytes out.new ≡ string_bytes out.old ++ work_lines commands.now report.now) }
{
    let mut at = 0;
    for read in report.sums.iter().take(report.reads as usize) {
        write_part(out, commands, at, read.before)?;
        write_line(out, Line::Sum(read.total))?;
        at = read.before;
    }
    write_part(out, commands, at, commands.len() as u64)
}

// All that a call lists: its work, where it is an accepted submission, and its own line.
pub(crate) fn write_call(
    out: &mut String,
    number: u64,
    answer: Answer,
    commands: &[Command],
    report: &Report,
) -> Result<(), AllocError>
    ensures { OnOk result (string_bytes out.new ≡ string_bytes out.old ++ call_lines number answer commands.now report.now) }
{
    if let Ok(Accepted::Submitted) = answer {
        write_work(out, commands, report)?;
    }
    write_line(out, Line::of_call(number, report.cleared, answer))
}
