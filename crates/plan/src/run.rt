// The commands of a submission, once nothing can decline it: its clears, and then its steps.
ghost use Rattle.std.specs.Prelude.{◌≡◌, ◌+◌, ◌^◌, ◌<◌, ◌≤◌, true, [], ◌∷◌, length};
ghost use Rattle.device.specs.Commands.{fits_in};
ghost use Rattle.device.specs.Meaning.{Followed};
ghost use Rattle.rules.specs.Planning.{clears_of};
ghost use Rattle.rules.specs.Submission.{all_fit, step_fits, steps_fit};
ghost use Rattle.rules.specs.Uses.{commands_of, step_commands, sums_of, step_sums, commands_before};
ghost use Rattle.plan.specs.Notes.{noted, noted_step, filled};

use crate::Steps;
use device::{Command, Device};
use rules::{Piece, ReadSum, Report, Step};

// Has the device take a command that it can't decline.
fn command<D: Device>(device: &mut D, c: Command)
    requires left { 0 < (D.Device.meaning device.old).allowance }
    requires fits { fits_in (D.Device.meaning device.old).extent c ≡ true }
    ensures followed { Followed (D.Device.meaning device.old) (c ∷ []) (D.Device.meaning device.new) }
    ensures kept { D.Device.keeps device.old (c ∷ []) device.new }
{
    let _ = device.take(c);
}

// Clears each of these ranges.
pub(crate) fn run_clears<D: Device>(device: &mut D, pieces: &[Piece])
    requires left { length pieces.now ≤ (D.Device.meaning device.old).allowance }
    requires fits { all_fit (D.Device.meaning device.old).extent (clears_of pieces.now) ≡ true }
    ensures followed { Followed (D.Device.meaning device.old) (clears_of pieces.now) (D.Device.meaning device.new) }
    ensures kept { D.Device.keeps device.old (clears_of pieces.now) device.new }
{
    for piece in pieces {
        command(device, piece.clear());
    }
}

// Notes the sum of a read, and how many commands went before it.
fn note_sum(report: &mut Report, sum: u64, done: u64)
    requires { report.old.reads < 64 }
    ensures { report.new ≡ noted report.old sum done }
{
    // By index: of what is written through get_mut no proof learns.
    report.sums[report.reads as usize] = ReadSum {
        total: sum,
        before: done,
    };
    report.reads += 1;
}

// Runs one step after so many commands, and answers how many there are then.
fn run_step<D: Device>(device: &mut D, step: Step, done: u64, report: &mut Report) -> u64
    requires place { report.old.reads < 64 }
    requires left { length (commands_of step) ≤ (D.Device.meaning device.old).allowance }
    requires fits { step_fits (D.Device.meaning device.old).extent step ≡ true }
    requires few { done < 2 ^ 63 }
    ensures followed { Followed (D.Device.meaning device.old) (commands_of step) (D.Device.meaning device.new) }
    ensures kept { D.Device.keeps device.old (commands_of step) device.new }
    ensures done { result ≡ done + length (commands_of step) }
    ensures report { report.new ≡ noted_step report.old (sums_of (D.Device.meaning device.old).cell step) done }
{
    match step.command() {
        Some(c) => {
            command(device, c);
            done + 1
        }
        None => {
            let sum = device.total(step.buffer(), step.start(), step.count());
            note_sum(report, sum, done);
            done
        }
    }
}

// Runs the steps after so many commands; the report gets the sum of each read.
pub(crate) fn run_steps<D: Device>(device: &mut D, steps: &Steps, done: u64, report: &mut Report)
    requires few { done < 2 ^ 62 }
    requires none { report.old.reads ≡ 0 }
    requires wide { length report.old.sums ≡ 64 }
    requires left { length (step_commands steps.now) ≤ (D.Device.meaning device.old).allowance }
    requires fits { steps_fit (D.Device.meaning device.old).extent steps.now ≡ true }
    ensures followed { Followed (D.Device.meaning device.old) (step_commands steps.now) (D.Device.meaning device.new) }
    ensures kept { D.Device.keeps device.old (step_commands steps.now) device.new }
    ensures report { report.new ≡ filled report.old (step_sums (D.Device.meaning device.old).cell steps.now) (commands_before done steps.now) }
{
    let mut after = done;
    for step in steps.as_slice() {
        after = run_step(device, *step, after, report);
    }
}
