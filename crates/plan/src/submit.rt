// One submission: nothing is commanded before everything that could decline it is tried.
ghost use Rattle.std.specs.Prelude.{◌≡◌, ◌&&◌, [], if◌then◌else◌, Ok, Err, nat_le};
ghost use Rattle.device.specs.Meaning.{Followed};
ghost use Rattle.fault.specs.Parts.{fault_of};
ghost use Rattle.fault.specs.declared.call_kind.CallKind.TheVariants.{Submit as Submitting};
ghost use Rattle.fault.specs.declared.refusal.Refusal.TheVariants.{AllowanceShort, BadDescription};
ghost use Rattle.rules.specs.Planning.{clears_of, drain_steps};
ghost use Rattle.rules.specs.Submission.{all_commands, all_fit, reported, steps_fit, steps_verdict};
ghost use Rattle.rules.specs.Verdicts.{accepts, and_then};
ghost use Rattle.plan.specs.Views.{view_buffers};

use crate::{
    Buffer, Pieces, Steps, all_fit, all_stand, count_commands, plan_steps, run_clears, run_steps,
    steps_fit, sum_cells,
};
use device::Device;
use fault::{CallKind, Fault, Refusal};
use rules::{Piece, Report};

// Declines for want of allowance, or where a slot is too small.
fn check_device<D: Device>(
    device: &D,
    clears: &[Piece],
    steps: &Steps,
    needed: u64,
) -> Result<(), Fault>
    ensures { result ≡ and_then (if nat_le needed (D.Device.meaning device.now).allowance then Ok tt else Err (fault_of Submitting AllowanceShort 255 64)) (if all_fit (D.Device.meaning device.now).extent (clears_of clears.now) && steps_fit (D.Device.meaning device.now).extent steps.now then Ok tt else Err (fault_of Submitting BadDescription 255 64)) }
{
    if device.allowance() < needed {
        return Err(Fault::of_call(CallKind::Submit, Refusal::AllowanceShort));
    }
    if !(all_fit(device, clears) && steps_fit(device, steps)) {
        return Err(Fault::of_call(CallKind::Submit, Refusal::BadDescription));
    }
    Ok(())
}

// Submits the steps of a list: all of its work, or none of it.
pub fn submit_steps<D: Device>(
    device: &mut D,
    buffers: &mut [Buffer; 16],
    steps: &Steps,
    report: &mut Report,
) -> Result<(), Fault>
    ensures answer { result ≡ steps_verdict (D.Device.meaning device.old) (view_buffers buffers.old) steps.now }
    ensures after { view_buffers buffers.new ≡ (if accepts result then drain_steps (view_buffers buffers.old) steps.now else view_buffers buffers.old) }
    ensures device { Followed (D.Device.meaning device.old) (if accepts result then all_commands (view_buffers buffers.old) steps.now else []) (D.Device.meaning device.new) }
    ensures kept { D.Device.keeps device.old (if accepts result then all_commands (view_buffers buffers.old) steps.now else []) device.new }
    ensures report { report.new ≡ (if accepts result then reported (D.Device.meaning device.old) (view_buffers buffers.old) steps.now report.old else report.old) }
{
    all_stand(buffers, steps)?;
    let mut drained = *buffers;
    let mut pieces = Pieces::new();
    plan_steps(&mut drained, steps, &mut pieces)?;
    let clears = pieces.joined();
    let ahead = clears.len() as u64;
    let needed = ahead + count_commands(steps);
    check_device(device, clears, steps, needed)?;
    report.begin(sum_cells(clears), needed);
    run_clears(device, clears);
    run_steps(device, steps, ahead, report);
    *buffers = drained;
    Ok(())
}
