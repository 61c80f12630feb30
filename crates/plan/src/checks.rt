// What declines a submission, before its books are drained and after.
ghost use Rattle.std.specs.Prelude.{◌≡◌, ◌^◌, ◌<◌, ◌≤◌, length, slice_index_or};
ghost use Rattle.device.specs.Commands.{fits_in};
ghost use Rattle.rules.specs.Planning.{clear_of, clears_of, cells_in};
ghost use Rattle.rules.specs.State.{no_buffer};
ghost use Rattle.rules.specs.Submission.{all_stand, all_fit, step_fits, steps_fit};
ghost use Rattle.rules.specs.Uses.{step_commands};
ghost use Rattle.plan.specs.Views.{view_buffers};

use crate::{Buffer, Steps};
use device::Device;
use fault::{CallKind, Fault, Refusal};
use rules::{Piece, Step};

// Whether there is a buffer of this number, made and not destroyed.
fn is_standing(buffers: &[Buffer; 16], number: u8) -> bool
    ensures { result ≡ (slice_index_or (view_buffers buffers.now) number no_buffer).standing }
{
    buffers
        .get(usize::from(number))
        .is_some_and(|buffer| buffer.standing)
}

// Declines for the first step whose buffer does not stand.
pub(crate) fn all_stand(buffers: &[Buffer; 16], steps: &Steps) -> Result<(), Fault>
    ensures { result ≡ all_stand (view_buffers buffers.now) 0 steps.now }
{
    for (place, step) in steps.as_slice().iter().enumerate() {
        let number = step.buffer();
        if !is_standing(buffers, number) {
            return Err(Fault::new(CallKind::Submit, Refusal::Destroyed, number, place as u8));
        }
    }
    Ok(())
}

// Whether the clear of a piece stays within its slot.
fn piece_fits<D: Device>(device: &D, p: Piece) -> bool
    ensures { result ≡ fits_in (D.Device.meaning device.now).extent (clear_of p) }
{
    p.clear().fits(device.extent(p.buffer))
}

// Whether each of these clears stays within its slot.
pub(crate) fn all_fit<D: Device>(device: &D, pieces: &[Piece]) -> bool
    ensures { result ≡ all_fit (D.Device.meaning device.now).extent (clears_of pieces.now) }
{
    pieces.iter().all(|piece| piece_fits(device, *piece))
}

// Whether a step's own range stays within its slot.
fn step_fits<D: Device>(device: &D, step: Step) -> bool
    ensures { result ≡ step_fits (D.Device.meaning device.now).extent step }
{
    let first = step.start();
    let extent = device.extent(step.buffer());
    first <= extent && step.count() <= extent - first
}

// Whether each step's own range stays within its slot.
pub(crate) fn steps_fit<D: Device>(device: &D, steps: &Steps) -> bool
    ensures { result ≡ steps_fit (D.Device.meaning device.now).extent steps.now }
{
    steps.as_slice().iter().all(|step| step_fits(device, *step))
}

// How many commands the steps themselves need: one for each but a read.
pub(crate) fn count_commands(steps: &Steps) -> u64
    ensures answer { result ≡ length (step_commands steps.now) }
    ensures few { result ≤ 64 }
{
    steps.as_slice().iter().filter(|step| !step.looks()).count() as u64
}

// How many cells these ranges hold.
pub(crate) fn sum_cells(pieces: &[Piece]) -> u64
    requires { cells_in pieces.now < 2 ^ 64 }
    ensures { result ≡ cells_in pieces.now }
{
    pieces.iter().map(|piece| piece.count()).sum()
}
