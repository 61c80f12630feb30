// One call of any kind, accepted or declined.
ghost use Rattle.std.specs.Prelude.{◌≡◌};
ghost use Rattle.device.specs.Meaning.{Followed};
ghost use Rattle.rules.specs.Calls.{outcome};
ghost use Rattle.planner.specs.View.{view};

use crate::planner::Planner;
use device::Device;
use fault::{CallKind, Fault, Refusal};
use rules::{Accepted, Answer, Call, Records};

impl<D: Device> Planner<D> {
    // Performs a call; the records get the report of an accepted submission, and stay as they are otherwise.
    pub fn perform(&mut self, call: Call, records: &mut Records) -> Answer
        ensures answer { result ≡ (outcome (view self.old) (D.Device.meaning self.old.device) records.old.report call).answer }
        ensures state { view self.new ≡ (outcome (view self.old) (D.Device.meaning self.old.device) records.old.report call).state }
        ensures device { Followed (D.Device.meaning self.old.device) (outcome (view self.old) (D.Device.meaning self.old.device) records.old.report call).commands (D.Device.meaning self.new.device) }
        ensures kept { D.Device.keeps self.old.device (outcome (view self.old) (D.Device.meaning self.old.device) records.old.report call).commands self.new.device }
        ensures report { records.new.report ≡ (outcome (view self.old) (D.Device.meaning self.old.device) records.old.report call).report }
    {
        match call {
            Call::MakeBuffer { size, copy } => Ok(Accepted::Made(self.make_buffer(size, copy)?)),
            Call::Destroy { resource } => self.destroy(resource).map(|()| Accepted::Done),
            Call::Open { list } => self.open(list).map(|()| Accepted::Done),
            Call::Close { list } => self.close(list).map(|()| Accepted::Done),
            Call::Abandon { list } => self.abandon(list).map(|()| Accepted::Done),
            Call::BufferRead {
                list,
                resource,
                start,
                end,
            } => {
                self.buffer_read(list, resource, start, end)
                    .map(|()| Accepted::Done)
            }
            Call::BufferWrite {
                list,
                resource,
                byte,
                start,
                end,
            } => {
                self.buffer_write(list, resource, byte, start, end)
                    .map(|()| Accepted::Done)
            }
            Call::ClearBuffer {
                list,
                resource,
                offset,
                size,
            } => {
                self.clear_buffer(list, resource, offset, size)
                    .map(|()| Accepted::Done)
            }
            Call::Submit { list } => self
                .submit(list, &mut records.report)
                .map(|()| Accepted::Submitted),
            Call::Unknown => Err(Fault::of_call(CallKind::Other, Refusal::Unknown)),
        }
    }
}
