// How a planner is made, and how its buffers are made and destroyed.
ghost use Rattle.std.specs.Prelude.{◌≡◌, ◌<◌, ◌≤◌, is_ok, MatchResult};
ghost use Rattle.fault.specs.Unmade.{Returned};
ghost use Rattle.rules.specs.Making.{make_answer, make_after, destroy_answer, destroy_after};
ghost use Rattle.rules.specs.State.{no_buffer, buffer_at, rounded_up};
ghost use Rattle.plan.specs.Views.{view_buffer};
ghost use Rattle.planner.specs.View.{view};
ghost use Rattle.planner.specs.Made.{pitched, Fresh};

use crate::list::CommandList;
use crate::planner::{BUFFERS, LISTS, MOST_PITCH, Planner};
use device::Device;
use fault::{CallKind, Fault, NO_PLACE, Refusal, Unmade};
use init_tracker::BufferInitTracker;
use plan::{Buffer, MOST_BYTES};
use std::array;

// A number that was never given out.
fn no_buffer() -> Buffer
    ensures { view_buffer result ≡ no_buffer }
{
    Buffer {
        book: BufferInitTracker::new(0),
        size: 0,
        copy: false,
        standing: false,
    }
}

// How many cells a buffer of so many bytes has.
fn cells_of(size: u64) -> u64
    requires { size ≤ 268435456 }
    ensures { result ≡ rounded_up size }
{
    size.next_multiple_of(4)
}

impl<D: Device> Planner<D> {
    // A planner over a device, with nothing made; a pitch that is not 1 to 256 gives the device back.
    pub fn new(device: D, mark: u32, pitch: u32) -> Result<Planner<D>, Unmade<D>>
        ensures answer { is_ok result ≡ pitched pitch }
        ensures made { MatchResult result (Fresh device mark pitch) (Returned device) }
    {
        if !(1..=MOST_PITCH).contains(&pitch) {
            return Err(Unmade {
                refusal: Refusal::BadDescription,
                given: device,
            });
        }
        Ok(Planner {
            device,
            buffers: [no_buffer(); BUFFERS],
            made: 0,
            lists: array::from_fn(|_| CommandList::new()),
            mark,
            pitch,
        })
    }

    // The device, to look at.
    pub fn device(&self) -> &D
        ensures { result.now ≡ self.now.device }
    {
        &self.device
    }

    // Gives the device back, and forgets what was planned.
    pub fn into_device(self) -> D
        ensures { result ≡ self.device }
    {
        let Planner { device, .. } = self;
        device
    }

    // The buffer of a number, or of none.
    pub(crate) fn buffer(&self, number: u8) -> Buffer
        ensures { view_buffer result ≡ buffer_at (view self.now) number }
    {
        self.buffers
            .get(usize::from(number))
            .copied()
            .unwrap_or_else(no_buffer)
    }

    // A new buffer, of which every cell owes: its number, or why there is none. The flag comes as a number: the rules
    // decline one that is neither 0 nor 1.
    pub fn make_buffer(&mut self, size: u64, copy: u8) -> Result<u8, Fault>
        ensures answer { result ≡ make_answer (view self.old) (D.Device.meaning self.old.device).extent size copy }
        ensures after { view self.new ≡ make_after (view self.old) (D.Device.meaning self.old.device).extent size copy }
        ensures device { self.new.device ≡ self.old.device }
    {
        let n = self.made;
        if n >= BUFFERS {
            return Err(Fault::of_call(CallKind::MakeBuffer, Refusal::NoNumberFree));
        }
        if size > MOST_BYTES || copy > 1 {
            return Err(Fault::of_call(CallKind::MakeBuffer, Refusal::BadDescription));
        }
        let cells = cells_of(size);
        if self.device.extent(n as u8) < cells {
            return Err(Fault::of_call(CallKind::MakeBuffer, Refusal::BadDescription));
        }
        // By index: of what is written through get_mut no proof learns.
        self.buffers[n] = Buffer {
            book: BufferInitTracker::new(cells),
            size,
            copy: copy == 1,
            standing: true,
        };
        self.made = n + 1;
        Ok(n as u8)
    }

    // The end of a buffer: its size and its flag stay known.
    pub fn destroy(&mut self, resource: u8) -> Result<(), Fault>
        ensures answer { result ≡ destroy_answer (view self.old) resource }
        ensures after { view self.new ≡ destroy_after (view self.old) resource }
        ensures device { self.new.device ≡ self.old.device }
    {
        let n = usize::from(resource);
        if n >= self.made {
            return Err(Fault::of_call(CallKind::Destroy, Refusal::Unknown));
        }
        if !self.buffers[n].standing {
            return Err(Fault::new(CallKind::Destroy, Refusal::Destroyed, resource, NO_PLACE));
        }
        let Planner { buffers, .. } = self;
        buffers[n].standing = false;
        Ok(())
    }
}
