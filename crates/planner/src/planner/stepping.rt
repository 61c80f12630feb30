// Recording: uses of buffers join a list, each kept whole.
ghost use Rattle.std.specs.Prelude.{◌≡◌, ◌+◌, ◌≤◌, false, length, IfOk};
ghost use Rattle.fault.specs.declared.call_kind.CallKind.TheVariants as kind;
ghost use Rattle.rules.specs.State.{buffer_at, list_at, put_list};
ghost use Rattle.rules.specs.Steps.{read_causes, write_causes, clear_causes, clear_size, no_place, step_answer, step_after};
ghost use Rattle.rules.specs.Uses.{start_of, end_of};
ghost use Rattle.rules.specs.Verdicts.{told, known_buffer};
ghost use Rattle.rules.specs.declared.step.Step.TheVariants as recorded;
ghost use Rattle.planner.specs.Listed.{verdict_of, verdict_on, list_with};
ghost use Rattle.planner.specs.View.{view};

use crate::planner::{LISTS, Planner};
use crate::uses::{check_clear, check_read, check_write};
use device::Device;
use fault::{CallKind, Fault, Refusal};
use rules::Step;

impl<D: Device> Planner<D> {
    // Declines a number that was never given out.
    fn check_buffer(&self, number: u8) -> Result<(), Refusal>
        ensures { result ≡ known_buffer (view self.now) number }
    {
        if usize::from(number) < self.made {
            Ok(())
        } else {
            Err(Refusal::Unknown)
        }
    }

    // Puts a step to its list, or what its own causes decline it for.
    fn record(
        &mut self,
        call: CallKind,
        list: u8,
        resource: u8,
        step: Result<Step, Refusal>,
    ) -> Result<(), Fault>
        requires room { IfOk step (λ s. no_place (length (list_at (view self.old) list).steps) (start_of s) (end_of s) ≡ false) }
        requires small { IfOk step (λ s. end_of s ≤ 268435456) }
        ensures answer { result ≡ told call resource (length (list_at (view self.old) list).steps) (verdict_on (view self.old) list resource (verdict_of step)) }
        ensures after { view self.new ≡ put_list (view self.old) list (list_with (list_at (view self.old) list) (verdict_on (view self.old) list resource (verdict_of step)) step) }
        ensures device { self.new.device ≡ self.old.device }
    {
        let l = usize::from(list);
        if l >= LISTS {
            return Err(Fault::of_call(call, Refusal::Unknown));
        }
        let place = self.held(list);
        let known = self.check_buffer(resource);
        // By index: of what is written through get_mut no proof learns.
        self.lists[l]
            .record(known, step)
            .map_err(|refusal| Fault::new(call, refusal, resource, place as u8))
    }

    // A read of a buffer's bytes from start up to end. This call and the next two take their arguments as they come: a
    // struct of them would be a `Call` again.
    pub fn buffer_read(&mut self, list: u8, resource: u8, start: u64, end: u64) -> Result<(), Fault>
        ensures answer { result ≡ step_answer kind.BufferRead (view self.old) list resource (read_causes start end) }
        ensures after { view self.new ≡ step_after (view self.old) list resource (read_causes start end) start end (recorded.BufferRead resource start end) }
        ensures device { self.new.device ≡ self.old.device }
    {
        let buffer = self.buffer(resource);
        let step = check_read(&buffer, start, end, self.held(list)).map(|()| Step::BufferRead {
            buffer: resource,
            start,
            end,
        });
        self.record(CallKind::BufferRead, list, resource, step)
    }

    // A write of one byte to all of a buffer's bytes from start up to end.
    pub fn buffer_write(
        &mut self,
        list: u8,
        resource: u8,
        byte: u8,
        start: u64,
        end: u64,
    ) -> Result<(), Fault>
        ensures answer { result ≡ step_answer kind.BufferWrite (view self.old) list resource (write_causes start end) }
        ensures after { view self.new ≡ step_after (view self.old) list resource (write_causes start end) start end (recorded.BufferWrite resource byte start end) }
        ensures device { self.new.device ≡ self.old.device }
    {
        let buffer = self.buffer(resource);
        let step = check_write(&buffer, start, end, self.held(list)).map(|()| Step::BufferWrite {
            buffer: resource,
            byte,
            start,
            end,
        });
        self.record(CallKind::BufferWrite, list, resource, step)
    }

    // A clear of a buffer from offset on; a missing size is what is left of it.
    pub fn clear_buffer(
        &mut self,
        list: u8,
        resource: u8,
        offset: u64,
        size: Option<u64>,
    ) -> Result<(), Fault>
        ensures answer { result ≡ step_answer kind.ClearBuffer (view self.old) list resource (clear_causes offset size) }
        ensures after { view self.new ≡ step_after (view self.old) list resource (clear_causes offset size) offset (offset + clear_size size offset (buffer_at (view self.old) resource).size) (recorded.ClearBuffer resource offset (offset + clear_size size offset (buffer_at (view self.old) resource).size)) }
        ensures device { self.new.device ≡ self.old.device }
    {
        let buffer = self.buffer(resource);
        let step = check_clear(&buffer, offset, size, self.held(list)).map(
            |end| Step::ClearBuffer {
                buffer: resource,
                start: offset,
                end,
            },
        );
        self.record(CallKind::ClearBuffer, list, resource, step)
    }
}
