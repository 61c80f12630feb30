// Submission of a closed list.
ghost use Rattle.std.specs.Prelude.{◌≡◌, ◌<◌, true, is_ok};
ghost use Rattle.fault.specs.declared.call_kind.CallKind.TheVariants.{Submit as Submitting};
ghost use Rattle.device.specs.Meaning.{Followed};
ghost use Rattle.rules.specs.Lists.{list_verdict};
ghost use Rattle.rules.specs.Verdicts.{told};
ghost use Rattle.rules.specs.declared.list_state.ListCall.TheVariants.{Submit};
ghost use Rattle.rules.specs.Submission.{submit_answer, submit_after, submit_commands, submit_report};
ghost use Rattle.planner.specs.View.{view};

use crate::list::CommandList;
use crate::planner::Planner;
use device::Device;
use fault::{CallKind, Fault, Refusal};
use plan::submit_steps;
use rules::Report;

impl<D: Device> Planner<D> {
    // Declines a list that there is not, or that is not closed.
    fn check_list(&self, list: u8) -> Result<(), Fault>
        ensures answer { result ≡ told Submitting 255 64 (list_verdict (view self.now) Submit list) }
        ensures known { is_ok result ≡ true → list < 4 }
    {
        self.lists
            .get(usize::from(list))
            .ok_or(Refusal::Unknown)
            .and_then(|list| list.submittable())
            .map_err(|refusal| Fault::of_call(CallKind::Submit, refusal))
    }

    // Submits a closed list: all of its work and a report of it, or nothing at all.
    pub fn submit(&mut self, list: u8, report: &mut Report) -> Result<(), Fault>
        ensures answer { result ≡ submit_answer (view self.old) (D.Device.meaning self.old.device) list }
        ensures after { view self.new ≡ submit_after (view self.old) (D.Device.meaning self.old.device) list }
        ensures device { Followed (D.Device.meaning self.old.device) (submit_commands (view self.old) (D.Device.meaning self.old.device) list) (D.Device.meaning self.new.device) }
        ensures kept { D.Device.keeps self.old.device (submit_commands (view self.old) (D.Device.meaning self.old.device) list) self.new.device }
        ensures report { report.new ≡ submit_report (view self.old) (D.Device.meaning self.old.device) list report.old }
    {
        self.check_list(list)?;
        let l = usize::from(list);
        let Planner {
            device,
            buffers,
            lists,
            ..
        } = self;
        submit_steps(device, buffers, lists[l].recorded(), report)?;
        lists[l] = CommandList::new();
        Ok(())
    }
}
