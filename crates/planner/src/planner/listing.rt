// The calls that a list's state decides alone.
ghost use Rattle.std.specs.Prelude.{◌≡◌, ◌≤◌, length};
ghost use Rattle.fault.specs.declared.call_kind.CallKind.TheVariants as kind;
ghost use Rattle.rules.specs.Lists.{list_answer, list_after};
ghost use Rattle.rules.specs.State.{list_at};
ghost use Rattle.rules.specs.declared.list_state.ListCall.TheVariants as asked;
ghost use Rattle.planner.specs.View.{view};

use crate::planner::{LISTS, Planner};
use device::Device;
use fault::{CallKind, Fault, Refusal};
use rules::ListCall;

impl<D: Device> Planner<D> {
    // How many steps a list has; a list that there is not has none.
    pub(crate) fn held(&self, list: u8) -> usize
        ensures answer { result ≡ length (list_at (view self.now) list).steps }
        ensures few { result ≤ 64 }
    {
        self.lists
            .get(usize::from(list))
            .map_or(0, |list| list.count())
    }

    // Puts the call to the list, if there is one of this number.
    fn call_list(&mut self, kind: CallKind, c: ListCall, list: u8) -> Result<(), Fault>
        ensures answer { result ≡ list_answer kind (view self.old) c list }
        ensures after { view self.new ≡ list_after (view self.old) c list }
        ensures device { self.new.device ≡ self.old.device }
    {
        let l = usize::from(list);
        if l >= LISTS {
            return Err(Fault::of_call(kind, Refusal::Unknown));
        }
        // By index: of what is written through get_mut no proof learns.
        self.lists[l]
            .call(c)
            .map_err(|refusal| Fault::of_call(kind, refusal))
    }

    // Makes an idle list recording.
    pub fn open(&mut self, list: u8) -> Result<(), Fault>
        ensures answer { result ≡ list_answer kind.Open (view self.old) asked.Open list }
        ensures after { view self.new ≡ list_after (view self.old) asked.Open list }
        ensures device { self.new.device ≡ self.old.device }
    {
        self.call_list(CallKind::Open, ListCall::Open, list)
    }

    // Makes a recording list closed.
    pub fn close(&mut self, list: u8) -> Result<(), Fault>
        ensures answer { result ≡ list_answer kind.Close (view self.old) asked.Close list }
        ensures after { view self.new ≡ list_after (view self.old) asked.Close list }
        ensures device { self.new.device ≡ self.old.device }
    {
        self.call_list(CallKind::Close, ListCall::Close, list)
    }

    // Makes any list that is not in debt idle.
    pub fn abandon(&mut self, list: u8) -> Result<(), Fault>
        ensures answer { result ≡ list_answer kind.Abandon (view self.old) asked.Abandon list }
        ensures after { view self.new ≡ list_after (view self.old) asked.Abandon list }
        ensures device { self.new.device ≡ self.old.device }
    {
        self.call_list(CallKind::Abandon, ListCall::Abandon, list)
    }
}
