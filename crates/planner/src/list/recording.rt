// How the state of a list decides on a call, and how a step joins a list.
ghost use Rattle.std.specs.Prelude.{◌≡◌, ◌<◌, ◌≤◌, true, false, length, IfOk};
ghost use Rattle.rules.specs.Lists.{allows, next_state, next_list};
ghost use Rattle.rules.specs.State.{idle_list};
ghost use Rattle.rules.specs.Steps.{joins, no_place};
ghost use Rattle.rules.specs.Uses.{start_of, end_of};
ghost use Rattle.rules.specs.Verdicts.{and_then};
ghost use Rattle.rules.specs.declared.list_state.ListCall.TheVariants.{Step as Record, Submit};
ghost use Rattle.planner.specs.Listed.{view_list, left_by, verdict_of, list_with};

use crate::list::CommandList;
use fault::Refusal;
use plan::Steps;
use rules::{ListCall, ListState, Step};

// Lets the state decide on a call: it goes on to the next state, or declines and stays.
fn decide(state: &mut ListState, c: ListCall) -> Result<(), Refusal>
    ensures answer { result ≡ allows state.old c }
    ensures after { state.new ≡ next_state state.old c }
{
    match (state, c) {
        (ListState::InDebt, _) => Err(Refusal::InDebt),
        (s @ ListState::Idle, ListCall::Open) => {
            *s = ListState::Recording;
            Ok(())
        }
        (s @ ListState::Recording, ListCall::Close) => {
            *s = ListState::Closed;
            Ok(())
        }
        (s, ListCall::Abandon) => {
            *s = ListState::Idle;
            Ok(())
        }
        (ListState::Recording, ListCall::Step) | (ListState::Closed, ListCall::Submit) => Ok(()),
        (_, _) => Err(Refusal::WrongState),
    }
}

// Holds a list's state while a step is under way: at its end a recording list is broken, unless the step finished.
struct StepGuard<'a> {
    state: &'a mut ListState,
    // A flag that no value stands beside: the drop reads it, whatever the way out.
    finished: bool,
}

impl Drop for StepGuard<'_> {
    fn drop(self)
        ensures { self.exit.0.now ≡ left_by self.entry.finished self.entry.state.now }
    {
        if !self.finished {
            if let ListState::Recording = *self.state {
                *self.state = ListState::Broken;
            }
        }
        let StepGuard {
            state: _,
            finished: _,
        } = self;
    }
}

// Puts a step behind the others, unless its range is empty.
fn join_step(steps: &mut Steps, step: Step)
    requires room { no_place (length steps.old) (start_of step) (end_of step) ≡ false }
    requires small { end_of step ≤ 268435456 }
    ensures { steps.new ≡ joins (start_of step) (end_of step) step steps.old }
{
    if step.start() < step.end() {
        steps.push(step);
    }
}

impl CommandList {
    // An idle list, which is empty.
    pub(crate) fn new() -> CommandList
        ensures { view_list result ≡ idle_list }
    {
        CommandList {
            state: ListState::Idle,
            steps: Steps::new(),
        }
    }

    // How many steps it has.
    pub(crate) fn count(&self) -> usize
        ensures answer { result ≡ length (view_list self.now).steps }
        ensures few { result ≤ 64 }
    {
        self.steps.count()
    }

    // Open, close or abandon, or the question whether it may be submitted.
    pub(crate) fn call(&mut self, c: ListCall) -> Result<(), Refusal>
        ensures answer { result ≡ allows (view_list self.old).state c }
        ensures after { view_list self.new ≡ next_list (view_list self.old) c }
    {
        decide(&mut self.state, c)?;
        match c {
            ListCall::Open | ListCall::Abandon => self.steps.clear(),
            ListCall::Close | ListCall::Step | ListCall::Submit => {}
        }
        Ok(())
    }

    // Adds a step, or gives it up: for its buffer, for the list's state, or for its own causes.
    pub(crate) fn record(
        &mut self,
        known: Result<(), Refusal>,
        step: Result<Step, Refusal>,
    ) -> Result<(), Refusal>
        requires room { IfOk step (λ s. no_place (length (view_list self.old).steps) (start_of s) (end_of s) ≡ false) }
        requires small { IfOk step (λ s. end_of s ≤ 268435456) }
        ensures answer { result ≡ and_then known (and_then (allows (view_list self.old).state Record) (verdict_of step)) }
        ensures after { view_list self.new ≡ list_with (view_list self.old) result step }
    {
        let mut guard = StepGuard {
            state: &mut self.state,
            finished: false,
        };
        known?;
        decide(guard.state, ListCall::Step)?;
        join_step(&mut self.steps, step?);
        guard.finished = true;
        Ok(())
    }

    // Whether its state lets it be submitted.
    pub(crate) fn submittable(&self) -> Result<(), Refusal>
        ensures { result ≡ allows (view_list self.now).state Submit }
    {
        let mut state = self.state;
        decide(&mut state, ListCall::Submit)
    }

    // Its steps, in order.
    pub(crate) fn recorded(&self) -> &Steps
        ensures { result.now ≡ (view_list self.now).steps }
    {
        &self.steps
    }
}
