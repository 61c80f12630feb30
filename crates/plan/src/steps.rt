// The steps of a list: at most 64, each of which ends within the greatest buffer.
ghost use Rattle.std.specs.Prelude.{◌≡◌, ◌+◌, ◌<◌, ◌≤◌, true, [], ◌∷◌, ◌++◌, length};
ghost use Rattle.rules.specs.Uses.{end_of};
ghost use Rattle.plan.specs.Views.{all_small};

use arrayvec::ArrayVec;
use rules::Step;
use std::marker::Model;

// The most steps of a list.
pub const MOST_STEPS: usize = 64;

#[derive(Drop)]
pub struct Steps {
    steps: ArrayVec<Step, MOST_STEPS>,
}

impl Model for Steps {
    ghost use Rattle.std.specs.Prelude.{◌≡◌, true, List};
    ghost use Rattle.rules.specs.declared.step.Step.{Step};
    ghost use Rattle.plan.specs.Views.{all_small};

    ghost Value = { List Step };

    ghost view = { λ s. s.steps.items };

    ghost invariant = { λ s. all_small s.steps.items ≡ true };
}

impl Steps {
    // No steps.
    pub fn new() -> Steps
        ensures { result ≡ [] }
    {
        Steps {
            steps: ArrayVec::new(),
        }
    }

    // How many there are.
    pub fn count(&self) -> usize
        ensures answer { result ≡ length self.now }
        ensures few { result ≤ 64 }
    {
        self.steps.len()
    }

    // One step more, which ends within the greatest buffer: asked here, where it becomes a fact of the list.
    #[tactic(auto, using(crate::proofs::Small::small_push))]
    pub fn push(&mut self, step: Step)
        requires room { length self.old < 64 }
        requires small { end_of step ≤ 268435456 }
        ensures { self.new ≡ self.old ++ step ∷ [] }
    {
        self.steps.push(step);
    }

    // Leaves none.
    pub fn clear(&mut self)
        ensures { self.new ≡ [] }
    {
        self.steps.clear();
    }

    // The steps, in order.
    pub fn as_slice(&self) -> &[Step]
        ensures steps { result.now ≡ self.now }
        ensures few { length result.now ≤ 64 }
        ensures small { all_small result.now ≡ true }
    {
        self.steps.as_slice()
    }
}
