// The steps of a commit, in their order.
ghost use Rattle.std.specs.Prelude.{◌≡◌};

use crate::Step;
use std::marker::Model;

/// The steps of a commit, seen as the list of them.
#[derive(Debug, Drop)]
pub struct Steps {
    steps: Vec<Step>,
}

impl Model for Steps {
    ghost use Rattle.std.specs.Prelude.{List};
    ghost use Rattle.commit_steps.specs.declared.step.Step.{Step};

    ghost Value = { List Step };

    ghost view = { λ s. s.steps.items };
}

impl Steps {
    /// Takes a `Vec` over, without memory.
    pub fn from_vec(steps: Vec<Step>) -> Self
        ensures { result ≡ steps.items }
    {
        Steps { steps }
    }

    /// The steps themselves.
    pub fn as_slice(&self) -> &[Step]
        ensures { result.now ≡ self.now }
    {
        &self.steps
    }

    /// Gives the `Vec` back, without memory.
    pub fn into_vec(self) -> Vec<Step>
        ensures { result.items ≡ self }
    {
        self.steps
    }
}
