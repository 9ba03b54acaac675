//! The steps of a CPU since its last visit to a zone.
ghost use Rattle.std.specs.Prelude.{◌≡◌, ◌+◌, ◌<◌, ◌^◌, ◌++◌, [], ◌∷◌, length};

use crate::Step;
use std::marker::Model;
use std::mem;
use std::snapshot::Snapshot;

/// Steps and one more, as clauses see them. It has no bytes.
#[derive(Drop)]
struct Grown {
    before: Option<Snapshot<Grown>>,
    step: Snapshot<Step>,
}

impl Model for Grown {
    ghost use Rattle.std.specs.Prelude.{List, length};
    ghost use Rattle.std.specs.Option.{option_map};
    ghost use Rattle.kz_model.specs.declared.step.Step.{Step};
    ghost use Rattle.kz_model.specs.Store.Recent.{grown_by};

    ghost Value = { List Step };

    ghost view = { λ g. grown_by (option_map (λ before. before.value) g.before) g.step.value };

    ghost size = { length };
}

impl Grown {
    /// No steps.
    fn none() -> Grown
        ensures { result ≡ [] }
    {
        Grown {
            before: None,
            step: Snapshot::of(&Step::Flush),
        }
    }

    /// The steps that a snapshot shows, and this one.
    fn by(before: Snapshot<Grown>, step: &Step) -> Grown
        ensures { result ≡ before.value ++ step.now ∷ [] }
    {
        Grown {
            before: Some(before),
            step: Snapshot::of(step),
        }
    }
}

/// Steps that are counted: it keeps how many they are, and contracts see which.
///
/// So it takes no memory for them, and nothing can read them back.
#[derive(Drop)]
pub struct RecentSteps {
    count: u32,
    steps: Snapshot<Grown>,
}

impl Model for RecentSteps {
    ghost use Rattle.std.specs.Prelude.{◌≡◌, List, length};
    ghost use Rattle.kz_model.specs.declared.step.Step.{Step};

    ghost Value = { List Step };

    ghost view = { λ r. r.steps.value };

    ghost invariant = { λ r. length r.steps.value ≡ r.count };
}

impl RecentSteps {
    pub fn new() -> RecentSteps
        ensures { result ≡ [] }
    {
        RecentSteps {
            count: 0,
            steps: Snapshot::of(&Grown::none()),
        }
    }

    /// How many steps there are.
    pub fn len(&self) -> u32
        ensures { result ≡ length self.now }
    {
        self.count
    }

    /// One more step.
    pub fn push(&mut self, step: &Step)
        requires { length self.old + 1 < 2 ^ 32 }
        ensures { self.new ≡ self.old ++ step.now ∷ [] }
    {
        let before = mem::replace(&mut self.steps, Snapshot::of(&Grown::none()));
        let grown = Grown::by(before, step);
        self.steps = Snapshot::of(&grown);
        self.count += 1;
    }

    /// Lets all steps go.
    pub fn clear(&mut self)
        ensures { self.new ≡ [] }
    {
        *self = RecentSteps::new();
    }
}
