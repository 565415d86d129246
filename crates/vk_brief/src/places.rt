//! Steps in places that are taken once, so that to take them all away writes none of them.

ghost use Rattle.std.specs.Prelude.{◌≡◌, ◌≤◌, ◌<◌, ◌++◌, ◌∷◌, [], length};
ghost use Rattle.vk_base.specs.declared.limits.TheConstants.{STEPS as MOST};

use crate::step::BriefStep;
use std::marker::Model;
use vk_base::limits::STEPS;

/// The steps of one event without their bytes, at most 40. Contracts see their list.
#[derive(Drop)]
pub struct StepPlaces {
    steps: [BriefStep; STEPS],
    used: usize,
}

impl Model for StepPlaces {
    ghost use Rattle.std.specs.Prelude.{List, length, take, ◌≡◌, ◌≤◌};
    ghost use Rattle.vk_brief.specs.declared.step.BriefStep.{BriefStep as TheStep};

    ghost Value = { List TheStep };

    ghost view = { λ p. take p.used p.steps };

    ghost invariant = { λ p. (p.used ≤ 40) × (length p.steps ≡ 40) };
}

impl StepPlaces {
    /// No steps.
    pub fn new() -> Self
        ensures { result ≡ [] }
    {
        StepPlaces {
            steps: [BriefStep::default(); STEPS],
            used: 0,
        }
    }

    /// How many there are.
    pub fn len(&self) -> usize
        ensures value { result ≡ length self.now }
        ensures most { result ≤ MOST }
    {
        self.used
    }

    pub fn as_slice(&self) -> &[BriefStep]
        ensures { result.now ≡ self.now }
    {
        &self.steps[..self.used]
    }

    /// Takes all away.
    pub fn clear(&mut self)
        ensures { self.new ≡ [] }
    {
        self.used = 0;
    }

    /// Adds one, for which there is room.
    pub fn push(&mut self, step: BriefStep)
        requires { length self.old < MOST }
        ensures { self.new ≡ self.old ++ step ∷ [] }
    {
        self.steps[self.used] = step;
        self.used += 1;
    }
}
