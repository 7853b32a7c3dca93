ghost use Rattle.std.specs.Prelude.{◌≡◌, ◌<◌, ◌≤◌, ◌^◌, ◌↔◌, [], ◌∷◌, ◌++◌, length};
ghost use Rattle.std.specs.Prelude.{IsTrue, OnOk, OnErr, slice_index_or};

use crate::Nogood;
use pol_base::{NoMemory, Numbers, Values};
use std::alloc::Global;
use std::marker::Model;

/// A step of a log: a nogood that is refuted by a constraint, or by the values of a variable, with
/// the numbers of earlier steps, one for each case.
#[derive(Debug, Drop)]
pub enum Step {
    /// By the constraint `c`. The cases are the rows of its relation, in ascending order, that read one value
    /// for each variable of the scope and agree with the nogood.
    ByConstraint {
        c: u32,
        nogood: Nogood,
        refs: Numbers,
    },
    /// By the variable `v`, which the nogood of a valid step does not name. The cases are the values of the
    /// domain, in ascending order.
    ByVariable {
        v: u32,
        nogood: Nogood,
        refs: Numbers,
    },
}

impl Step {
    ghost use Rattle.pol_nogood.specs.Steps.{step_named};

    /// What the step says that no solution holds.
    pub fn nogood(&self) -> &Nogood
        ensures nogood { result.now ≡ (step_named self.now).nogood }
    {
        match self {
            Step::ByConstraint { nogood, .. } => nogood,
            Step::ByVariable { nogood, .. } => nogood,
        }
    }

    /// The numbers of earlier steps, one for each case.
    pub fn references(&self) -> &[u32]
        ensures references { result.now ≡ (step_named self.now).references }
    {
        match self {
            Step::ByConstraint { refs, .. } => refs.as_slice(),
            Step::ByVariable { refs, .. } => refs.as_slice(),
        }
    }
}

/// Steps, numbered from 0, that are to show that an instance has no solution.
#[derive(Debug, Drop)]
pub struct Log {
    steps: Vec<Step>,
}

impl Model for Log {
    ghost use Rattle.std.specs.Prelude.{◌≤◌, ◌^◌, List, length};
    ghost use Rattle.pol_nogood.specs.Logs.{StepView};

    ghost Value = { List StepView };

    ghost use Rattle.pol_nogood.specs.Steps.{steps_named};

    ghost view = { λ l. steps_named l.steps.items };

    ghost invariant = { λ l. length l.steps.items ≤ 2 ^ 31 };
}

/// What a solver answers whose No is a log.
#[derive(Debug, Drop)]
pub enum LogAnswer {
    /// A solution: a value for each variable, in their order.
    Yes(Values),
    /// A log that shows that there is no solution.
    No(Log),
}

impl Log {
    ghost use Rattle.pol_nogood.specs.Logs.{no_step};
    ghost use Rattle.pol_nogood.specs.Steps.{step_named};

    /// The log without steps. Takes no memory.
    pub fn new(alloc: Global) -> Log
        ensures empty { result ≡ [] }
    {
        Log {
            steps: Vec::new(alloc),
        }
    }

    /// Adds a step, the last. A step that is not added is dropped.
    pub fn push(&mut self, step: Step) -> Result<(), NoMemory>
        requires room { length self.old < 2 ^ 31 }
        ensures ok { OnOk result (self.new ≡ self.old ++ step_named step ∷ []) }
        ensures err { OnErr result (self.new ≡ self.old) }
    {
        self.steps.push(step)?;
        Ok(())
    }

    /// How many steps there are.
    pub fn len(&self) -> u32
        ensures steps { result ≡ length self.now }
        ensures few { result ≤ 2 ^ 31 }
    {
        self.steps.len() as u32
    }

    /// Whether there are no steps.
    pub fn is_empty(&self) -> bool
        ensures empty { IsTrue result ↔ (self.now ≡ []) }
    {
        self.steps.is_empty()
    }

    /// The step with the number `i`.
    pub fn step(&self, i: u32) -> &Step
        requires known { i < length self.now }
        ensures step { step_named result.now ≡ slice_index_or self.now i no_step }
    {
        &self.steps[i as usize]
    }
}
