// Lengths of requests.
ghost use Rattle.std.specs.Prelude.{◌≡◌, ◌≤◌, ◌<◌, ◌++◌, ◌∷◌, [], length, true, false, Ok, OnErr, IfOk};
ghost use Rattle.experiment.specs.Tables.{rows_of};

use crate::draws::Draws;
use crate::framing::Framing;
use crate::steps::{Step, bound, longest, shares, step_at, steps_of, wires};
use crate::tables::{W1, W2, W3, W4, W5};
use std::alloc::{AllocError, Global};
use std::marker::Model;

// The most steps of a table.
const MOST_STEPS: usize = 4000;

/// A table of lengths: steps that rise. Contracts see their list.
#[derive(Drop)]
pub struct Workload {
    steps: Vec<Step>,
}

impl Model for Workload {
    ghost use Rattle.std.specs.Prelude.{List, ◌≡◌, true};
    ghost use Rattle.experiment.specs.declared.steps.Step.{Step};
    ghost use Rattle.experiment.specs.Tables.{is_table};

    ghost Value = { List Step };

    ghost view = { λ w. w.steps.items };

    ghost invariant = { λ w. is_table w.steps.items ≡ true };
}

// The rows of one of the five workloads.
fn rows(number: u32) -> &'static [(u32, u32)]
    ensures { result.now ≡ rows_of number }
{
    match number {
        1 => &W1,
        2 => &W2,
        3 => &W3,
        4 => &W4,
        _ => &W5,
    }
}

impl Workload {
    ghost use Rattle.experiment.specs.Wires.{cut_of};
    ghost use Rattle.experiment.specs.Tables.{is_table, is_step, last_upto, steps_of, rows_of, length_drawn, mean_wire, bound_of};

    /// A table of one step.
    pub fn of(alloc: Global, step: Step) -> Result<Workload, AllocError>
        requires { is_step 0 step ≡ true }
        ensures { IfOk result (λ w. w ≡ step ∷ []) }
    {
        let mut steps = Vec::with_capacity(alloc, 1)?;
        steps.push(step)?;
        Ok(Workload { steps })
    }

    /// Workload 1 to 5.
    pub fn numbered(alloc: Global, number: u32) -> Result<Workload, AllocError>
        requires least { 1 ≤ number }
        requires most { number ≤ 5 }
        ensures { IfOk result (λ w. w ≡ steps_of 0 (rows_of number)) }
    {
        Ok(Workload {
            steps: steps_of(alloc, rows(number))?,
        })
    }

    /// Its steps.
    pub fn steps(&self) -> &[Step]
        ensures steps { result.now ≡ self.now }
        ensures table { is_table result.now ≡ true }
    {
        &self.steps
    }

    /// The greatest length.
    pub fn longest(&self) -> u32
        ensures value { result ≡ last_upto self.now }
        ensures some { 1 ≤ result }
        ensures most { result ≤ 1000000 }
    {
        longest(&self.steps)
    }

    /// Adds a step above all others; false where there are as many as there may be. Then, and where memory runs out, nothing changes.
    pub(crate) fn push(&mut self, step: Step) -> Result<bool, AllocError>
        requires { is_step (last_upto self.old) step ≡ true }
        ensures added { result ≡ Ok true → self.new ≡ self.old ++ step ∷ [] }
        ensures room { result ≡ Ok true → length self.old < 4000 }
        ensures full { result ≡ Ok false → 4000 ≤ length self.old }
        ensures kept { result ≡ Ok false → self.new ≡ self.old }
        ensures err { OnErr result (self.new ≡ self.old) }
    {
        if self.steps.len() >= MOST_STEPS {
            return Ok(false);
        }
        self.steps.push(step)?;
        Ok(true)
    }

    /// A length of the table.
    pub fn draw(&self, draws: &mut Draws) -> u32
        ensures drawn { (result, draws.new) ≡ length_drawn self.now draws.old }
        ensures some { 1 ≤ result }
        ensures most { result ≤ 1000000 }
    {
        let at = draws.below(shares(&self.steps));
        let step = step_at(&self.steps, at);
        step.above + 1 + draws.below(step.upto - step.above)
    }

    /// The mean of the bytes on the wire of a request, in 1000ths.
    pub fn mean_wire(&self, framing: &Framing) -> u64
        ensures mean { result ≡ mean_wire (cut_of framing.now) self.now }
        ensures most { result ≤ 17179869184000 }
    {
        (wires(&self.steps, framing) / u128::from(shares(&self.steps))) as u64
    }

    /// The length up to which so many of so many parts of the requests are.
    pub fn bound(&self, part: u32, parts: u32) -> u32
        requires some { 1 ≤ part }
        requires within { part ≤ parts }
        requires most { parts ≤ 1000 }
        ensures bound { result ≡ bound_of part parts self.now }
        ensures some { 1 ≤ result }
        ensures most { result ≤ last_upto self.now }
        ensures last { part ≡ parts → result ≡ last_upto self.now }
    {
        bound(&self.steps, part, parts)
    }
}
