//! Values that begin at times.
ghost use Rattle.std.specs.Prelude.{◌≡◌, map, IfOk};
ghost use Rattle.inc_terms.specs.Steps.{step_of};

use inc_value::Value;
use std::alloc::{AllocError, Global};
use std::marker::Model;

/// A value, and the time from which on it is shown, in nanoseconds.
pub struct Step {
    pub time: i64,
    pub value: Value,
}

// (written out: whoever drops one proves one call, and no drop of its parts)
impl Drop for Step {
    fn drop(self) {
        let Step { time: _, value } = self;
        drop(value);
    }
}

/// A list of steps.
pub struct StepList {
    steps: Vec<Step>,
}

// (written out: whoever drops one proves one call, and no drop of its parts)
impl Drop for StepList {
    fn drop(self) {
        let StepList { steps } = self;
        drop(steps);
    }
}

impl Model for StepList {
    ghost use Rattle.std.specs.Prelude.{List, map};
    ghost use Rattle.inc_terms.specs.Steps.{step_of};
    ghost use Rattle.inc_terms.specs.Term.{Step};

    ghost Value = { List Step };

    ghost view = { λ l. map step_of l.steps.items };
}

impl StepList {
    /// The steps, in this order.
    pub fn new(steps: Vec<Step>) -> StepList
        ensures { result ≡ map step_of steps.items }
    {
        StepList { steps }
    }

    /// The steps in order.
    pub fn as_slice(&self) -> &[Step]
        ensures { map step_of result.now ≡ self.now }
    {
        &self.steps
    }

    /// The same steps again. Only texts and the list need memory.
    pub fn copy(&self, alloc: Global) -> Result<StepList, AllocError>
        ensures { IfOk result (λ list. list ≡ self.now) }
    {
        Ok(StepList {
            steps: copied(alloc, &self.steps)?,
        })
    }
}

/// The same steps again.
fn copied(alloc: Global, steps: &[Step]) -> Result<Vec<Step>, AllocError>
    ensures { IfOk result (λ list. map step_of list.items ≡ map step_of steps.now) }
{
    let mut list = Vec::new(alloc);
    for step in steps {
        let time = step.time;
        let value = step.value.copy(alloc)?;
        list.push(Step { time, value })?;
    }
    Ok(list)
}
