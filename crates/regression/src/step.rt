// A running record on its way over a list of marks, for the sweep and for calls that stop at a mark. Every function takes every input.

ghost use Rattle.regression.specs.StepSteps.{SteppedRow};

use crate::fused_step::fused_step;
use arithmetic::row::record_row;
use meanings::{Estimate, Mark, Readings, RunningSums};

// A record and the row that it gives at the mark of its last step.
#[derive(Clone, Copy, Debug, PartialEq, Eq)]
pub struct Reached {
    pub running: RunningSums,
    pub row: Estimate,
}

// The record after a step, and the row that it gives there.
#[inline(always)]
pub fn step_to(running: RunningSums, readings: Readings, mark: Mark) -> Reached
    ensures { SteppedRow readings.entry.minutes.now readings.entry.values.now running mark.point mark.bandwidth result }
{
    let next = fused_step(running, readings, mark);
    let row = record_row(next, mark);
    Reached { running: next, row }
}
