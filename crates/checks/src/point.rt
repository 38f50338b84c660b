// The refusals of the three calls at one mark, the question, the step and the turn, for any pair of limits. Every function takes every input.

ghost use Rattle.std.specs.Prelude.{◌≡◌};
ghost use Rattle.meanings.specs.Reports.{verdict_fault, first_of, evaluate_checks, advance_checks, turn_checks};

use crate::series::{bandwidth_fault, record_fault, series_fault, size_fault};
use meanings::{Limits, Readings, Refusal, RunningSums};

// What the question at one mark is refused for: 8, 6, 4, 9.
pub fn evaluate_fault(readings: Readings, bandwidth: u32, limits: Limits) -> Result<(), Refusal>
    ensures { verdict_fault result ≡ first_of (evaluate_checks limits readings.entry.minutes.now readings.entry.values.now bandwidth) }
{
    series_fault(readings, limits).and_then(|()| bandwidth_fault(bandwidth))
}

// What a step is refused for, on a record with these edges: 8, 6, 11, 9.
pub fn advance_fault(
    readings: Readings,
    running: &RunningSums,
    bandwidth: u32,
    limits: Limits,
) -> Result<(), Refusal>
    ensures { verdict_fault result ≡ first_of (advance_checks limits readings.entry.minutes.now readings.entry.values.now running.now.left running.now.right bandwidth) }
{
    size_fault(readings, limits)?;
    record_fault(readings.minutes.len(), running)?;
    bandwidth_fault(bandwidth)
}

// What a turn is refused for, of a record with these edges: 8, 6, 4, 11, 9. A function of the two calls that it shares with the step would take as many
// lines as it saves, and a function of all three would take the first as a parameter.
pub fn turn_fault(
    readings: Readings,
    running: &RunningSums,
    bandwidth: u32,
    limits: Limits,
) -> Result<(), Refusal>
    ensures { verdict_fault result ≡ first_of (turn_checks limits readings.entry.minutes.now readings.entry.values.now running.now.left running.now.right bandwidth) }
{
    series_fault(readings, limits)?;
    record_fault(readings.minutes.len(), running)?;
    bandwidth_fault(bandwidth)
}
