// The Epanechnikov estimator over readings at one mark: the question, its run, and the single step.

mod edges;
mod point;
mod step;
mod sums;

ghost use Rattle.std.specs.Prelude.{◌≡◌, ◌+◌, ◌*◌};
ghost use Rattle.meanings.specs.Calls.{answer_of};
ghost use Rattle.meanings.specs.Limits.{full as full_limits};
ghost use Rattle.meanings.specs.Running.{advance as advance_meaning};
ghost use Rattle.meanings.specs.Calls.{evaluate as evaluate_meaning, window as window_meaning, window_start};
ghost use Rattle.regression.specs.Rows.{Of16Bits};

use checks::full;
use checks::point::{advance_fault, evaluate_fault};
use meanings::{Estimate, Mark, Readings, Refusal, RunningSums};

// What the type of a list says, which a proof does not know of a list in a struct: its numbers fit 16 bits. It does nothing.
pub fn of_16_bits(numbers: &[u16])
    ensures { Of16Bits numbers.now }
{}

// The question at one mark: the row, or the report.
#[tactic(auto, unfolding(meanings::specs::Calls::evaluate))]
pub fn evaluate(readings: Readings, mark: Mark) -> Result<Estimate, Refusal>
    ensures { answer_of result ≡ evaluate_meaning full_limits readings.entry.minutes.now readings.entry.values.now mark.point mark.bandwidth }
{
    evaluate_fault(readings, mark.bandwidth, full())?;
    Ok(point::estimate_at(readings, mark))
}

// The same question's run, as a part of the caller's own values: on a refusal the empty part at their start, which is the meaning's answer and no report.
// The lists stay apart, since the answer borrows the values and not the minutes.
pub fn window<'a>(minutes: &[u16], values: &'a [u16], mark: Mark) -> &'a [u16]
    ensures result_value { result.now ≡ window_meaning full_limits minutes.now values.now mark.point mark.bandwidth }
    ensures ref_ptr_value { (result.ref_ptr.0 ≡ values.entry.ref_ptr.0) × (result.ref_ptr.1 ≡ values.entry.ref_ptr.1 + window_start full_limits minutes.now values.now mark.point mark.bandwidth * 2) }
{
    match evaluate_fault(Readings { minutes, values }, mark.bandwidth, full()) {
        Err(_) => &values[..0],
        Ok(()) => {
            let span = point::span_at(minutes, mark);
            &values[span.left..span.right]
        }
    }
}

// The single step, on a record of any origin: the new record, or the report. Record, readings and mark stay three parameters, here and in all that
// steps: what is moved, over what, and where to. A struct of them would be made for each step and taken apart in it.
#[tactic(auto, unfolding(meanings::specs::Running::advance))]
pub fn advance(running: RunningSums, readings: Readings, mark: Mark) -> Result<RunningSums, Refusal>
    ensures { answer_of result ≡ advance_meaning readings.entry.minutes.now readings.entry.values.now running mark.point mark.bandwidth }
{
    advance_fault(readings, &running, mark.bandwidth, full())?;
    Ok(step::moved(running, readings, mark))
}
