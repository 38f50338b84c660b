// Which reading decides whether the row at a mark is low enough: one pass for weight and sum, and one over the run that takes each of its
// readings out of them.

ghost use Rattle.std.specs.Prelude.{◌≡◌};
ghost use Rattle.meanings.specs.Calls.{answer_of};
ghost use Rattle.meanings.specs.Limits.{full as full_limits};
ghost use Rattle.meanings.proofs.Checks.{EvaluateAccepted};
ghost use Rattle.meanings.specs.decisive.Decisive.{decisive as decisive_meaning};
ghost use Rattle.questions.specs.DecisiveSearch.{IsLow, IsRun, Searched};

use crate::threshold::at_or_below;
use arithmetic::values::{first_at_least, lowest_minute, value};
use arithmetic::weight::sample_weight;
use checks::full;
use checks::point::evaluate_fault;
use meanings::{Mark, Readings, Refusal};

// Bounds outside of which no reading has weight, with the row's weight and sum.
#[derive(Clone, Copy, Debug, PartialEq, Eq)]
pub(crate) struct Run {
    pub(crate) left: usize,
    pub(crate) right: usize,
    pub(crate) weight: u64,
    pub(crate) sum: u64,
}

// The run of accepted lists, each of its readings added once. That they are accepted is asked here, by search, and by estimate_at of
// `regression::estimator`. Each has one caller, which has tested them: a type for it would be made there and taken apart at once.
fn add_run(readings: Readings, mark: Mark) -> Run
    requires { EvaluateAccepted readings.minutes.now readings.values.now mark.bandwidth }
    ensures { IsRun readings.entry.minutes.now readings.entry.values.now mark.point mark.bandwidth result }
{
    let Readings { minutes, values } = readings;
    let over = mark.point as u64 + mark.bandwidth as u64 + 1;
    let left = first_at_least(minutes, lowest_minute(mark));
    let right = first_at_least(minutes, over);
    let mut weight = 0u64;
    let mut sum = 0u64;
    for i in left..right {
        let k = sample_weight(minutes[i], mark);
        weight += k;
        sum += k * values[i] as u64;
    }
    Run {
        left,
        right,
        weight,
        sum,
    }
}

// Whether a row with this weight and sum is low enough. Two numbers, as `value` takes them: a type for both would be made
// anew for each reading that is left out, and taken apart here.
fn is_low(weight: u64, sum: u64, limit: u16) -> bool
    ensures { IsLow weight sum limit result }
{
    at_or_below(limit, weight, value(sum, weight))
}

// The search in accepted lists: without reading i weight and sum are less by its terms.
fn search(readings: Readings, mark: Mark, limit: u16) -> Option<usize>
    requires { EvaluateAccepted readings.minutes.now readings.values.now mark.bandwidth }
    ensures { Searched readings.entry.minutes.now readings.entry.values.now mark.point mark.bandwidth limit result }
{
    let Readings { minutes, values } = readings;
    let run = add_run(readings, mark);
    let low = is_low(run.weight, run.sum, limit);
    let left = run.left;
    for i in left..run.right {
        let k = sample_weight(minutes[i], mark);
        let rest = is_low(run.weight - k, run.sum - k * values[i] as u64, limit);
        if rest != low {
            return Some(i);
        }
    }
    None
}

// The lowest position of a reading without which alone the row at the mark is low enough where it was not, or is not where it was; none; or
// the report of the question at one mark.
#[tactic(auto, unfolding(meanings::specs::decisive::Decisive::decisive))]
pub fn decisive_sample(readings: Readings, mark: Mark, limit: u16) -> Result<Option<usize>, Refusal>
    ensures { answer_of result ≡ decisive_meaning full_limits readings.entry.minutes.now readings.entry.values.now mark.point mark.bandwidth limit }
{
    evaluate_fault(readings, mark.bandwidth, full())?;
    Ok(search(readings, mark, limit))
}
