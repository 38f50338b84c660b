// The biweight row: the call `biweight`, a second form of the row of the question at one mark, over 720 minutes on each side.

ghost use Rattle.std.specs.Prelude.{◌≡◌};
ghost use Rattle.meanings.specs.Limits.{full as full_limits};
ghost use Rattle.meanings.specs.Calls.{answer_of};
ghost use Rattle.meanings.specs.biweight.Biweight.{biweight as biweight_meaning};
ghost use Rattle.questions.specs.Rows.{SeriesAccepted, ShortRun, Weighed as WeighedOver, RowAt};

use crate::biweight_table::{biweight_weights, weight_at};
use arithmetic::values::{first_at_least, lowest_minute, value};
use checks::full;
use checks::series::series_fault;
use meanings::{Estimate, Mark, Readings, Refusal};

// The minutes on each side of the mark that the window reaches.
const BANDWIDTH: u32 = 720;

// Weight and sum over a run.
#[derive(Clone, Copy, Debug, PartialEq, Eq)]
struct Weighed {
    weight: u64,
    sum: u64,
}

// One pass over a run's readings, with one read of the lent table for each. Beside add_run of `decisive`, whose weights
// are computed and not read.
fn weigh(run: Readings, weights: &[u64], point: u16) -> Weighed
    requires { ShortRun run.minutes.now run.values.now weights.now }
    ensures { WeighedOver run.entry.minutes.now run.entry.values.now point result }
{
    let Readings { minutes, values } = run;
    let mut weight: u64 = 0;
    let mut sum: u64 = 0;
    for (&minute, &value) in minutes.iter().zip(values) {
        let one = weight_at(weights, minute.abs_diff(point));
        weight += one;
        sum += one * value as u64;
    }
    Weighed { weight, sum }
}

// The row of accepted readings.
fn row_at(readings: Readings, point: u16) -> Estimate
    requires { SeriesAccepted readings.minutes.now readings.values.now }
    ensures { RowAt readings.entry.minutes.now readings.entry.values.now point result }
{
    let Readings { minutes, values } = readings;
    let mark = Mark {
        point,
        bandwidth: BANDWIDTH,
    };
    let over = point as u64 + BANDWIDTH as u64 + 1;
    let right = first_at_least(minutes, over);
    let low = lowest_minute(mark);
    let left = first_at_least(minutes, low);
    let run = Readings {
        minutes: &minutes[left..right],
        values: &values[left..right],
    };
    let weights = biweight_weights();
    let weighed = weigh(run, weights, point);
    Estimate {
        left: left as u64,
        right: right as u64,
        weight: weighed.weight,
        sum: weighed.sum,
        value: value(weighed.sum, weighed.weight),
    }
}

// The biweight row at one mark, or the report.
#[tactic(auto, unfolding(meanings::specs::biweight::Biweight::biweight))]
pub fn biweight(readings: Readings, point: u16) -> Result<Estimate, Refusal>
    ensures { answer_of result ≡ biweight_meaning full_limits readings.entry.minutes.now readings.entry.values.now point }
{
    series_fault(readings, full())?;
    Ok(row_at(readings, point))
}
