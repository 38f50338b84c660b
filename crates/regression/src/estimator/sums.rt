// The six running sums over a run of readings, kept modulo 2^64.
ghost use Rattle.regression.specs.Rows.{RunWithin, RunJoined};

use arithmetic::sums::{Change, sample_changed};
use meanings::{PowerSums, Readings};

// With the readings from `from` up to `to` taken in or let go: edges of the record, so two parts would be cut where one pair of positions says both.
pub(crate) fn run_changed<C: Change>(
    s: PowerSums,
    readings: Readings,
    from: usize,
    to: usize,
) -> PowerSums
    requires { RunWithin readings.minutes.now readings.values.now from to }
    ensures { RunJoined C.op s readings.entry.minutes.now readings.entry.values.now from to result }
{
    let mut sums = s;
    for i in from..to {
        sums = sample_changed::<C>(sums, readings.minutes[i], readings.values[i]);
    }
    sums
}
