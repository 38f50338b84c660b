// One step of a running record: the right edge moves on, then the left one, up to the new right. `fused_step` gives the same in one look
// at each reading, for the calls that make a step at each mark.
ghost use Rattle.std.specs.Prelude.{◌≡◌};
ghost use Rattle.meanings.specs.Running.{moved as moved_meaning};
ghost use Rattle.meanings.proofs.Checks.{AdvanceAccepted};

use crate::estimator::edges::first_from;
use crate::estimator::sums::run_changed;
use arithmetic::sums::{Minus, Plus, plus_travel};
use arithmetic::values::lowest_minute;
use meanings::{Mark, Readings, RunningSums};

pub(crate) fn moved(running: RunningSums, readings: Readings, mark: Mark) -> RunningSums
    requires { AdvanceAccepted readings.minutes.now readings.values.now running.left running.right mark.bandwidth }
    ensures { result ≡ moved_meaning readings.entry.minutes.now readings.entry.values.now running mark.point mark.bandwidth }
{
    let minutes = readings.minutes;
    let over = mark.point as u64 + mark.bandwidth as u64 + 1;
    let right = first_from(minutes, running.right, minutes.len(), over);
    let low = lowest_minute(mark);
    let left = first_from(minutes, running.left, right, low);
    let taken = run_changed::<Plus>(running.sums, readings, running.right, right);
    let sums = run_changed::<Minus>(taken, readings, running.left, left);
    let passes = plus_travel(running.passes, running.left, left);
    let passes = plus_travel(passes, running.right, right);
    RunningSums {
        left,
        right,
        sums,
        passes,
    }
}
