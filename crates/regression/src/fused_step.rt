// A step that looks at each reading once: where an edge stops is found while the sums take in or let go what it passes. The public function takes every
// input.

ghost use Rattle.std.specs.Prelude.{◌≡◌};
ghost use Rattle.meanings.specs.Running.{moved, after_step};
ghost use Rattle.meanings.proofs.Checks.{AdvanceAccepted};
ghost use Rattle.regression.specs.Rows.{RunWithin};
ghost use Rattle.regression.specs.Passing.{PassedUntil};

use arithmetic::sums::{Change, Edge, Minus, Plus, plus_travel, sample_changed};
use arithmetic::values::lowest_minute;
use checks::full;
use checks::point::advance_fault;
use meanings::{Mark, PowerSums, Readings, RunningSums};

// Takes in or lets go the readings from `from` on, up to the first minute of at least `bound` or to `to`. Both are edges of the record: of
// parts of the lists each call would add the start to the position that is the answer. Beside that of `ranges`: one function over both would be
// generic in sums and readings.
fn passed_until<C: Change>(
    s: PowerSums,
    readings: Readings,
    from: usize,
    to: usize,
    bound: u64,
) -> Edge<PowerSums>
    requires { RunWithin readings.minutes.now readings.values.now from to }
    ensures { PassedUntil C.op s readings.entry.minutes.now readings.entry.values.now from to bound result }
{
    let mut sums = s;
    for i in from..to {
        if bound <= readings.minutes[i] as u64 {
            return Edge { at: i, sums };
        }
        sums = sample_changed::<C>(sums, readings.minutes[i], readings.values[i]);
    }
    Edge { at: to, sums }
}

// The record after an accepted step: the right edge moves on, then the left one, up to the new right.
fn fused_move(running: RunningSums, readings: Readings, mark: Mark) -> RunningSums
    requires { AdvanceAccepted readings.minutes.now readings.values.now running.left running.right mark.bandwidth }
    ensures { result ≡ moved readings.entry.minutes.now readings.entry.values.now running mark.point mark.bandwidth }
{
    let over = mark.point as u64 + mark.bandwidth as u64 + 1;
    let low = lowest_minute(mark);
    let end = readings.minutes.len();
    let right = passed_until::<Plus>(running.sums, readings, running.right, end, over);
    let left = passed_until::<Minus>(right.sums, readings, running.left, right.at, low);
    let passes = plus_travel(running.passes, running.left, left.at);
    let passes = plus_travel(passes, running.right, right.at);
    RunningSums {
        left: left.at,
        right: right.at,
        sums: left.sums,
        passes,
    }
}

// The record after a step, accepted or refused.
#[inline(always)]
#[tactic(auto, unfolding(meanings::specs::Running::advance))]
pub(crate) fn fused_step(running: RunningSums, readings: Readings, mark: Mark) -> RunningSums
    ensures { result ≡ after_step readings.entry.minutes.now readings.entry.values.now running (record { point = mark.point; bandwidth = mark.bandwidth }) }
{
    match advance_fault(readings, &running, mark.bandwidth, full()) {
        Err(_) => running,
        Ok(()) => fused_move(running, readings, mark),
    }
}
