// A record turned to a window: each edge goes from where it stands to where the window has it. Beside `moved` of `estimator`, where the right edge bounds the
// way of the left one and hands its sums on: here each edge has sums of its own, so one function for both would share the passes alone.
ghost use Rattle.std.specs.Prelude.{◌≡◌};
ghost use Rattle.meanings.specs.Turn.{turned};
ghost use Rattle.meanings.proofs.Checks.{TurnAccepted};

use crate::turn::edges::edge_to;
use arithmetic::sums::{Edge, Minus, plus_travel, sums_changed};
use arithmetic::values::lowest_minute;
use meanings::{Mark, PowerSums, Readings, RunningSums};

pub(crate) fn turned_record(running: RunningSums, readings: Readings, mark: Mark) -> RunningSums
    requires { TurnAccepted readings.minutes.now readings.values.now running.left running.right mark.bandwidth }
    ensures { result ≡ turned readings.entry.minutes.now readings.entry.values.now running mark.point mark.bandwidth }
{
    let sums = running.sums;
    let over = mark.point as u64 + mark.bandwidth as u64 + 1;
    let old = Edge {
        at: running.right,
        sums,
    };
    let right = edge_to(old, readings, over);
    let low = lowest_minute(mark);
    let old = Edge {
        at: running.left,
        sums: PowerSums::default(),
    };
    let left = edge_to(old, readings, low);
    let passes = plus_travel(running.passes, running.left, left.at);
    let passes = plus_travel(passes, running.right, right.at);
    RunningSums {
        left: left.at,
        right: right.at,
        sums: sums_changed::<Minus>(right.sums, left.sums),
        passes,
    }
}
