// One step of both records at once: each reading that an edge passes is looked at once, for lows and highs.
ghost use Rattle.regression.specs.RangesSteps.{RangesWithin, BothPassed, BothAccepted, BothMoved};

use arithmetic::ranges::{BothRecord, BothSums, range_changed};
use arithmetic::sums::{Change, Edge, Minus, Plus, plus_travel};
use arithmetic::values::lowest_minute;
use meanings::Mark;
use meanings::ranges::Ranges;

// Takes in or lets go the readings from `from` on, up to the first minute of at least `bound` or to `to`; both are edges of the record, places in the
// whole lists. One function for this and for plain readings would be public, and a public function asks nothing of its callers, so it would test each
// position.
pub(crate) fn passed_until<C: Change>(
    s: BothSums,
    ranges: Ranges,
    from: usize,
    to: usize,
    bound: u64,
) -> Edge<BothSums>
    requires { RangesWithin ranges.minutes.now ranges.lows.now ranges.highs.now from to }
    ensures { BothPassed C.op s ranges.entry.minutes.now ranges.entry.lows.now ranges.entry.highs.now from to bound result }
{
    let Ranges {
        minutes,
        lows,
        highs,
    } = ranges;
    let mut sums = s;
    for i in from..to {
        if bound <= minutes[i] as u64 {
            return Edge { at: i, sums };
        }
        sums = range_changed::<C>(sums, minutes[i], lows[i], highs[i]);
    }
    Edge { at: to, sums }
}

// The records after an accepted step: the right edge moves on, then the left one, up to the new right. Beside fused_move of `fused_step`: one
// function for both would be generic in records, sums and readings, three traits for thirteen lines.
pub(crate) fn both_move(running: BothRecord, ranges: Ranges, mark: Mark) -> BothRecord
    requires { BothAccepted ranges.minutes.now ranges.lows.now ranges.highs.now running.left running.right mark.bandwidth }
    ensures { BothMoved ranges.entry.minutes.now ranges.entry.lows.now ranges.entry.highs.now running mark.point mark.bandwidth result }
{
    let over = mark.point as u64 + mark.bandwidth as u64 + 1;
    let low = lowest_minute(mark);
    let end = ranges.minutes.len();
    let right = passed_until::<Plus>(running.sums, ranges, running.right, end, over);
    let left = passed_until::<Minus>(right.sums, ranges, running.left, right.at, low);
    let passes = plus_travel(running.passes, running.left, left.at);
    let passes = plus_travel(passes, running.right, right.at);
    BothRecord {
        left: left.at,
        right: right.at,
        sums: left.sums,
        passes,
    }
}
