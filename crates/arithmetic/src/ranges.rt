// The running sums of the lows and of the highs over the same readings, side by side: of the six of each, the three without values are the same
// and stand once. Every function takes every input.

ghost use Rattle.std.specs.Prelude.{◌≡◌};
ghost use Rattle.arithmetic.specs.Both.{side_sums, side_record, beside, RangeJoined, RowOfBoth};

use crate::row::record_row;
use crate::sums::{Change, sample_changed};
use meanings::ranges::{Bounds, RangeEstimate};
use meanings::{Mark, PowerSums, RunningSums};

// The three sums that values move.
#[derive(Clone, Copy, Debug, Default, PartialEq, Eq)]
pub struct ValueSums {
    pub s01: u64,
    pub s11: u64,
    pub s21: u64,
}

// Six sums of the lows and six of the highs. No one record with PowerSums: that has the six numbers of the C interface, and a form generic in what
// values move would stand in each theorem of it.
#[derive(Clone, Copy, Debug, Default, PartialEq, Eq)]
pub struct BothSums {
    pub s00: u64,
    pub s10: u64,
    pub s20: u64,
    pub low: ValueSums,
    pub high: ValueSums,
}

// A running record of each, with the same edges and passes. Beside RunningSums, as BothSums beside PowerSums: a record generic in its sums would put
// its parameter into each theorem of the single one.
#[derive(Clone, Copy, Debug, Default, PartialEq, Eq)]
pub struct BothRecord {
    pub left: usize,
    pub right: usize,
    pub sums: BothSums,
    pub passes: u64,
}

impl From<PowerSums> for ValueSums {
    ghost use Rattle.arithmetic.specs.Both.{value_sums};

    ghost from_gives = { λ s r. r ≡ value_sums s };

    fn from(s: PowerSums) -> ValueSums {
        ValueSums {
            s01: s.s01,
            s11: s.s11,
            s21: s.s21,
        }
    }
}

impl BothSums {
    // The six sums of one side, of which these are the three that values move.
    pub(crate) fn six(self, side: ValueSums) -> PowerSums
        ensures { result ≡ side_sums self side }
    {
        PowerSums {
            s00: self.s00,
            s10: self.s10,
            s20: self.s20,
            s01: side.s01,
            s11: side.s11,
            s21: side.s21,
        }
    }
}

impl BothRecord {
    // The record of one side.
    pub(crate) fn side(self, side: ValueSums) -> RunningSums
        ensures { result ≡ side_record self side }
    {
        RunningSums {
            left: self.left,
            right: self.right,
            sums: self.sums.six(side),
            passes: self.passes,
        }
    }
}

// Both together, the sums without values taken from the lows.
pub(crate) fn side_by_side(low: PowerSums, high: PowerSums) -> BothSums
    ensures { result ≡ beside low high }
{
    BothSums {
        s00: low.s00,
        s10: low.s10,
        s20: low.s20,
        low: ValueSums::from(low),
        high: ValueSums::from(high),
    }
}

// With one reading taken in or let go.
pub fn range_changed<C: Change>(s: BothSums, time: u16, low: u16, high: u16) -> BothSums
    ensures { RangeJoined C.op s time low high result }
{
    let below = sample_changed::<C>(s.six(s.low), time, low);
    let above = sample_changed::<C>(s.six(s.high), time, high);
    side_by_side(below, above)
}

// The row of both records at a mark with any half width.
pub fn both_row(running: BothRecord, mark: Mark) -> RangeEstimate
    ensures { RowOfBoth running mark.point mark.bandwidth result }
{
    let low = record_row(running.side(running.sums.low), mark);
    let high = record_row(running.side(running.sums.high), mark);
    RangeEstimate {
        left: low.left,
        right: low.right,
        weight: low.weight,
        sum: Bounds {
            low: low.sum,
            high: high.sum,
        },
        value: Bounds {
            low: low.value,
            high: high.value,
        },
    }
}
