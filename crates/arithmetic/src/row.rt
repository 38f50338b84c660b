// The row that a running record of any origin gives. The function takes every input.

ghost use Rattle.std.specs.Prelude.{◌≡◌};
ghost use Rattle.meanings.specs.Running.{record_row};

use crate::products::wrapping_combined;
use crate::values::value;
use meanings::{Estimate, Mark, RunningSums};

// The row of a record of any origin at a mark with any half width: its edges, and the formulas over its six sums modulo 2^64.
// The row over ranges is two of these, of the lows and of the highs.
#[tactic(auto, unfolding(meanings::specs::Running::record_row))]
pub fn record_row(running: RunningSums, mark: Mark) -> Estimate
    ensures { result ≡ record_row running mark.point mark.bandwidth }
{
    let s = running.sums;
    let weight = wrapping_combined(s.s00, s.s10, s.s20, mark);
    let sum = wrapping_combined(s.s01, s.s11, s.s21, mark);
    Estimate {
        left: running.left as u64,
        right: running.right as u64,
        weight,
        sum,
        value: value(sum, weight),
    }
}
