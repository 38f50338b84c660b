// The edges and the row of one mark's window, for ordered minutes.
ghost use Rattle.std.specs.Prelude.{◌≡◌};
ghost use Rattle.meanings.specs.Lists.{Ordered};
ghost use Rattle.meanings.specs.Estimate.{estimate};
ghost use Rattle.meanings.proofs.Checks.{EvaluateAccepted};
ghost use Rattle.regression.specs.Rows.{IsSpan};

use crate::estimator::of_16_bits;
use crate::estimator::sums::run_changed;
use arithmetic::row::record_row;
use arithmetic::sums::Plus;
use arithmetic::values::{first_at_least, lowest_minute};
use meanings::{Estimate, Mark, PowerSums, Readings, RunningSums};

// A window's run: positions left up to but without right.
#[derive(Clone, Copy, Debug, PartialEq, Eq)]
pub(crate) struct Span {
    pub(crate) left: usize,
    pub(crate) right: usize,
}

pub(crate) fn span_at(minutes: &[u16], mark: Mark) -> Span
    requires { Ordered minutes.now }
    ensures { IsSpan minutes.now mark.point mark.bandwidth result }
{
    let over = mark.point as u64 + mark.bandwidth as u64 + 1;
    let right = first_at_least(minutes, over);
    let left = first_at_least(minutes, lowest_minute(mark));
    Span { left, right }
}

pub(crate) fn estimate_at(readings: Readings, mark: Mark) -> Estimate
    requires { EvaluateAccepted readings.minutes.now readings.values.now mark.bandwidth }
    ensures { result ≡ estimate readings.entry.minutes.now readings.entry.values.now mark.point mark.bandwidth }
{
    of_16_bits(readings.minutes);
    of_16_bits(readings.values);
    let span = span_at(readings.minutes, mark);
    let sums = run_changed::<Plus>(PowerSums::default(), readings, span.left, span.right);
    let window = RunningSums {
        left: span.left,
        right: span.right,
        sums,
        passes: 0,
    };
    record_row(window, mark)
}
