// The first mark at which the curve has a value at or below a limit: one step a mark from a fresh record, up to that mark and no further.

ghost use Rattle.std.specs.Prelude.{◌≡◌};
ghost use Rattle.meanings.specs.Calls.{answer_of};
ghost use Rattle.meanings.specs.Limits.{full as full_limits};
ghost use Rattle.meanings.proofs.SmoothSteps.{CurveAccepted};
ghost use Rattle.meanings.specs.limit.Crossing.{first_at_most};
ghost use Rattle.questions.specs.LimitSearch.{Searched};

use crate::threshold::at_or_below;
use checks::full;
use checks::sweep::curve_fault;
use meanings::limit::Located;
use meanings::{Mark, Marks, Readings, Refusal, RunningSums};
use regression::estimator::of_16_bits;
use regression::step::step_to;

// The search in accepted lists.
fn search(readings: Readings, marks: Marks, limit: u16) -> Located
    requires { CurveAccepted readings.minutes.now readings.values.now marks.points.now marks.bandwidths.now }
    ensures { Searched readings.entry.minutes.now readings.entry.values.now marks.entry.points.now marks.entry.bandwidths.now limit result }
{
    of_16_bits(readings.minutes);
    of_16_bits(readings.values);
    let mut running = RunningSums::default();
    for k in 0..marks.points.len() {
        let mark = Mark {
            point: marks.points[k],
            bandwidth: marks.bandwidths[k],
        };
        let reached = step_to(running, readings, mark);
        if at_or_below(limit, reached.row.weight, reached.row.value) {
            return Located {
                position: Some(k),
                passes: reached.running.right as u64 + reached.running.left as u64,
            };
        }
        running = reached.running;
    }
    Located {
        position: None,
        passes: running.right as u64 + running.left as u64,
    }
}

// The first mark that has a value of at most the limit, with the passes up to and with it; none with the passes of all marks; or
// the report that a sweep with room for its rows would give.
#[tactic(auto, unfolding(meanings::specs::limit::Crossing::first_at_most))]
pub fn first_at_most(readings: Readings, marks: Marks, limit: u16) -> Result<Located, Refusal>
    ensures { answer_of result ≡ first_at_most full_limits readings.entry.minutes.now readings.entry.values.now marks.entry.points.now marks.entry.bandwidths.now limit }
{
    curve_fault(readings, marks, false, full())?;
    Ok(search(readings, marks, limit))
}
