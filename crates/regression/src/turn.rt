// The turn: a running record moved to any window, its edges forth or back.

mod edges;
mod window;

ghost use Rattle.std.specs.Prelude.{◌≡◌};
ghost use Rattle.meanings.specs.Reports.{verdict_fault};
ghost use Rattle.meanings.specs.Turn.{turn_refusal, turn_record};

use crate::turn::window::turned_record;
use checks::full;
use checks::point::turn_fault;
use meanings::{Mark, Readings, Refusal, RunningSums, Turning};

// The turn of the one record that the caller holds: at exit it is the turned one, or what it was where the turn is refused.
#[tactic(auto, unfolding(meanings::specs::Turn::turn_record))]
pub fn turn(running: &mut RunningSums, readings: Readings, mark: Mark) -> Result<(), Refusal>
    ensures { (verdict_fault result ≡ turn_refusal readings.entry.minutes.now readings.entry.values.now running.old mark.bandwidth) × (running.new ≡ turn_record readings.entry.minutes.now readings.entry.values.now running.old mark.point mark.bandwidth) }
{
    let held = *running;
    turn_fault(readings, &held, mark.bandwidth, full())?;
    *running = turned_record(held, readings, mark);
    Ok(())
}

// The same by value, through that call: it lends a record of its own. Both are promised to callers.
pub fn turn_own(running: RunningSums, readings: Readings, mark: Mark) -> Turning
    ensures { (verdict_fault result.verdict ≡ turn_refusal readings.entry.minutes.now readings.entry.values.now running mark.bandwidth) × (result.running ≡ turn_record readings.entry.minutes.now readings.entry.values.now running mark.point mark.bandwidth) }
{
    let mut own = running;
    let verdict = turn(&mut own, readings, mark);
    Turning {
        running: own,
        verdict,
    }
}
