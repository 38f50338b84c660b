// The whole sweep and its preview: one step a mark from a fresh record, and a row after each. Readings and marks stay two parameters, here and in all calls
// over both: `pair` takes two tanks over one list of marks, and a question at one mark has readings and no list.

ghost use Rattle.std.specs.Prelude.{◌≡◌, ◌+◌, ◌*◌, ◌≤◌, length};
ghost use Rattle.meanings.specs.Calls.{answer_of};
ghost use Rattle.std.proofs.lemmas.List.Edits.{sets};
ghost use Rattle.meanings.specs.Limits.{full as full_limits, preview as small_limits, LimitsWithin, row_width};
ghost use Rattle.meanings.specs.Calls.{smooth as smooth_meaning, smooth_rows};
ghost use Rattle.meanings.specs.Estimate.{fields, rows as rows_meaning};
ghost use Rattle.meanings.specs.Moves.{moves};
ghost use Rattle.meanings.specs.Running.{fresh, passes};
ghost use Rattle.meanings.proofs.SmoothSteps.{SmoothAccepted};

use crate::estimator::of_16_bits;
use crate::step::step_to;
use checks::sweep::smooth_fault;
use checks::{full, preview_limits};
use meanings::{Estimate, Limits, Mark, Marks, ROW_WIDTH, Readings, Refusal, RunningSums};

// Stores the row of mark k. Beside the row of ranges, of seven numbers: of both only the width is the same question, so one function is no plainer.
// The rows are one flat list of the C interface. By From<Estimate> and copy_from_slice it was tried: the proof does not close without a law of a cut list.
fn put_row(rows: &mut [u64], k: usize, e: Estimate)
    requires { row_width * k + row_width ≤ length rows.old }
    ensures { rows.new ≡ sets rows.old (row_width * k) (fields e) }
{
    let at = ROW_WIDTH * k;
    rows[at] = e.left;
    rows[at + 1] = e.right;
    rows[at + 2] = e.weight;
    rows[at + 3] = e.sum;
    rows[at + 4] = e.value;
}

// Stores the rows of all marks and answers the passes: last right plus last left.
fn smooth_rows(readings: Readings, marks: Marks, rows: &mut [u64]) -> u64
    requires { SmoothAccepted readings.minutes.now readings.values.now marks.points.now marks.bandwidths.now (length rows.old) }
    ensures value { result ≡ passes readings.entry.minutes.now readings.entry.values.now fresh (moves marks.entry.points.now marks.entry.bandwidths.now) }
    ensures rows_after { rows.new ≡ rows_meaning readings.entry.minutes.now readings.entry.values.now marks.entry.points.now marks.entry.bandwidths.now (length marks.entry.points.now) }
{
    of_16_bits(readings.minutes);
    of_16_bits(readings.values);
    let mut running = RunningSums::default();
    for k in 0..marks.points.len() {
        let mark = Mark {
            point: marks.points[k],
            bandwidth: marks.bandwidths[k],
        };
        let reached = step_to(running, readings, mark);
        running = reached.running;
        put_row(rows, k, reached.row);
    }
    running.right as u64 + running.left as u64
}

// The sweep under limits at most the full ones: every check is made before the first row is stored.
#[tactic(auto, unfolding(meanings::specs::Calls::smooth, meanings::specs::Calls::smooth_rows))]
fn smooth_under(
    readings: Readings,
    marks: Marks,
    rows: &mut [u64],
    limits: Limits,
) -> Result<u64, Refusal>
    requires { LimitsWithin limits full_limits }
    ensures result_value { answer_of result ≡ smooth_meaning limits readings.entry.minutes.now readings.entry.values.now marks.entry.points.now marks.entry.bandwidths.now rows.old }
    ensures rows_after { rows.new ≡ smooth_rows limits readings.entry.minutes.now readings.entry.values.now marks.entry.points.now marks.entry.bandwidths.now rows.old }
{
    smooth_fault(readings, marks, rows.len(), limits)?;
    Ok(smooth_rows(readings, marks, rows))
}

// The whole sweep: rows receives five numbers a mark, and the answer is the passes, or the report, with rows as it was.
pub fn smooth(readings: Readings, marks: Marks, rows: &mut [u64]) -> Result<u64, Refusal>
    ensures result_value { answer_of result ≡ smooth_meaning full_limits readings.entry.minutes.now readings.entry.values.now marks.entry.points.now marks.entry.bandwidths.now rows.old }
    ensures rows_after { rows.new ≡ smooth_rows full_limits readings.entry.minutes.now readings.entry.values.now marks.entry.points.now marks.entry.bandwidths.now rows.old }
{
    smooth_under(readings, marks, rows, full())
}

// The preview on the panel: the same sweep under the preview's limits. Each of the two is a call of its own, and one line.
pub fn preview(readings: Readings, marks: Marks, rows: &mut [u64]) -> Result<u64, Refusal>
    ensures result_value { answer_of result ≡ smooth_meaning small_limits readings.entry.minutes.now readings.entry.values.now marks.entry.points.now marks.entry.bandwidths.now rows.old }
    ensures rows_after { rows.new ≡ smooth_rows small_limits readings.entry.minutes.now readings.entry.values.now marks.entry.points.now marks.entry.bandwidths.now rows.old }
{
    smooth_under(readings, marks, rows, preview_limits())
}
