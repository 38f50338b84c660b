// Half widths by neighbours: each mark's half width is one more than the distance of its K-th nearest reading, and the sweep is made with these.

mod nearest;

ghost use Rattle.std.specs.Prelude.{◌≡◌};
ghost use Rattle.meanings.specs.Calls.{answer_of, smooth as smooth_meaning, smooth_rows};
ghost use Rattle.meanings.specs.Reports.{verdict_fault, first_of};
ghost use Rattle.meanings.specs.Limits.{full as full_limits};
ghost use Rattle.meanings.specs.neighbours.Neighbours.{neighbours as neighbours_meaning, neighbours_checks, bandwidths_then, rows_then};

use checks::full;
use checks::neighbours::neighbours_fault;
use meanings::{Marks, Readings, Refusal};
use regression::estimator::of_16_bits;
use regression::sweep::smooth;

// What the call is refused for, at the full limits. It and the next function make the marks: a caller that lends the half widths to be written cannot:
// marks beside half widths that are lent anew were tried, and the borrow checker doesn't cover them.
fn judged(
    readings: Readings,
    points: &[u16],
    k: usize,
    bandwidths: &[u32],
    rows: usize,
) -> Result<(), Refusal>
    ensures { verdict_fault result ≡ first_of (neighbours_checks full_limits readings.entry.minutes.now readings.entry.values.now points.now k bandwidths.now rows) }
{
    neighbours_fault(readings, Marks { points, bandwidths }, k, rows, full())
}

// The sweep with marks and half widths in two lists.
fn swept(
    readings: Readings,
    points: &[u16],
    bandwidths: &[u32],
    rows: &mut [u64],
) -> Result<u64, Refusal>
    ensures result_value { answer_of result ≡ smooth_meaning full_limits readings.entry.minutes.now readings.entry.values.now points.now bandwidths.now rows.old }
    ensures rows_after { rows.new ≡ smooth_rows full_limits readings.entry.minutes.now readings.entry.values.now points.now bandwidths.now rows.old }
{
    smooth(readings, Marks { points, bandwidths }, rows)
}

// Fills in the half width of each mark by its k nearest readings, and the rows with them; or answers with the report, both lists as they were.
#[tactic(auto, unfolding(meanings::specs::neighbours::Neighbours::neighbours, meanings::specs::neighbours::Neighbours::bandwidths_then, meanings::specs::neighbours::Neighbours::rows_then))]
pub fn neighbours(
    readings: Readings,
    points: &[u16],
    k: usize,
    bandwidths: &mut [u32],
    rows: &mut [u64],
) -> Result<(), Refusal>
    ensures result_value { answer_of result ≡ neighbours_meaning full_limits readings.entry.minutes.now readings.entry.values.now points.now k bandwidths.old rows.old }
    ensures bandwidths_after { bandwidths.new ≡ bandwidths_then full_limits readings.entry.minutes.now readings.entry.values.now points.now k bandwidths.old rows.old }
    ensures rows_after { rows.new ≡ rows_then full_limits readings.entry.minutes.now readings.entry.values.now points.now k bandwidths.old rows.old }
{
    judged(readings, points, k, bandwidths, rows.len())?;
    of_16_bits(readings.minutes);
    nearest::put_bandwidths(readings.minutes, points, k, bandwidths);
    // Never refused: with marks in order no edge of these half widths goes back, and none is out of range.
    swept(readings, points, bandwidths, rows)?;
    Ok(())
}
