// The text of a curve, as bytes in a lent buffer.

mod curve;

ghost use Rattle.std.specs.Prelude.{◌≡◌};
ghost use Rattle.meanings.specs.Calls.{answer_of};
ghost use Rattle.meanings.specs.Output.{curve_text};
ghost use Rattle.meanings.specs.Calls.{curve_size, filled_front};
ghost use Rattle.text.specs.Table.{lists_swept, lists_rows};

use crate::plain::curve::put_curve;
use meanings::{MAX_OUTPUT, Marks, Readings, Refusal, Report};
use regression::estimator::of_16_bits;
use regression::sweep::smooth;

// Sweeps the lists and writes their curve into a buffer of MAX_OUTPUT bytes, which no curve exceeds. A buffer of another length is refused with 8
// before the sweep, and what the sweep refuses with its report; the buffer and the rows then stay as they were.
#[tactic(auto, unfolding(crate::specs::Table::lists_swept, crate::specs::Table::lists_rows, meanings::specs::Calls::smooth), using(crate::proofs::PlainSwept::even_points, crate::proofs::PlainSwept::five_a_mark, crate::proofs::PlainSwept::text_fits))]
pub fn swept_text(
    readings: Readings,
    marks: Marks,
    rows: &mut [u64],
    out: &mut [u8],
) -> Result<usize, Refusal>
    ensures result_value { answer_of result ≡ curve_size (lists_swept readings.entry.minutes.now readings.entry.values.now marks.entry.points.now marks.entry.bandwidths.now rows.old out.old) }
    ensures rows_after { rows.new ≡ lists_rows readings.entry.minutes.now readings.entry.values.now marks.entry.points.now marks.entry.bandwidths.now rows.old out.old }
    ensures out_after { out.new ≡ filled_front (lists_swept readings.entry.minutes.now readings.entry.values.now marks.entry.points.now marks.entry.bandwidths.now rows.old out.old) curve_text out.old }
{
    of_16_bits(readings.minutes);
    of_16_bits(readings.values);
    of_16_bits(marks.points);
    if out.len() != MAX_OUTPUT {
        return Err(Report::LengthMismatch.at(0));
    }
    let passes = smooth(readings, marks, rows)?;
    put_curve(out, readings.minutes.len(), marks, rows, passes).ok_or(Report::LengthMismatch.at(0))
}
