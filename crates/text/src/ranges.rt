// The text of a curve over ranges, as bytes in a lent buffer.

mod curve;

ghost use Rattle.std.specs.Prelude.{◌≡◌};
ghost use Rattle.meanings.specs.Calls.{answer_of};
ghost use Rattle.meanings.specs.ranges.RangeOutput.{text_size, text_front};
ghost use Rattle.text.specs.RangeTable.{ranges_swept, ranges_rows};

use crate::ranges::curve::put_range_curve;
use meanings::ranges::Ranges;
use meanings::{MAX_OUTPUT, Marks, Refusal, Report};
use regression::estimator::of_16_bits;
use regression::ranges::smooth_ranges;

// Sweeps the lists and writes their curve into a buffer of MAX_OUTPUT bytes, which no curve exceeds. A buffer of another length is refused with 8
// before the sweep, and what the sweep refuses with its report; the buffer and the rows then stay as they were.
#[tactic(auto, unfolding(crate::specs::RangeTable::ranges_swept, crate::specs::RangeTable::ranges_rows, meanings::specs::ranges::Ranges::smooth_ranges), using(crate::proofs::RangesSwept::even_points, crate::proofs::RangesSwept::seven_a_mark, crate::proofs::RangesSwept::text_fits))]
pub fn swept_ranges_text(
    ranges: Ranges,
    marks: Marks,
    rows: &mut [u64],
    out: &mut [u8],
) -> Result<usize, Refusal>
    ensures result_value { answer_of result ≡ text_size (ranges_swept ranges.entry.minutes.now ranges.entry.lows.now ranges.entry.highs.now marks.entry.points.now marks.entry.bandwidths.now rows.old out.old) }
    ensures rows_after { rows.new ≡ ranges_rows ranges.entry.minutes.now ranges.entry.lows.now ranges.entry.highs.now marks.entry.points.now marks.entry.bandwidths.now rows.old out.old }
    ensures out_after { out.new ≡ text_front (ranges_swept ranges.entry.minutes.now ranges.entry.lows.now ranges.entry.highs.now marks.entry.points.now marks.entry.bandwidths.now rows.old out.old) out.old }
{
    of_16_bits(ranges.minutes);
    of_16_bits(ranges.lows);
    of_16_bits(ranges.highs);
    of_16_bits(marks.points);
    if out.len() != MAX_OUTPUT {
        return Err(Report::LengthMismatch.at(0));
    }
    let passes = smooth_ranges(ranges, marks, rows)?;
    put_range_curve(out, ranges.minutes.len(), marks, rows, passes).ok_or(Report::LengthMismatch.at(
        0,
    ))
}
