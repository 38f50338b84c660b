// The reader of sheets of both kinds: from any bytes to the kept readings as ranges, the marks and the kind, or the report.

ghost use Rattle.std.specs.Prelude.{◌≡◌};
ghost use Rattle.meanings.specs.Limits.{full};
ghost use Rattle.meanings.specs.Calls.{answer_of};
ghost use Rattle.meanings.specs.ranges.RangeCalls.{range_counts, range_front, read_ranges, minutes_of, lows_of};
ghost use Rattle.meanings.specs.ranges.RangeCalls.{highs_of, points_of, bandwidths_of};
ghost use Rattle.sheet.specs.RangeReaderStages.{ReadInto, ReadLent};

use crate::range_fronts::{put_points, put_samples};
use crate::scan::SheetLists;
use meanings::ranges::{RangeCounts, Ranges};
use meanings::{Marks, Refusal, Report};

// Reads the sheet into lists of its own, so that a refusal leaves the lent ones as they were.
pub(crate) fn read_into(
    sheet: &[u8],
    minutes: &mut [u16; 1024],
    lows: &mut [u16; 1024],
    highs: &mut [u16; 1024],
    points: &mut [u16; 512],
    bandwidths: &mut [u32; 512],
) -> Result<RangeCounts, Refusal>
    ensures { ReadInto sheet.now minutes.old lows.old highs.old points.old bandwidths.old result minutes.new lows.new highs.new points.new bandwidths.new }
{
    let mut lists = SheetLists::new();
    let used = lists.scan(sheet)?;
    let n = used.samples;
    let ranges = Ranges {
        minutes: &lists.minutes[..n],
        lows: &lists.lows[..n],
        highs: &lists.highs[..n],
    };
    put_samples(ranges, minutes, lows, highs);
    let marks = Marks {
        points: &lists.points[..used.points],
        bandwidths: &lists.bandwidths[..used.points],
    };
    put_points(marks, points, bandwidths);
    Ok(used)
}

// The reader, for lent lists of any lengths: one of another length than the sheet asks is refused as it is taken for an array. Its contract is one record,
// since the check looks for each clause at each of the five refusals, beside long arrays.
fn read_lent(
    sheet: &[u8],
    minutes: &mut [u16],
    lows: &mut [u16],
    highs: &mut [u16],
    points: &mut [u16],
    bandwidths: &mut [u32],
) -> Result<RangeCounts, Refusal>
    ensures { ReadLent sheet.now minutes.old lows.old highs.old points.old bandwidths.old result minutes.new lows.new highs.new points.new bandwidths.new }
{
    let uneven = Report::LengthMismatch.at(0);
    let minutes = minutes.as_mut_array().ok_or(uneven)?;
    let lows = lows.as_mut_array().ok_or(uneven)?;
    let highs = highs.as_mut_array().ok_or(uneven)?;
    let points = points.as_mut_array().ok_or(uneven)?;
    let bandwidths = bandwidths.as_mut_array().ok_or(uneven)?;
    read_into(sheet, minutes, lows, highs, points, bandwidths)
}

// The same as equations with the meanings. Each list stays a parameter of its own, as C lends it.
pub fn read_ranges(
    sheet: &[u8],
    minutes: &mut [u16],
    lows: &mut [u16],
    highs: &mut [u16],
    points: &mut [u16],
    bandwidths: &mut [u32],
) -> Result<RangeCounts, Refusal>
    ensures result_value { answer_of result ≡ range_counts (read_ranges full sheet.now minutes.old lows.old highs.old points.old bandwidths.old) }
    ensures minutes_after { minutes.new ≡ range_front (read_ranges full sheet.now minutes.old lows.old highs.old points.old bandwidths.old) minutes_of minutes.old }
    ensures lows_after { lows.new ≡ range_front (read_ranges full sheet.now minutes.old lows.old highs.old points.old bandwidths.old) lows_of lows.old }
    ensures highs_after { highs.new ≡ range_front (read_ranges full sheet.now minutes.old lows.old highs.old points.old bandwidths.old) highs_of highs.old }
    ensures points_after { points.new ≡ range_front (read_ranges full sheet.now minutes.old lows.old highs.old points.old bandwidths.old) points_of points.old }
    ensures bandwidths_after { bandwidths.new ≡ range_front (read_ranges full sheet.now minutes.old lows.old highs.old points.old bandwidths.old) bandwidths_of bandwidths.old }
{
    read_lent(sheet, minutes, lows, highs, points, bandwidths)
}
