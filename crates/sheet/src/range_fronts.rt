// Fronts of the five lists of a sheet of either kind.

ghost use Rattle.std.specs.Prelude.{◌≡◌, length};
ghost use Rattle.sheet.specs.Copied.{copied};

use crate::list_fronts::copy_front;
use meanings::Marks;
use meanings::ranges::Ranges;

// Stores the kept readings at the fronts of the lent lists. Those to be written stay apart, as C lends them.
pub(crate) fn put_samples(ranges: Ranges, minutes: &mut [u16], lows: &mut [u16], highs: &mut [u16])
    ensures minutes_after { minutes.new ≡ copied ranges.entry.minutes.now (length ranges.entry.minutes.now) minutes.old }
    ensures lows_after { lows.new ≡ copied ranges.entry.lows.now (length ranges.entry.lows.now) lows.old }
    ensures highs_after { highs.new ≡ copied ranges.entry.highs.now (length ranges.entry.highs.now) highs.old }
{
    copy_front(ranges.minutes, minutes);
    copy_front(ranges.lows, lows);
    copy_front(ranges.highs, highs);
}

// And the marks with their half widths.
pub fn put_points(marks: Marks, points: &mut [u16], bandwidths: &mut [u32])
    ensures points_after { points.new ≡ copied marks.entry.points.now (length marks.entry.points.now) points.old }
    ensures bandwidths_after { bandwidths.new ≡ copied marks.entry.bandwidths.now (length marks.entry.bandwidths.now) bandwidths.old }
{
    copy_front(marks.points, points);
    copy_front(marks.bandwidths, bandwidths);
}
