// The strips of marks' windows, by search among a direction's cuts. Every function takes every input.

ghost use Rattle.std.specs.Prelude.{map};
ghost use Rattle.boxes.specs.Windows.{WindowsTried};

use crate::cuts::{Coordinate, left_cut, place, right_cut};
use meanings::boxes::{AxisMarks, Window};

// Stores for each mark the place of its left cut and the place of the cut behind its right edge, among cuts that are moved up by `SHIFT`. Lists that
// are too short stay as they are.
pub(crate) fn put_windows<C: Coordinate>(marks: AxisMarks<C>, cuts: &[u64], windows: &mut [Window])
    ensures { WindowsTried (map C.number marks.entry.points.now) marks.entry.bandwidths.now C.SHIFT cuts.now windows.old windows.new }
{
    if marks.bandwidths.len() < marks.points.len() || windows.len() < marks.points.len() {
        return;
    }
    for (i, point) in marks.points.iter().enumerate() {
        let point = point.number();
        windows[i] = Window {
            first: place(cuts, left_cut(point, marks.bandwidths[i], C::SHIFT)),
            end: place(cuts, right_cut(point, marks.bandwidths[i], C::SHIFT)),
        };
    }
}
