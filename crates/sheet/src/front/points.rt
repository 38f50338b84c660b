// The mark lines of the sheet.
ghost use Rattle.std.specs.Prelude.{◌≡◌, ◌≤◌, length};
ghost use Rattle.sheet.specs.FrontStages.{below_last, edge_below_last, PointChecked, PointTried, PointsFound};

use checks::{edge_below, out_of_range};
use meanings::{Mark, Marks, Refusal, Report};

// What the mark lines give: how many there are and where the line after the empty line begins.
#[derive(Clone, Copy, Debug, PartialEq, Eq)]
pub struct Front {
    pub count: usize,
    pub next: usize,
}

// Whether a mark is below the last of these.
#[tactic(auto, using(crate::proofs::Lasts::no_last_below, crate::proofs::Lasts::last_below))]
pub(crate) fn below_last(points: &[u16], point: u16) -> bool
    ensures { result ≡ below_last points.now point }
{
    points.last().is_some_and(|last| point < *last)
}

// Whether an edge of a mark is below that of the last of these.
#[tactic(auto, using(crate::proofs::Lasts::no_last_edge_below, crate::proofs::Lasts::last_edge_below))]
pub(crate) fn edge_below_last(marks: Marks, mark: Mark) -> bool
    requires { length marks.points.now ≡ length marks.bandwidths.now }
    ensures { result ≡ edge_below_last marks.entry.points.now marks.entry.bandwidths.now mark }
{
    let last = marks.points.last().zip(marks.bandwidths.last());
    last.is_some_and(|(point, bandwidth)| {
        let before = Mark {
            point: *point,
            bandwidth: *bandwidth,
        };
        edge_below(mark, before)
    })
}

// What the line of a mark at byte `place` earns after these marks: 5, 9, 10, 6.
#[tactic(auto, using(crate::proofs::Lasts::point_falls, crate::proofs::Lasts::bandwidth_off, crate::proofs::Lasts::edge_falls, crate::proofs::Lasts::points_full, crate::proofs::Lasts::point_fits))]
pub(crate) fn point_fault(marks: Marks, mark: Mark, place: usize) -> Result<(), Refusal>
    requires { length marks.points.now ≡ length marks.bandwidths.now }
    ensures { PointChecked place marks.entry.points.now marks.entry.bandwidths.now mark result }
{
    if below_last(marks.points, mark.point) {
        return Err(Report::PointOutOfOrder.at(place));
    }
    if out_of_range(mark.bandwidth) {
        return Err(Report::BandwidthOutOfRange.at(place));
    }
    if edge_below_last(marks, mark) {
        return Err(Report::EdgeDecreases.at(place));
    }
    if 512 <= marks.points.len() {
        return Err(Report::TooMany.at(place));
    }
    Ok(())
}

// Stores the mark of a line's text, which begins at byte `place`, behind the first `count`, or says what the line earns. Text and place stay two, since one is
// looked at and the other only told. The two lists stay parameters of their own: in a struct of lent lists each contract would name the loan of each list once
// more.
#[tactic(auto, using(crate::proofs::Lasts::point_room))]
pub(crate) fn store_point(
    text: &[u8],
    place: usize,
    points: &mut [u16; 512],
    bandwidths: &mut [u32; 512],
    count: usize,
) -> Result<(), Refusal>
    requires { count ≤ 512 }
    ensures { PointTried text.now place points.old bandwidths.old count result points.new bandwidths.new }
{
    let Some(mark) = crate::values::point_line(text) else {
        return Err(Report::MalformedLine.at(place));
    };
    let marks = Marks {
        points: &points[..count],
        bandwidths: &bandwidths[..count],
    };
    point_fault(marks, mark, place)?;
    points[count] = mark.point;
    bandwidths[count] = mark.bandwidth;
    Ok(())
}

// The mark lines from byte `from` on, to the empty line.
#[tactic(auto, using(crate::proofs::PointLoop::reading_points))]
pub(crate) fn read_points(
    sheet: &[u8],
    from: usize,
    points: &mut [u16; 512],
    bandwidths: &mut [u32; 512],
) -> Result<Front, Refusal>
    ensures { PointsFound sheet.now from result points.new bandwidths.new }
{
    let mut at = from;
    let mut count = 0;
    while let Some(line) = crate::lines::find_line(sheet, at) {
        if line.end == at {
            if count == 0 {
                return Err(Report::NoPoints.at(at));
            }
            return Ok(Front {
                count,
                next: line.next,
            });
        }
        store_point(&sheet[at..line.end], at, points, bandwidths, count)?;
        count += 1;
        at = line.next;
    }
    Err(Report::MalformedLine.at(at))
}
