// The front of the tank sheet, up to its second header line: the marks with their half widths, or the report. Every public function takes every
// input.

pub mod points;

ghost use Rattle.std.specs.Prelude.{length};
ghost use Rattle.sheet.specs.FrontStages.{HeaderTried, FrontFound, FrontOutcome};

use crate::front::points::Front;
use meanings::{Refusal, Report};

// Passes the header line at byte `from`, if it is that.
#[tactic(auto, using(crate::proofs::FrontLineSteps::reading_header))]
pub(crate) fn skip_header(sheet: &[u8], from: usize, names: &[u8]) -> Option<usize>
    ensures { HeaderTried names.now sheet.now from result }
{
    let line = crate::lines::find_line(sheet, from)?;
    if crate::lines::same_text(&sheet[from..line.end], names) {
        return Some(line.next);
    }
    None
}

// Reads the front into lists of full length.
#[tactic(auto, using(crate::proofs::Fronts::too_long, crate::proofs::Fronts::no_point_header, crate::proofs::Fronts::points_follow))]
pub(crate) fn scan_front(
    sheet: &[u8],
    points: &mut [u16; 512],
    bandwidths: &mut [u32; 512],
) -> Result<Front, Refusal>
    ensures { FrontFound sheet.now result points.new bandwidths.new }
{
    if 32768 < sheet.len() {
        return Err(Report::TooLong.at(32768));
    }
    let Some(first) = skip_header(sheet, 0, b"mark,half") else {
        return Err(Report::BadHeader.at(0));
    };
    crate::front::points::read_points(sheet, first, points, bandwidths)
}

// The same for lists of any lengths. What the lists hold after a refusal is left open: they are a reader's own.
#[tactic(auto, unfolding(crate::specs::FrontStages::front_call), using(meanings::proofs::Checks::differ_same, meanings::proofs::Checks::differ_true))]
pub(crate) fn read_front(
    sheet: &[u8],
    points: &mut [u16],
    bandwidths: &mut [u32],
) -> Result<Front, Refusal>
    ensures { FrontOutcome sheet.now (length points.old) (length bandwidths.old) result points.new bandwidths.new }
{
    let uneven = Report::LengthMismatch.at(0);
    let points = points.as_mut_array().ok_or(uneven)?;
    let bandwidths = bandwidths.as_mut_array().ok_or(uneven)?;
    scan_front(sheet, points, bandwidths)
}
