// The text of a sheet of either kind, as bytes in a lent buffer.

ghost use Rattle.std.specs.Prelude.{◌≡◌, take};
ghost use Rattle.meanings.specs.Calls.{answer_of};
ghost use Rattle.meanings.specs.ranges.RangeOutput.{write_either, write_either_buffer};
ghost use Rattle.text.specs.KindText.{KindWritten};
ghost use Rattle.text.specs.SheetText.{SheetWritten};

use crate::kind::kind_text;
use meanings::ranges::{RangeCounts, Ranges};
use meanings::{MAX_OUTPUT, Marks, Refusal, Report};
use sheet::scan::SheetLists;

// Writes the text of the used parts of these lists, a list being used whole where it has fewer. What the sweep refuses is the answer.
#[tactic(auto, using(crate::proofs::UsedParts::used_part))]
pub(crate) fn lists_text(
    lists: &SheetLists,
    used: RangeCounts,
    out: &mut [u8; MAX_OUTPUT],
) -> Result<usize, Refusal>
    ensures { KindWritten used.kind (take used.samples lists.now.minutes) (take used.samples lists.now.lows) (take used.samples lists.now.highs) (take used.points lists.now.points) (take used.points lists.now.bandwidths) out.old result out.new }
{
    let samples = usize::min(used.samples, 1024);
    let points = usize::min(used.points, 512);
    let ranges = Ranges {
        minutes: &lists.minutes[..samples],
        lows: &lists.lows[..samples],
        highs: &lists.highs[..samples],
    };
    let marks = Marks {
        points: &lists.points[..points],
        bandwidths: &lists.bandwidths[..points],
    };
    kind_text(used.kind, ranges, marks, out)
}

// The text of a sheet, whose lists are the function's own, or its report.
#[tactic(auto, unfolding(meanings::specs::ranges::RangeOutput::write_either, meanings::specs::ranges::RangeOutput::write_either_buffer))]
pub(crate) fn sheet_text(sheet: &[u8], out: &mut [u8; MAX_OUTPUT]) -> Result<usize, Refusal>
    ensures { SheetWritten sheet.now out.old result out.new }
{
    let mut lists = SheetLists::new();
    let used = lists.scan(sheet)?;
    lists_text(&lists, used, out)
}

// Writes the curve of a sheet into a buffer of MAX_OUTPUT bytes, which no curve exceeds. A buffer of another length is refused with 8, and a
// refused sheet with its own report; the buffer then stays as it was.
#[tactic(auto, unfolding(meanings::specs::ranges::RangeOutput::write_either, meanings::specs::ranges::RangeOutput::write_either_buffer))]
pub fn curve_text(sheet: &[u8], out: &mut [u8]) -> Result<usize, Refusal>
    ensures result_value { answer_of result ≡ write_either sheet.now out.old }
    ensures out_after { out.new ≡ write_either_buffer sheet.now out.old }
{
    let out = out.as_mut_array().ok_or(Report::LengthMismatch.at(0))?;
    sheet_text(sheet, out)
}
