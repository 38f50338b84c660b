// The text of a sheet of either kind, written over the sheet.

ghost use Rattle.std.specs.Prelude.{◌≡◌, ◌≤◌, take};
ghost use Rattle.meanings.specs.Calls.{answer_of};
ghost use Rattle.meanings.specs.Limits.{max_output};
ghost use Rattle.meanings.specs.ranges.RangeOutput.{write_either, write_either_buffer};
ghost use Rattle.text.specs.SheetText.{SheetWritten};

use crate::from_sheet::lists_text;
use meanings::{MAX_OUTPUT, Refusal, Report};
use sheet::scan::SheetLists;

// The text of the sheet that is the first `size` bytes of the buffer, over them: once it is read into the lists, its bytes are not looked at again.
// Buffer and size stay two parameters, here and in the program: memory is fixed, and the sheet lies at the front of the buffer that its text is written over.
#[tactic(auto, unfolding(meanings::specs::ranges::RangeOutput::write_either, meanings::specs::ranges::RangeOutput::write_either_buffer))]
pub(crate) fn sheet_text_over(buf: &mut [u8; MAX_OUTPUT], size: usize) -> Result<usize, Refusal>
    requires { size ≤ max_output }
    ensures { SheetWritten (take size buf.old) buf.old result buf.new }
{
    let mut lists = SheetLists::new();
    let used = lists.scan(&buf[..size])?;
    lists_text(&lists, used, buf)
}

// Writes the curve of the sheet that is the first `size` bytes of a buffer of MAX_OUTPUT bytes, all of them where they are fewer, over that sheet. A
// buffer of another length is refused with 8, and a refused sheet with its own report; the buffer then stays as it was.
#[tactic(auto, unfolding(meanings::specs::ranges::RangeOutput::write_either, meanings::specs::ranges::RangeOutput::write_either_buffer), using(crate::proofs::Sheets::all_of_it))]
pub fn curve_text_over(buf: &mut [u8], size: usize) -> Result<usize, Refusal>
    ensures result_value { answer_of result ≡ write_either (take size buf.old) buf.old }
    ensures buf_after { buf.new ≡ write_either_buffer (take size buf.old) buf.old }
{
    let buf = buf.as_mut_array().ok_or(Report::LengthMismatch.at(0))?;
    if MAX_OUTPUT < size {
        return sheet_text_over(buf, MAX_OUTPUT);
    }
    sheet_text_over(buf, size)
}
