// The reading lines of a sheet of either kind. Every public function takes every input. Beside samples.rt, for the reason there.

ghost use Rattle.std.specs.Prelude.{◌≤◌, length};
ghost use Rattle.sheet.specs.ReadingsStages.{ReadingTried, ReadingsFound, ReadingsOutcome};

use crate::range_values::reading_line;
use crate::values::{Progress, early};
use meanings::ranges::Kind;
use meanings::{Refusal, Report};

// Stores the reading of a line's text, which begins at byte `place`, behind those that are kept, if it is kept too, or says what the line earns: 3, 4, 15, 6.
// Text and place stay two, since one is looked at and the other only told. The three lists stay parameters of their own: in a struct of lent lists each
// contract would name the loan of each list once more.
pub(crate) fn store_reading(
    kind: Kind,
    text: &[u8],
    place: usize,
    minutes: &mut [u16; 1024],
    lows: &mut [u16; 1024],
    highs: &mut [u16; 1024],
    so_far: Progress,
) -> Result<Progress, Refusal>
    requires { so_far.count ≤ 1024 }
    ensures { ReadingTried kind text.now place minutes.old lows.old highs.old so_far result minutes.new lows.new highs.new }
{
    let Some(line) = reading_line(kind, text) else {
        return Err(Report::MalformedLine.at(place));
    };
    if early(line.minute, so_far.last) {
        return Err(Report::SampleOutOfOrder.at(place));
    }
    if line.high < line.low {
        return Err(Report::CrossedRange.at(place));
    }
    let count = so_far.count;
    let last = Some(line.minute);
    if line.injection <= 2 {
        return Ok(Progress { count, last });
    }
    if 1024 <= count {
        return Err(Report::TooMany.at(place));
    }
    minutes[count] = line.minute;
    lows[count] = line.low;
    highs[count] = line.high;
    Ok(Progress {
        count: count + 1,
        last,
    })
}

// The reading lines from byte `from` on, to the sheet's end, into lists of full length: how many readings are kept.
#[tactic(auto, using(crate::proofs::ReadingLoop::reading_lines))]
pub(crate) fn scan_readings(
    sheet: &[u8],
    from: usize,
    kind: Kind,
    minutes: &mut [u16; 1024],
    lows: &mut [u16; 1024],
    highs: &mut [u16; 1024],
) -> Result<usize, Refusal>
    ensures { ReadingsFound sheet.now from kind result minutes.new lows.new highs.new }
{
    let mut at = from;
    let mut so_far = Progress {
        count: 0,
        last: None,
    };
    while let Some(line) = crate::lines::find_line(sheet, at) {
        so_far = store_reading(kind, &sheet[at..line.end], at, minutes, lows, highs, so_far)?;
        at = line.next;
    }
    if at < sheet.len() {
        return Err(Report::MalformedLine.at(at));
    }
    Ok(so_far.count)
}

// The same for lists of any lengths. What the lists hold after a refusal is left open: they are a reader's own.
#[tactic(auto, unfolding(crate::specs::ReadingsStages::readings_call), using(meanings::proofs::Checks::differ_same, meanings::proofs::Checks::differ_true))]
pub(crate) fn read_readings(
    sheet: &[u8],
    from: usize,
    kind: Kind,
    minutes: &mut [u16],
    lows: &mut [u16],
    highs: &mut [u16],
) -> Result<usize, Refusal>
    ensures { ReadingsOutcome sheet.now from kind (length minutes.old) (length lows.old) (length highs.old) result minutes.new lows.new highs.new }
{
    let uneven = Report::LengthMismatch.at(0);
    let minutes = minutes.as_mut_array().ok_or(uneven)?;
    let lows = lows.as_mut_array().ok_or(uneven)?;
    let highs = highs.as_mut_array().ok_or(uneven)?;
    scan_readings(sheet, from, kind, minutes, lows, highs)
}
