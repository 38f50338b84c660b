// The text of lists of either kind, with rows of its own, as bytes in a lent buffer. Every public function takes every input.

ghost use Rattle.meanings.specs.declared.ranges.Kind.TheVariants.{Plain, Ranges as RangesKind};
ghost use Rattle.text.specs.KindText.{KindWritten};

use crate::plain::swept_text;
use crate::ranges::swept_ranges_text;
use meanings::ranges::{Kind, RANGE_ROW_WIDTH, Ranges};
use meanings::{Marks, ROW_WIDTH, Readings, Refusal};

// For no more marks is there room.
const MOST_MARKS: usize = 512;

// The text of lists with one value a reading. In a function of its own, as that of ranges: of one for any width the length of the rows
// would be computed from a const parameter, which the language lacks, and in one match over the kind the compiler clears the rows of both. One
// list of the greater width would be cleared for plain sheets too, 8 KB more than theirs.
pub(crate) fn plain_text(readings: Readings, marks: Marks, out: &mut [u8]) -> Result<usize, Refusal>
    ensures { KindWritten Plain readings.entry.minutes.now readings.entry.values.now readings.entry.values.now marks.entry.points.now marks.entry.bandwidths.now out.old result out.new }
{
    let mut rows = [0u64; ROW_WIDTH * MOST_MARKS];
    let size = ROW_WIDTH * usize::min(marks.points.len(), MOST_MARKS);
    swept_text(readings, marks, &mut rows[..size], out)
}

// The same with ranges.
pub(crate) fn ranges_text(ranges: Ranges, marks: Marks, out: &mut [u8]) -> Result<usize, Refusal>
    ensures { KindWritten RangesKind ranges.entry.minutes.now ranges.entry.lows.now ranges.entry.highs.now marks.entry.points.now marks.entry.bandwidths.now out.old result out.new }
{
    let mut rows = [0u64; RANGE_ROW_WIDTH * MOST_MARKS];
    let size = RANGE_ROW_WIDTH * usize::min(marks.points.len(), MOST_MARKS);
    swept_ranges_text(ranges, marks, &mut rows[..size], out)
}

// Sweeps lists of this kind and writes their curve into a buffer of MAX_OUTPUT bytes. What the buffer or the sweep is refused for is the answer; the
// buffer then stays as it was. Of a plain kind the highs are not looked at. Over 512 marks there is no room for the rows, and the answer is 8.
// The kind is a value of the sheet, so a match chooses.
pub fn kind_text(kind: Kind, ranges: Ranges, marks: Marks, out: &mut [u8]) -> Result<usize, Refusal>
    ensures { KindWritten kind ranges.entry.minutes.now ranges.entry.lows.now ranges.entry.highs.now marks.entry.points.now marks.entry.bandwidths.now out.old result out.new }
{
    let readings = Readings {
        minutes: ranges.minutes,
        values: ranges.lows,
    };
    match kind {
        Kind::Plain => plain_text(readings, marks, out),
        Kind::Ranges => ranges_text(ranges, marks, out),
    }
}
