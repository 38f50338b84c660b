// The reader of the tank sheet: from any bytes to the kept readings and the marks, or the report.

ghost use Rattle.std.specs.Prelude.{◌≡◌};
ghost use Rattle.meanings.specs.Limits.{full};
ghost use Rattle.meanings.specs.Calls.{answer_of, counts, read, read_minutes, read_values, read_evaluation_points, read_bandwidths};
ghost use Rattle.sheet.specs.ReaderStages.{FullLists, Scanned, ReadInto, ReadLent};

use crate::front::read_front;
use crate::samples::read_samples;
use meanings::{Counts, Refusal, Report};

// The reader's own lists, which a sheet is read into before the lent ones are written.
#[derive(Drop)]
pub(crate) struct SheetLists {
    pub minutes: [u16; 1024],
    pub values: [u16; 1024],
    pub points: [u16; 512],
    pub bandwidths: [u32; 512],
}

impl SheetLists {
    // Reads the sheet into these lists. What they hold after a refusal is left open.
    pub(crate) fn scan(&mut self, sheet: &[u8]) -> Result<Counts, Refusal>
        ensures scanned { Scanned sheet.now result self.new.minutes self.new.values self.new.points self.new.bandwidths }
        ensures lengths { FullLists self.new.minutes self.new.values self.new.points self.new.bandwidths }
    {
        let front = read_front(sheet, &mut self.points, &mut self.bandwidths)?;
        let samples = read_samples(sheet, front.next, &mut self.minutes, &mut self.values)?;
        Ok(Counts {
            samples,
            points: front.count,
        })
    }
}

// Reads the sheet into lists of its own, so that a refusal leaves the lent ones as they were.
pub(crate) fn read_into(
    sheet: &[u8],
    minutes: &mut [u16; 1024],
    values: &mut [u16; 1024],
    points: &mut [u16; 512],
    bandwidths: &mut [u32; 512],
) -> Result<Counts, Refusal>
    ensures { ReadInto sheet.now minutes.old values.old points.old bandwidths.old result minutes.new values.new points.new bandwidths.new }
{
    let mut lists = SheetLists {
        minutes: [0; 1024],
        values: [0; 1024],
        points: [0; 512],
        bandwidths: [0; 512],
    };
    let used = lists.scan(sheet)?;
    minutes[..used.samples].copy_from_slice(&lists.minutes[..used.samples]);
    values[..used.samples].copy_from_slice(&lists.values[..used.samples]);
    points[..used.points].copy_from_slice(&lists.points[..used.points]);
    bandwidths[..used.points].copy_from_slice(&lists.bandwidths[..used.points]);
    Ok(used)
}

// The reader, for lent lists of any lengths: one of another length than the sheet asks is refused as it is taken for an array. Its contract is one record,
// since the check looks for each clause at each of the four refusals, beside long arrays.
fn read_lent(
    sheet: &[u8],
    minutes: &mut [u16],
    values: &mut [u16],
    points: &mut [u16],
    bandwidths: &mut [u32],
) -> Result<Counts, Refusal>
    ensures { ReadLent sheet.now minutes.old values.old points.old bandwidths.old result minutes.new values.new points.new bandwidths.new }
{
    let uneven = Report::LengthMismatch.at(0);
    let minutes = minutes.as_mut_array().ok_or(uneven)?;
    let values = values.as_mut_array().ok_or(uneven)?;
    let points = points.as_mut_array().ok_or(uneven)?;
    let bandwidths = bandwidths.as_mut_array().ok_or(uneven)?;
    read_into(sheet, minutes, values, points, bandwidths)
}

// The same as equations with the meanings. Each list stays a parameter of its own, as C lends it.
pub fn read_sheet(
    sheet: &[u8],
    minutes: &mut [u16],
    values: &mut [u16],
    points: &mut [u16],
    bandwidths: &mut [u32],
) -> Result<Counts, Refusal>
    ensures result_value { answer_of result ≡ counts (read full sheet.now minutes.old values.old points.old bandwidths.old) }
    ensures minutes_after { minutes.new ≡ read_minutes (read full sheet.now minutes.old values.old points.old bandwidths.old) minutes.old }
    ensures values_after { values.new ≡ read_values (read full sheet.now minutes.old values.old points.old bandwidths.old) values.old }
    ensures points_after { points.new ≡ read_evaluation_points (read full sheet.now minutes.old values.old points.old bandwidths.old) points.old }
    ensures bandwidths_after { bandwidths.new ≡ read_bandwidths (read full sheet.now minutes.old values.old points.old bandwidths.old) bandwidths.old }
{
    read_lent(sheet, minutes, values, points, bandwidths)
}
