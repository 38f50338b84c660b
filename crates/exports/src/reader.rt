// The reader of a sheet, for programs in C and Rust: numbers and slices of numbers only.
// Each answer is one number, DETAIL_UNIT × detail + report: report 0 is accepted, and the detail of a report is its place.

ghost use Rattle.std.specs.Prelude.{◌≡◌};
ghost use Rattle.meanings.specs.Limits.{full};
ghost use Rattle.meanings.specs.Calls.{counts as counts_of, read, read_minutes, read_values, read_evaluation_points, read_bandwidths};
ghost use Rattle.meanings.specs.Codes.{answered, no_detail};
ghost use Rattle.exports.specs.Answers.{sized, stored, count_numbers};

use crate::answers::{put_numbers, refusal_code};
use sheet::reader::read_sheet;

// The reader. counts: two numbers, the kept readings and the marks.
#[unsafe(no_mangle)]
#[tactic(auto, unfolding(crate::specs::Answers::sized, crate::specs::Answers::replaced), using(crate::proofs::Answered::refused_code, crate::proofs::ReaderPlaces::read_place, crate::proofs::ReaderPlaces::counts_place))]
pub extern "C" fn tankcurve_read(
    sheet: &[u8],
    minutes: &mut [u16],
    values: &mut [u16],
    points: &mut [u16],
    bandwidths: &mut [u32],
    counts: &mut [u64],
) -> u64
    ensures value { result ≡ answered no_detail (counts_of (sized 2 counts.old (read full sheet.now minutes.old values.old points.old bandwidths.old))) }
    ensures minutes_after { minutes.new ≡ read_minutes (sized 2 counts.old (read full sheet.now minutes.old values.old points.old bandwidths.old)) minutes.old }
    ensures values_after { values.new ≡ read_values (sized 2 counts.old (read full sheet.now minutes.old values.old points.old bandwidths.old)) values.old }
    ensures points_after { points.new ≡ read_evaluation_points (sized 2 counts.old (read full sheet.now minutes.old values.old points.old bandwidths.old)) points.old }
    ensures bandwidths_after { bandwidths.new ≡ read_bandwidths (sized 2 counts.old (read full sheet.now minutes.old values.old points.old bandwidths.old)) bandwidths.old }
    ensures counts_after { counts.new ≡ stored count_numbers (counts_of (sized 2 counts.old (read full sheet.now minutes.old values.old points.old bandwidths.old))) counts.old }
{
    if counts.len() != 2 {
        return 8;
    }
    match read_sheet(sheet, minutes, values, points, bandwidths) {
        Err(refusal) => refusal_code(refusal),
        Ok(used) => {
            put_numbers([used.samples as u64, used.points as u64], counts);
            0
        }
    }
}
