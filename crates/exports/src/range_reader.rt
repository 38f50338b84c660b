// The reader of sheets of both kinds, for programs in C and Rust: numbers and slices of numbers only.
// The answer is one number, DETAIL_UNIT × detail + report: report 0 is accepted, and the detail of a report is its place.

ghost use Rattle.std.specs.Prelude.{◌≡◌};
ghost use Rattle.meanings.specs.Limits.{full};
ghost use Rattle.meanings.specs.Codes.{answered, no_detail};
ghost use Rattle.meanings.specs.ranges.RangeCalls.{range_counts, range_front, read_ranges, minutes_of, lows_of};
ghost use Rattle.meanings.specs.ranges.RangeCalls.{highs_of, points_of, bandwidths_of};
ghost use Rattle.exports.specs.Answers.{sized, stored};
ghost use Rattle.exports.specs.KindNumbers.{kind_number, range_count_numbers};

use crate::answers::{put_numbers, refusal_code};
use meanings::ranges::Kind;
use sheet::range_reader::read_ranges;

// How many numbers the counts of a sheet of either kind have: range_count_numbers of specs/KindNumbers.antt.
pub(crate) const RANGE_COUNTS: usize = 3;

// A kind as a number: 0 plain, 1 with ranges.
pub(crate) fn kind_number(kind: Kind) -> u64
    ensures { result ≡ kind_number kind }
{
    kind as u64
}

// The reader. counts: three numbers, the kept readings, the marks and the kind.
#[unsafe(no_mangle)]
#[tactic(auto, unfolding(crate::specs::Answers::sized, crate::specs::Answers::replaced), using(crate::proofs::Answered::refused_code, crate::proofs::RangeReaderPlaces::ranges_place, crate::proofs::RangeReaderPlaces::counts_place))]
pub extern "C" fn tankcurve_read_ranges(
    sheet: &[u8],
    minutes: &mut [u16],
    lows: &mut [u16],
    highs: &mut [u16],
    points: &mut [u16],
    bandwidths: &mut [u32],
    counts: &mut [u64],
) -> u64
    ensures value { result ≡ answered no_detail (range_counts (sized 3 counts.old (read_ranges full sheet.now minutes.old lows.old highs.old points.old bandwidths.old))) }
    ensures minutes_after { minutes.new ≡ range_front (sized 3 counts.old (read_ranges full sheet.now minutes.old lows.old highs.old points.old bandwidths.old)) minutes_of minutes.old }
    ensures lows_after { lows.new ≡ range_front (sized 3 counts.old (read_ranges full sheet.now minutes.old lows.old highs.old points.old bandwidths.old)) lows_of lows.old }
    ensures highs_after { highs.new ≡ range_front (sized 3 counts.old (read_ranges full sheet.now minutes.old lows.old highs.old points.old bandwidths.old)) highs_of highs.old }
    ensures points_after { points.new ≡ range_front (sized 3 counts.old (read_ranges full sheet.now minutes.old lows.old highs.old points.old bandwidths.old)) points_of points.old }
    ensures bandwidths_after { bandwidths.new ≡ range_front (sized 3 counts.old (read_ranges full sheet.now minutes.old lows.old highs.old points.old bandwidths.old)) bandwidths_of bandwidths.old }
    ensures counts_after { counts.new ≡ stored range_count_numbers (range_counts (sized 3 counts.old (read_ranges full sheet.now minutes.old lows.old highs.old points.old bandwidths.old))) counts.old }
{
    if counts.len() != RANGE_COUNTS {
        return 8;
    }
    match read_ranges(sheet, minutes, lows, highs, points, bandwidths) {
        Err(refusal) => refusal_code(refusal),
        Ok(used) => {
            let samples = used.samples as u64;
            let points = used.points as u64;
            put_numbers([samples, points, kind_number(used.kind)], counts);
            0
        }
    }
}
