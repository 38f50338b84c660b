// The sweep over readings known as ranges, for programs in C and Rust: numbers and slices of numbers only.
// The answer is one number, DETAIL_UNIT × detail + report: report 0 is accepted, and the detail of a report is its place.

ghost use Rattle.std.specs.Prelude.{◌≡◌};
ghost use Rattle.meanings.specs.Limits.{full};
ghost use Rattle.meanings.specs.Codes.{answered};
ghost use Rattle.meanings.specs.ranges.Ranges.{smooth_ranges, smooth_ranges_rows};

use crate::answers::refusal_code;
use meanings::ranges::Ranges;
use meanings::{DETAIL_UNIT, Marks};
use regression::ranges::smooth_ranges;

// The whole sweep: rows receives seven numbers a mark, and the detail is the passes.
#[unsafe(no_mangle)]
#[tactic(auto, using(crate::proofs::Answered::refused_code, crate::proofs::RangesPlaces::ranges_place, crate::proofs::RangesPlaces::passes_few))]
pub extern "C" fn tankcurve_smooth_ranges(
    minutes: &[u16],
    lows: &[u16],
    highs: &[u16],
    points: &[u16],
    bandwidths: &[u32],
    rows: &mut [u64],
) -> u64
    ensures value { result ≡ answered (λ n. n) (smooth_ranges full minutes.now lows.now highs.now points.now bandwidths.now rows.old) }
    ensures rows_after { rows.new ≡ smooth_ranges_rows full minutes.now lows.now highs.now points.now bandwidths.now rows.old }
{
    let ranges = Ranges {
        minutes,
        lows,
        highs,
    };
    let marks = Marks { points, bandwidths };
    match smooth_ranges(ranges, marks, rows) {
        Err(refusal) => refusal_code(refusal),
        Ok(passes) => DETAIL_UNIT * passes,
    }
}
