// Minute and temperature together, for programs in C and Rust: numbers and slices of numbers only.
// Each answer is one number, DETAIL_UNIT × detail + report: report 0 is accepted, and the detail of a report is its place.

ghost use Rattle.std.specs.Prelude.{◌≡◌};
ghost use Rattle.meanings.specs.Codes.{answered, no_detail};
ghost use Rattle.meanings.specs.boxes.Boxes.{minute_axis, temperature_axis, boxes as boxes_meaning, boxes_then, counts_then, sums_then};

use crate::answers::refusal_code;
use meanings::boxes::{AxisMarks, BoxReadings, Question};

// boxes receives count and sum of each pair of marks, counts and sums a number for each of the 4,225 cells.
#[unsafe(no_mangle)]
pub extern "C" fn tankcurve_boxes(
    minutes: &[u16],
    temperatures: &[u8],
    values: &[u16],
    points: &[u16],
    bandwidths: &[u32],
    temperature_points: &[u8],
    temperature_bandwidths: &[u32],
    boxes: &mut [u64],
    counts: &mut [u32],
    sums: &mut [u32],
) -> u64
    ensures value { result ≡ answered no_detail (boxes_meaning (minute_axis minutes.now points.now bandwidths.now) (temperature_axis temperatures.now temperature_points.now temperature_bandwidths.now) values.now boxes.old counts.old sums.old) }
    ensures boxes_after { boxes.new ≡ boxes_then (minute_axis minutes.now points.now bandwidths.now) (temperature_axis temperatures.now temperature_points.now temperature_bandwidths.now) values.now boxes.old counts.old sums.old }
    ensures counts_after { counts.new ≡ counts_then (minute_axis minutes.now points.now bandwidths.now) (temperature_axis temperatures.now temperature_points.now temperature_bandwidths.now) values.now boxes.old counts.old sums.old }
    ensures sums_after { sums.new ≡ sums_then (minute_axis minutes.now points.now bandwidths.now) (temperature_axis temperatures.now temperature_points.now temperature_bandwidths.now) values.now boxes.old counts.old sums.old }
{
    let asked = Question {
        readings: BoxReadings {
            minutes,
            temperatures,
            values,
        },
        minute_marks: AxisMarks { points, bandwidths },
        temperature_marks: AxisMarks {
            points: temperature_points,
            bandwidths: temperature_bandwidths,
        },
    };
    match boxes::boxes(asked, boxes, counts, sums) {
        Err(refusal) => refusal_code(refusal),
        Ok(()) => 0,
    }
}
