// The biweight row at one mark, for programs in C and Rust: numbers and slices of numbers only.
// Each answer is one number, DETAIL_UNIT × detail + report: report 0 is accepted, and the detail of a report is its place.

ghost use Rattle.std.specs.Prelude.{◌≡◌};
ghost use Rattle.meanings.specs.Limits.{full, row_width};
ghost use Rattle.meanings.specs.Estimate.{fields};
ghost use Rattle.meanings.specs.Codes.{answered, no_detail};
ghost use Rattle.meanings.specs.biweight.Biweight.{biweight as biweight_meaning};
ghost use Rattle.exports.specs.Answers.{sized, stored};

use crate::answers::{put_numbers, refusal_code};
use meanings::{ROW_WIDTH, Readings};
use questions::biweight::biweight;

// row: five numbers, left, right, weight, sum, value.
#[unsafe(no_mangle)]
#[tactic(auto, unfolding(crate::specs::Answers::sized, crate::specs::Answers::replaced), using(crate::proofs::Answered::refused_code, crate::proofs::BiweightPlaces::biweight_place))]
pub extern "C" fn tankcurve_biweight(
    minutes: &[u16],
    values: &[u16],
    point: u16,
    row: &mut [u64],
) -> u64
    ensures value { result ≡ answered no_detail (sized row_width row.old (biweight_meaning full minutes.now values.now point)) }
    ensures row_after { row.new ≡ stored fields (sized row_width row.old (biweight_meaning full minutes.now values.now point)) row.old }
{
    if row.len() != ROW_WIDTH {
        return 8;
    }
    let readings = Readings { minutes, values };
    match biweight(readings, point) {
        Err(refusal) => refusal_code(refusal),
        Ok(estimate) => {
            put_numbers(estimate.into(), row);
            0
        }
    }
}
