// The question at one mark, for programs in C and Rust: numbers and slices of numbers only.
// Each answer is one number, DETAIL_UNIT × detail + report: report 0 is accepted, and the detail of a report is its place.

ghost use Rattle.std.specs.Prelude.{◌≡◌};
ghost use Rattle.meanings.specs.Limits.{full, row_width};
ghost use Rattle.meanings.specs.Estimate.{fields};
ghost use Rattle.meanings.specs.Calls.{evaluate as evaluate_meaning};
ghost use Rattle.meanings.specs.Codes.{answered, no_detail};
ghost use Rattle.exports.specs.Answers.{sized, stored, bounds as bounds_of};

use crate::answers::{put_numbers, refusal_code};
use meanings::{Mark, ROW_WIDTH, Readings};
use regression::estimator::evaluate;

// The question at one mark. row: five numbers, left, right, weight, sum, value.
#[unsafe(no_mangle)]
#[tactic(auto, unfolding(crate::specs::Answers::sized, crate::specs::Answers::replaced), using(crate::proofs::Answered::refused_code, crate::proofs::PointPlaces::evaluate_place))]
pub extern "C" fn tankcurve_evaluate(
    minutes: &[u16],
    values: &[u16],
    point: u16,
    bandwidth: u32,
    row: &mut [u64],
) -> u64
    ensures value { result ≡ answered no_detail (sized row_width row.old (evaluate_meaning full minutes.now values.now point bandwidth)) }
    ensures row_after { row.new ≡ stored fields (sized row_width row.old (evaluate_meaning full minutes.now values.now point bandwidth)) row.old }
{
    if row.len() != ROW_WIDTH {
        return 8;
    }
    match evaluate(Readings { minutes, values }, Mark { point, bandwidth }) {
        Err(refusal) => refusal_code(refusal),
        Ok(estimate) => {
            put_numbers(estimate.into(), row);
            0
        }
    }
}

// The same question's run: bounds, two numbers, gets its first position and the one after its last.
#[unsafe(no_mangle)]
#[tactic(auto, unfolding(crate::specs::Answers::sized, crate::specs::Answers::replaced), using(crate::proofs::Answered::refused_code, crate::proofs::PointPlaces::evaluate_place))]
pub extern "C" fn tankcurve_window(
    minutes: &[u16],
    values: &[u16],
    point: u16,
    bandwidth: u32,
    bounds: &mut [u64],
) -> u64
    ensures value { result ≡ answered no_detail (sized 2 bounds.old (evaluate_meaning full minutes.now values.now point bandwidth)) }
    ensures bounds_after { bounds.new ≡ stored bounds_of (sized 2 bounds.old (evaluate_meaning full minutes.now values.now point bandwidth)) bounds.old }
{
    if bounds.len() != 2 {
        return 8;
    }
    match evaluate(Readings { minutes, values }, Mark { point, bandwidth }) {
        Err(refusal) => refusal_code(refusal),
        Ok(estimate) => {
            put_numbers([estimate.left, estimate.right], bounds);
            0
        }
    }
}
