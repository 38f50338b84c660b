// The single step and the row of a running record, for programs in C and Rust: numbers and slices of numbers only.
// Each answer is one number, DETAIL_UNIT × detail + report: report 0 is accepted, and the detail of a report is its place.

ghost use Rattle.std.specs.Prelude.{◌≡◌};
ghost use Rattle.meanings.specs.Limits.{row_width};
ghost use Rattle.meanings.specs.Reports.{given};
ghost use Rattle.meanings.specs.Estimate.{fields};
ghost use Rattle.meanings.specs.Running.{advance as advance_meaning, record_row};
ghost use Rattle.meanings.specs.Codes.{answered, no_detail};
ghost use Rattle.exports.specs.Answers.{sized, stored, record_length, record_numbers, record_of as record_meaning};

use crate::answers::{put_numbers, refusal_code};
use arithmetic::row::record_row;
use meanings::{Mark, ROW_WIDTH, Readings, RunningSums};
use regression::estimator::advance;

// The single step. running: nine numbers of any origin, left, right, the six sums s00, s10, s20, s01, s11, s21, and the
// passes.
#[unsafe(no_mangle)]
#[tactic(auto, unfolding(crate::specs::Answers::sized, crate::specs::Answers::replaced), using(crate::proofs::Answered::refused_code, crate::proofs::RecordPlaces::advance_place))]
pub extern "C" fn tankcurve_advance(
    running: &mut [u64],
    minutes: &[u16],
    values: &[u16],
    point: u16,
    bandwidth: u32,
) -> u64
    ensures value { result ≡ answered no_detail (sized record_length running.old (advance_meaning minutes.now values.now (record_meaning running.old) point bandwidth)) }
    ensures running_after { running.new ≡ stored record_numbers (sized record_length running.old (advance_meaning minutes.now values.now (record_meaning running.old) point bandwidth)) running.old }
{
    let Ok(before) = RunningSums::try_from(&running[..]) else {
        return 8;
    };
    let readings = Readings { minutes, values };
    let mark = Mark { point, bandwidth };
    match advance(before, readings, mark) {
        Err(refusal) => refusal_code(refusal),
        Ok(moved) => {
            put_numbers(moved.into(), running);
            0
        }
    }
}

// The row that a running record gives at a mark. running: nine numbers of any origin; row: five numbers. Every half width is taken.
#[unsafe(no_mangle)]
#[tactic(auto, using(crate::proofs::Answered::other_code, crate::proofs::Answered::other_stays, crate::proofs::Answered::second_other_code, crate::proofs::Answered::second_other_stays, crate::proofs::Records::row_code, crate::proofs::Records::numbers_stored))]
pub extern "C" fn tankcurve_row(running: &[u64], point: u16, bandwidth: u32, row: &mut [u64]) -> u64
    ensures value { result ≡ answered no_detail (sized record_length running.now (sized row_width row.old (given (record_row (record_meaning running.now) point bandwidth)))) }
    ensures row_after { row.new ≡ stored fields (sized record_length running.now (sized row_width row.old (given (record_row (record_meaning running.now) point bandwidth)))) row.old }
{
    let Ok(record) = RunningSums::try_from(running) else {
        return 8;
    };
    if row.len() != ROW_WIDTH {
        return 8;
    }
    let mark = Mark { point, bandwidth };
    put_numbers(record_row(record, mark).into(), row);
    0
}
