// The turn of a running record, for programs in C and Rust: numbers and slices of numbers only.
// The answer is one number, DETAIL_UNIT × detail + report: report 0 is accepted, and the detail of a report is its place.

ghost use Rattle.std.specs.Prelude.{◌≡◌};
ghost use Rattle.meanings.specs.Turn.{turn_answer};
ghost use Rattle.meanings.specs.Codes.{answered, no_detail};
ghost use Rattle.exports.specs.Answers.{sized, stored, record_length, record_numbers, record_of as record_meaning};

use crate::answers::{put_numbers, refusal_code};
use meanings::{Mark, Readings, RunningSums};
use regression::turn::turn_own;

// The turn. running: nine numbers of any origin, left, right, the six sums s00, s10, s20, s01, s11, s21, and the passes.
#[unsafe(no_mangle)]
#[tactic(auto, unfolding(crate::specs::Answers::sized, crate::specs::Answers::replaced, meanings::specs::Turn::turn_answer, meanings::specs::Turn::turn_record))]
pub extern "C" fn tankcurve_turn(
    running: &mut [u64],
    minutes: &[u16],
    values: &[u16],
    point: u16,
    bandwidth: u32,
) -> u64
    ensures value { result ≡ answered no_detail (sized record_length running.old (turn_answer minutes.now values.now (record_meaning running.old) point bandwidth)) }
    ensures running_after { running.new ≡ stored record_numbers (sized record_length running.old (turn_answer minutes.now values.now (record_meaning running.old) point bandwidth)) running.old }
{
    let Ok(before) = RunningSums::try_from(&running[..]) else {
        return 8;
    };
    let readings = Readings { minutes, values };
    let mark = Mark { point, bandwidth };
    let turning = turn_own(before, readings, mark);
    match turning.verdict {
        Err(refusal) => refusal_code(refusal),
        Ok(()) => {
            put_numbers(turning.running.into(), running);
            0
        }
    }
}
