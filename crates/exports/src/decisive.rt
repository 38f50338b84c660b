// The reading that decides, for programs in C and Rust: numbers and slices of numbers only.
// The answer is one number, DETAIL_UNIT × detail + report: report 0 is accepted, and the detail of a report is its place.

ghost use Rattle.std.specs.Prelude.{◌≡◌};
ghost use Rattle.meanings.specs.Limits.{full};
ghost use Rattle.meanings.specs.Codes.{answered, no_detail};
ghost use Rattle.meanings.specs.decisive.Decisive.{decisive};
ghost use Rattle.exports.specs.Answers.{sized, stored};
ghost use Rattle.exports.specs.Positions.{position_numbers};

use crate::answers::{position_number, put_numbers, refusal_code};
use meanings::{Mark, Readings};
use questions::decisive::decisive_sample;

// position, one number, gets the reading's position or what stands for none; the detail is 0.
#[unsafe(no_mangle)]
#[tactic(auto, unfolding(crate::specs::Answers::sized, crate::specs::Answers::replaced), using(crate::proofs::Answered::refused_code, crate::proofs::DecisivePlaces::decisive_place))]
pub extern "C" fn tankcurve_decisive(
    minutes: &[u16],
    values: &[u16],
    point: u16,
    bandwidth: u32,
    limit: u16,
    position: &mut [u64],
) -> u64
    ensures value { result ≡ answered no_detail (sized 1 position.old (decisive full minutes.now values.now point bandwidth limit)) }
    ensures position_after { position.new ≡ stored position_numbers (sized 1 position.old (decisive full minutes.now values.now point bandwidth limit)) position.old }
{
    if position.len() != 1 {
        return 8;
    }
    let readings = Readings { minutes, values };
    let mark = Mark { point, bandwidth };
    match decisive_sample(readings, mark, limit) {
        Err(refusal) => refusal_code(refusal),
        Ok(found) => {
            put_numbers([position_number(found)], position);
            0
        }
    }
}
