// The first mark at or below a limit, for programs in C and Rust: numbers and slices of numbers only.
// Each answer is one number, DETAIL_UNIT × detail + report: report 0 is accepted, and the detail of a report is its place.

ghost use Rattle.std.specs.Prelude.{◌≡◌};
ghost use Rattle.meanings.specs.declared.limit.Located.{Located};
ghost use Rattle.meanings.specs.Limits.{full};
ghost use Rattle.meanings.specs.Codes.{answered};
ghost use Rattle.meanings.specs.limit.Crossing.{first_at_most};
ghost use Rattle.exports.specs.Answers.{sized, stored};
ghost use Rattle.exports.specs.Positions.{position_numbers};

use crate::answers::{position_number, put_numbers, refusal_code};
use meanings::{DETAIL_UNIT, Marks, Readings};
use questions::limit::first_at_most;

// position, one number, gets the mark's position or what stands for none; the detail is the passes.
#[unsafe(no_mangle)]
#[tactic(auto, unfolding(crate::specs::Answers::sized, crate::specs::Answers::replaced), using(crate::proofs::Answered::refused_code, crate::proofs::LimitPlaces::crossing_place, crate::proofs::LimitPlaces::passes_fit))]
pub extern "C" fn tankcurve_first_at_most(
    minutes: &[u16],
    values: &[u16],
    points: &[u16],
    bandwidths: &[u32],
    limit: u16,
    position: &mut [u64],
) -> u64
    ensures value { result ≡ answered (λ (l : Located). l.passes) (sized 1 position.old (first_at_most full minutes.now values.now points.now bandwidths.now limit)) }
    ensures position_after { position.new ≡ stored (λ (l : Located). position_numbers l.position) (sized 1 position.old (first_at_most full minutes.now values.now points.now bandwidths.now limit)) position.old }
{
    if position.len() != 1 {
        return 8;
    }
    let readings = Readings { minutes, values };
    let marks = Marks { points, bandwidths };
    match first_at_most(readings, marks, limit) {
        Err(refusal) => refusal_code(refusal),
        Ok(located) => {
            put_numbers([position_number(located.position)], position);
            DETAIL_UNIT * located.passes
        }
    }
}
