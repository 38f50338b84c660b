// The comparison of two tanks, for programs in C and Rust: numbers and slices of numbers only.
// The answer is one number, DETAIL_UNIT × detail + report: report 0 is accepted, and the detail of a report is its place.

ghost use Rattle.std.specs.Prelude.{◌≡◌};
ghost use Rattle.meanings.specs.Limits.{full};
ghost use Rattle.meanings.specs.Codes.{answered};
ghost use Rattle.meanings.specs.pair.Comparison.{compare_bounds};
ghost use Rattle.exports.specs.Answers.{sized};
ghost use Rattle.exports.specs.Partings.{tank_detail, parting_length, stored_parting};

use crate::answers::{put_numbers, refusal_code};
use meanings::pair::Tank;
use meanings::{DETAIL_UNIT, Marks, Readings};
use questions::pair::part;

// How many numbers a parting has: parting_length of specs/Partings.antt.
const PARTING_LENGTH: usize = 3;

// The comparison. The detail is 0 where the tanks are alike, else 1 or 2, the higher tank; out, three numbers, then gets the mark's position and
// that tank's left and right there.
#[unsafe(no_mangle)]
#[tactic(auto, unfolding(crate::specs::Answers::sized, crate::specs::Answers::replaced), using(crate::proofs::Answered::refused_code, crate::proofs::PairPlaces::compare_place))]
pub extern "C" fn tankcurve_compare(
    minutes1: &[u16],
    values1: &[u16],
    minutes2: &[u16],
    values2: &[u16],
    points: &[u16],
    bandwidths: &[u32],
    out: &mut [u64],
) -> u64
    ensures value { result ≡ answered tank_detail (sized parting_length out.old (compare_bounds full minutes1.now values1.now minutes2.now values2.now points.now bandwidths.now)) }
    ensures out_after { out.new ≡ stored_parting (sized parting_length out.old (compare_bounds full minutes1.now values1.now minutes2.now values2.now points.now bandwidths.now)) out.old }
{
    if out.len() != PARTING_LENGTH {
        return 8;
    }
    let first = Readings {
        minutes: minutes1,
        values: values1,
    };
    let second = Readings {
        minutes: minutes2,
        values: values2,
    };
    match part(first, second, Marks { points, bandwidths }) {
        Err(refusal) => refusal_code(refusal),
        Ok(None) => 0,
        Ok(Some(bounded)) => {
            let numbers = [bounded.parting.position, bounded.left, bounded.right];
            put_numbers(numbers.map(|n| n as u64), out);
            match bounded.parting.higher {
                Tank::First => DETAIL_UNIT,
                Tank::Second => 2 * DETAIL_UNIT,
            }
        }
    }
}
