// A weight or a sum as doubles, for programs in C and Rust: numbers and slices of numbers only.
// The answer is one number, DETAIL_UNIT × detail + report: report 0 is accepted, and the detail of a report is its place.

ghost use Rattle.std.specs.Prelude.{◌≡◌};
ghost use Rattle.meanings.specs.Codes.{answered};
ghost use Rattle.meanings.specs.Reports.{given};
ghost use Rattle.meanings.specs.doubles.Doubles.{handed};
ghost use Rattle.exports.specs.Answers.{sized};
ghost use Rattle.exports.specs.Lists.{used, filled};

use meanings::DETAIL_UNIT;
use meanings::doubles::Cell;
use questions::doubles::number_cell;

// The number is a weight or a sum of a row of this weight. doubles, two of them, gets what is handed over in front; the detail is how many that
// are, and the others stay.
#[unsafe(no_mangle)]
#[tactic(auto, unfolding(crate::specs::Answers::sized, crate::specs::Answers::replaced))]
pub extern "C" fn tankcurve_doubles(weight: u64, number: u64, doubles: &mut [f64]) -> u64
    ensures value { result ≡ answered used (sized 2 doubles.old (given (handed weight number))) }
    ensures doubles_after { doubles.new ≡ filled (sized 2 doubles.old (given (handed weight number))) doubles.old }
{
    if doubles.len() != 2 {
        return 8;
    }
    match number_cell(weight, number) {
        Cell::Empty => 0,
        Cell::One(double) => {
            doubles[0] = double;
            DETAIL_UNIT
        }
        Cell::Pair(parts) => {
            doubles[0] = parts.high;
            doubles[1] = parts.low;
            2 * DETAIL_UNIT
        }
    }
}
