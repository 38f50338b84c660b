// Weights and sums of a row as doubles, for a spreadsheet. Every number of 64 bits is taken, under every weight, and handed over exactly.

ghost use Rattle.std.specs.Prelude.{◌≡◌};
ghost use Rattle.meanings.specs.doubles.Doubles.{handed, cell_doubles, row_handed, row_doubles};

use meanings::Estimate;
use meanings::doubles::{Cell, HighLow, RowCells};
use std::num::nearest_u64_to_f64;

// Numbers below this are one double: one_limit of meanings/specs/doubles/Doubles.antt, 2^53.
pub const ONE_LIMIT: u64 = 9007199254740992;

// The low part of a pair is the remainder by this: low_unit of meanings/specs/doubles/Doubles.antt, 2^32.
pub const LOW_UNIT: u64 = 4294967296;

// The number is a weight or a sum of a row of this weight.
#[tactic(auto, using(meanings::proofs::Having::handed_empty, crate::proofs::Handing::one_handed, crate::proofs::Handing::pair_handed))]
pub fn number_cell(weight: u64, number: u64) -> Cell
    ensures { cell_doubles result ≡ handed weight number }
{
    if weight == 0 {
        return Cell::Empty;
    }
    if number < ONE_LIMIT {
        return Cell::One(nearest_u64_to_f64(number));
    }
    let low = number % LOW_UNIT;
    Cell::Pair(HighLow {
        high: nearest_u64_to_f64(number - low),
        low: nearest_u64_to_f64(low),
    })
}

// The weight and the sum of a row.
pub fn row_cells(row: Estimate) -> RowCells
    ensures { row_doubles result ≡ row_handed row }
{
    RowCells {
        weight: number_cell(row.weight, row.weight),
        sum: number_cell(row.weight, row.sum),
    }
}
