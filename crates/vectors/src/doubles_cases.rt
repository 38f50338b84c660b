// Weights and sums as doubles: the bit patterns of every double.
use crate::input::Case;
use crate::show::{show_answer, show_list};
use exports::doubles::tankcurve_doubles;
use meanings::Estimate;
use meanings::doubles::Cell;
use questions::doubles::row_cells as cells_of;

// What is shown of a double that is no number, whose pattern is not said.
const NO_NUMBER: u64 = 9221120237041090560;

fn pattern(double: f64) -> u64 {
    if double.is_nan() {
        NO_NUMBER
    } else {
        double.to_bits()
    }
}

// A row's weight, the number, and the length of the lent list.
pub fn doubles(mut case: Case) {
    let mut doubles = [7.0f64; 8];
    let weight = case.number();
    let one = case.number();
    let lent = case.lent(&mut doubles);
    let n = lent.len();
    show_answer(tankcurve_doubles(weight, one, lent));
    let patterns = doubles.map(pattern);
    show_list(&patterns[..n]);
}

// Nothing, one double or two: no array holds each.
fn show_cell(cell: Cell) {
    match cell {
        Cell::Empty => show_list::<u64>(&[]),
        Cell::One(double) => show_list(&[pattern(double)]),
        Cell::Pair(parts) => show_list(&[pattern(parts.high), pattern(parts.low)]),
    };
}

// The five numbers of a row.
pub fn row_cells(mut case: Case) {
    let cells = cells_of(Estimate {
        left: case.number(),
        right: case.number(),
        weight: case.number(),
        sum: case.number(),
        value: case.number(),
    });
    show_answer(0);
    show_cell(cells.weight);
    show_cell(cells.sum);
}
