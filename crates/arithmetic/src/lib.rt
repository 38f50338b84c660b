// Sums modulo 2^64 and what is computed from them. No function knows of lists of marks or rows.
//
// products: a row's weight or sum, from three of the running sums.
// ranges: the running sums of the lows and of the highs, side by side.
// row: the row of a running record.
// sums: the six running sums with a reading taken in or let go, and the passes.
// values: a row's value, a window's least minute, and the place of a minute among minutes.
// weight: the weight of one reading at a mark.
#![tactic(auto)]

mod products;
pub mod ranges;
pub mod row;
pub mod sums;
pub mod values;
pub mod weight;
