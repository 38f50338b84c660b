// What is asked of the curve beyond its rows.
//
// biweight: the row under the biweight kernel.
// biweight_table: the weights of that kernel, by distance.
// decisive: the reading that decides whether the row at a mark is at or below a limit.
// doubles: weights and sums as doubles, for a spreadsheet.
// limit: the first mark at or below a limit.
// neighbours: half widths by the K nearest readings, and the sweep with them.
// pair: the first mark at which two tanks differ.
// ranking: which of two rows is higher.
// threshold: whether a value is present and at or below a limit.
#![tactic(auto)]

pub mod biweight;
mod biweight_table;
pub mod decisive;
pub mod doubles;
pub mod limit;
pub mod neighbours;
pub mod pair;
mod ranking;
mod threshold;
