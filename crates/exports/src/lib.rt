// The calls for programs in C and Rust, over numbers and slices of numbers only. The static library `tankcurve_abi` hands them on.
// Each answer but the version is one number, DETAIL_UNIT × detail + report: report 0 is accepted, and the detail of a report is its place.
//
// answers: rows, records and refusals as plain numbers.
// biweight: the row under the biweight kernel.
// box_table: minute and temperature together.
// decisive: the reading that decides.
// doubles: a weight or a sum as doubles.
// limit: the first mark at or below a limit.
// neighbours: half widths by neighbours.
// pair: the comparison of two tanks.
// point: the question at one mark, and its run.
// range_reader: the reader of sheets of both kinds.
// ranges: the sweep over readings known as ranges.
// reader: the reader of plain sheets.
// record: the single step, and the row of a running record.
// sweep: the sweep, its preview, and the mark filler.
// texts: the texts of a curve and of a refusal.
// turn: the turn of a running record.
// version: which build this is.
#![tactic(auto)]

mod answers;
pub mod biweight;
pub mod box_table;
pub mod decisive;
pub mod doubles;
pub mod limit;
pub mod neighbours;
pub mod pair;
pub mod point;
pub mod range_reader;
pub mod ranges;
pub mod reader;
pub mod record;
pub mod sweep;
pub mod texts;
pub mod turn;
pub mod version;
