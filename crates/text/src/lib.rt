// The texts of a curve and of a refusal, as bytes in a lent buffer.
//
// decimal: a number in decimal, or a text, at the front of a list.
// from_sheet: the text of a sheet of either kind.
// kind: the text of lists of either kind.
// lines: the lines of a curve's text.
// over_sheet: the text of a sheet, written over the sheet.
// plain: the text of a curve over readings.
// ranges: the text of a curve over readings known as ranges.
// refusal: the text of a refusal.
// room: whether a line fits.
#![tactic(auto)]

mod decimal;
pub mod from_sheet;
pub mod kind;
mod lines;
pub mod over_sheet;
pub mod plain;
pub mod ranges;
pub mod refusal;
mod room;
