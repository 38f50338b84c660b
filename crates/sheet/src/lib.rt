// The readers of tank sheets: from any bytes to the kept readings and the marks, or the report.
//
// fields: the numbers in a line's text, with commas between.
// front: a sheet up to its second header line: the marks with their half widths.
// lines: where a line ends, and whether its text is a given one.
// list_fronts: a list stored at the front of another.
// names: the second header line, which tells the kind of the sheet.
// range_fronts: the five lists of a sheet of either kind, stored at the front of others.
// range_reader: the reader of sheets of both kinds.
// range_values: the values of a reading line of either kind.
// reader: the reader of plain sheets.
// readings: the reading lines of a sheet of either kind.
// samples: the second header line and the reading lines of a plain sheet.
// scan: a sheet of either kind, read into lists that are used only if the sheet is accepted.
// values: the values of a mark line and of a plain reading line.
// words: eight bytes as one word, and where a line feed is in one.
#![tactic(auto)]

mod fields;
mod front;
mod lines;
mod list_fronts;
mod names;
mod range_fronts;
pub mod range_reader;
mod range_values;
pub mod reader;
mod readings;
mod samples;
pub mod scan;
mod values;
mod words;
