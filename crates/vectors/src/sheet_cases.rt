// The reader.
use crate::input::{Case, MOST_ELEMENTS};
use crate::show::{show_answer, show_list};
use exports::reader::tankcurve_read;

// The sheet is the rest of the case.
pub fn read(mut case: Case) {
    let mut minutes = [7u16; MOST_ELEMENTS];
    let mut values = [7u16; MOST_ELEMENTS];
    let mut points = [7u16; MOST_ELEMENTS];
    let mut bandwidths = [7u32; MOST_ELEMENTS];
    let mut counts = [7u64; 8];
    let minutes = case.lent(&mut minutes);
    let values = case.lent(&mut values);
    let points = case.lent(&mut points);
    let bandwidths = case.lent(&mut bandwidths);
    let counts = case.lent(&mut counts);
    show_answer(tankcurve_read(case.rest, minutes, values, points, bandwidths, counts));
    show_list(minutes);
    show_list(values);
    show_list(points);
    show_list(bandwidths);
    show_list(counts);
}
