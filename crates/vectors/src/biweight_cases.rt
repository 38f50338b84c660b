// The biweight row.
use crate::input::{Case, MOST_ELEMENTS};
use crate::show::{show_answer, show_list};
use exports::biweight::tankcurve_biweight;

pub fn biweight(mut case: Case) {
    let mut minutes = [0u16; MOST_ELEMENTS];
    let mut values = [0u16; MOST_ELEMENTS];
    let mut row = [7u64; 8];
    let minutes = case.list(&mut minutes);
    let values = case.list(&mut values);
    let point = case.narrow();
    let row = case.lent(&mut row);
    show_answer(tankcurve_biweight(minutes, values, point, row));
    show_list(row);
}
