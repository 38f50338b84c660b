// The comparison of two tanks, and the runs that are handed back as parts of lists: that of the comparison and that of one mark's window, each by its
// length and its values.
use crate::input::{Case, MOST_ELEMENTS};
use crate::show::{show_answer, show_list};
use exports::pair::tankcurve_compare;
use meanings::{Mark, Marks};
use questions::pair::compare_run;
use regression::estimator::window;

// A part of a list: its length, written as an answer is, and its values.
fn show_part(part: &[u16]) {
    show_answer(part.len() as u64);
    show_list(part);
}

pub fn compare(mut case: Case) {
    let mut minutes1 = [0u16; MOST_ELEMENTS];
    let mut values1 = [0u16; MOST_ELEMENTS];
    let mut minutes2 = [0u16; MOST_ELEMENTS];
    let mut values2 = [0u16; MOST_ELEMENTS];
    let mut points = [0u16; MOST_ELEMENTS];
    let mut bandwidths = [0u32; MOST_ELEMENTS];
    let mut out = [7u64; 8];
    let minutes1 = case.list(&mut minutes1);
    let values1 = case.list(&mut values1);
    let minutes2 = case.list(&mut minutes2);
    let values2 = case.list(&mut values2);
    let points = case.list(&mut points);
    let bandwidths = case.list(&mut bandwidths);
    let out = case.lent(&mut out);
    show_answer(tankcurve_compare(
        minutes1, values1, minutes2, values2, points, bandwidths, out,
    ));
    show_list(out);
    let marks = Marks { points, bandwidths };
    show_part(compare_run(minutes1, values1, minutes2, values2, marks));
}

pub fn window_run(mut case: Case) {
    let mut minutes = [0u16; MOST_ELEMENTS];
    let mut values = [0u16; MOST_ELEMENTS];
    let minutes = case.list(&mut minutes);
    let values = case.list(&mut values);
    let point = case.narrow();
    let bandwidth = case.narrow();
    show_part(window(minutes, values, Mark { point, bandwidth }));
}
