// The questions with a limit.
use crate::input::{Case, MOST_ELEMENTS};
use crate::show::{show_answer, show_list};
use exports::decisive::tankcurve_decisive;
use exports::limit::tankcurve_first_at_most;

pub fn first_at_most(mut case: Case) {
    let mut minutes = [0u16; MOST_ELEMENTS];
    let mut values = [0u16; MOST_ELEMENTS];
    let mut points = [0u16; MOST_ELEMENTS];
    let mut bandwidths = [0u32; MOST_ELEMENTS];
    let mut position = [7u64; 8];
    let minutes = case.list(&mut minutes);
    let values = case.list(&mut values);
    let points = case.list(&mut points);
    let bandwidths = case.list(&mut bandwidths);
    let limit = case.narrow();
    let position = case.lent(&mut position);
    show_answer(tankcurve_first_at_most(minutes, values, points, bandwidths, limit, position));
    show_list(position);
}

pub fn decisive(mut case: Case) {
    let mut minutes = [0u16; MOST_ELEMENTS];
    let mut values = [0u16; MOST_ELEMENTS];
    let mut position = [7u64; 8];
    let minutes = case.list(&mut minutes);
    let values = case.list(&mut values);
    let point = case.narrow();
    let bandwidth = case.narrow();
    let limit = case.narrow();
    let position = case.lent(&mut position);
    show_answer(tankcurve_decisive(minutes, values, point, bandwidth, limit, position));
    show_list(position);
}
