// Minute and temperature together.
use crate::input::{Case, MOST_ELEMENTS};
use crate::show::{show_answer, show_list};
use exports::box_table::tankcurve_boxes;

pub fn boxes(mut case: Case) {
    let mut minutes = [0u16; MOST_ELEMENTS];
    let mut temperatures = [0u8; MOST_ELEMENTS];
    let mut values = [0u16; MOST_ELEMENTS];
    let mut points = [0u16; 40];
    let mut bandwidths = [0u32; 40];
    let mut temperature_points = [0u8; 40];
    let mut temperature_bandwidths = [0u32; 40];
    let mut pairs = [7u64; 2400];
    let mut counts = [7u32; 4300];
    let mut sums = [7u32; 4300];
    let minutes = case.list(&mut minutes);
    let temperatures = case.list(&mut temperatures);
    let values = case.list(&mut values);
    let points = case.list(&mut points);
    let bandwidths = case.list(&mut bandwidths);
    let temperature_points = case.list(&mut temperature_points);
    let temperature_bandwidths = case.list(&mut temperature_bandwidths);
    let pairs = case.lent(&mut pairs);
    let counts = case.lent(&mut counts);
    let sums = case.lent(&mut sums);
    show_answer(tankcurve_boxes(
        minutes,
        temperatures,
        values,
        points,
        bandwidths,
        temperature_points,
        temperature_bandwidths,
        pairs,
        counts,
        sums,
    ));
    show_list(pairs);
    show_list(counts);
    show_list(sums);
}
