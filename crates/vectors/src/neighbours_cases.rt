// Half widths by neighbours.
use crate::input::{Case, MOST_ELEMENTS};
use crate::show::{show_answer, show_list};
use exports::neighbours::tankcurve_neighbours;

pub fn neighbours(mut case: Case) {
    let mut minutes = [0u16; MOST_ELEMENTS];
    let mut values = [0u16; MOST_ELEMENTS];
    let mut points = [0u16; MOST_ELEMENTS];
    let mut bandwidths = [7u32; MOST_ELEMENTS];
    let mut rows = [7u64; 2600];
    let minutes = case.list(&mut minutes);
    let values = case.list(&mut values);
    let points = case.list(&mut points);
    let k = case.narrow();
    let bandwidths = case.lent(&mut bandwidths);
    let rows = case.lent(&mut rows);
    show_answer(tankcurve_neighbours(minutes, values, points, k, bandwidths, rows));
    show_list(bandwidths);
    show_list(rows);
}
