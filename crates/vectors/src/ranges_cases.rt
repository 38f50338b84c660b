// The sweep over ranges and the reader of both kinds of sheet.
use crate::input::{Case, MOST_ELEMENTS};
use crate::show::{show_answer, show_list};
use exports::range_reader::tankcurve_read_ranges;
use exports::ranges::tankcurve_smooth_ranges;

pub fn smooth_ranges(mut case: Case) {
    let mut minutes = [0u16; MOST_ELEMENTS];
    let mut lows = [0u16; MOST_ELEMENTS];
    let mut highs = [0u16; MOST_ELEMENTS];
    let mut points = [0u16; MOST_ELEMENTS];
    let mut bandwidths = [0u32; MOST_ELEMENTS];
    let mut rows = [7u64; 3600];
    let minutes = case.list(&mut minutes);
    let lows = case.list(&mut lows);
    let highs = case.list(&mut highs);
    let points = case.list(&mut points);
    let bandwidths = case.list(&mut bandwidths);
    let rows = case.lent(&mut rows);
    show_answer(tankcurve_smooth_ranges(minutes, lows, highs, points, bandwidths, rows));
    show_list(rows);
}

// The sheet is the rest of the case.
pub fn read_ranges(mut case: Case) {
    let mut minutes = [7u16; MOST_ELEMENTS];
    let mut lows = [7u16; MOST_ELEMENTS];
    let mut highs = [7u16; MOST_ELEMENTS];
    let mut points = [7u16; MOST_ELEMENTS];
    let mut bandwidths = [7u32; MOST_ELEMENTS];
    let mut counts = [7u64; 8];
    let minutes = case.lent(&mut minutes);
    let lows = case.lent(&mut lows);
    let highs = case.lent(&mut highs);
    let points = case.lent(&mut points);
    let bandwidths = case.lent(&mut bandwidths);
    let counts = case.lent(&mut counts);
    show_answer(tankcurve_read_ranges(case.rest, minutes, lows, highs, points, bandwidths, counts));
    show_list(minutes);
    show_list(lows);
    show_list(highs);
    show_list(points);
    show_list(bandwidths);
    show_list(counts);
}
