// The sweep, the preview and the mark filler.
use crate::input::{Case, MOST_ELEMENTS};
use crate::show::{show_answer, show_list};
use exports::sweep::{tankcurve_fill, tankcurve_preview, tankcurve_smooth};

// The sweep or the preview, in a closure, since a function for C is none itself.
fn smooth_case<F>(mut case: Case, call: F)
where
    F: FnOnce(&[u16], &[u16], &[u16], &[u32], &mut [u64]) -> u64,
    requires { F.IsAlwaysCallable call }
{
    let mut minutes = [0u16; MOST_ELEMENTS];
    let mut values = [0u16; MOST_ELEMENTS];
    let mut points = [0u16; MOST_ELEMENTS];
    let mut bandwidths = [0u32; MOST_ELEMENTS];
    let mut rows = [7u64; 2600];
    let minutes = case.list(&mut minutes);
    let values = case.list(&mut values);
    let points = case.list(&mut points);
    let bandwidths = case.list(&mut bandwidths);
    let rows = case.lent(&mut rows);
    show_answer(call(minutes, values, points, bandwidths, rows));
    show_list(rows);
}

pub fn smooth(case: Case) {
    smooth_case(
        case,
        |ts, vs, zs, hs, out| tankcurve_smooth(ts, vs, zs, hs, out),
    );
}

pub fn preview(case: Case) {
    smooth_case(
        case,
        |ts, vs, zs, hs, out| tankcurve_preview(ts, vs, zs, hs, out),
    );
}

pub fn fill(mut case: Case) {
    let mut points = [7u16; MOST_ELEMENTS];
    let mut bandwidths = [7u32; MOST_ELEMENTS];
    let first = case.narrow();
    let spacing = case.narrow();
    let preset = case.narrow();
    let points = case.lent(&mut points);
    let bandwidths = case.lent(&mut bandwidths);
    show_answer(tankcurve_fill(first, spacing, preset, points, bandwidths));
    show_list(points);
    show_list(bandwidths);
}
