// The calls at one mark, the single step, the turn and the row of a record.
use crate::input::{Case, MOST_ELEMENTS};
use crate::show::{show_answer, show_list};
use exports::point::{tankcurve_evaluate, tankcurve_window};
use exports::record::{tankcurve_advance, tankcurve_row};
use exports::turn::tankcurve_turn;

// One of the calls at a mark, in a closure, since a function for C is none itself.
fn point_case<F>(mut case: Case, call: F)
where
    F: FnOnce(&[u16], &[u16], u16, u32, &mut [u64]) -> u64,
    requires { F.IsAlwaysCallable call }
{
    let mut minutes = [0u16; MOST_ELEMENTS];
    let mut values = [0u16; MOST_ELEMENTS];
    let mut out = [7u64; 8];
    let minutes = case.list(&mut minutes);
    let values = case.list(&mut values);
    let point = case.narrow();
    let bandwidth = case.narrow();
    let out = case.lent(&mut out);
    show_answer(call(minutes, values, point, bandwidth, out));
    show_list(out);
}

// The step, or the turn.
fn record_case<F>(mut case: Case, call: F)
where
    F: FnOnce(&mut [u64], &[u16], &[u16], u16, u32) -> u64,
    requires { F.IsAlwaysCallable call }
{
    let mut running = [0u64; 16];
    let mut minutes = [0u16; MOST_ELEMENTS];
    let mut values = [0u16; MOST_ELEMENTS];
    let running = case.list(&mut running);
    let minutes = case.list(&mut minutes);
    let values = case.list(&mut values);
    let point = case.narrow();
    let bandwidth = case.narrow();
    show_answer(call(running, minutes, values, point, bandwidth));
    show_list(running);
}

pub fn evaluate(case: Case) {
    point_case(
        case,
        |ts, vs, z, h, out| tankcurve_evaluate(ts, vs, z, h, out),
    );
}

pub fn window(case: Case) {
    point_case(
        case,
        |ts, vs, z, h, out| tankcurve_window(ts, vs, z, h, out),
    );
}

pub fn advance(case: Case) {
    record_case(case, |r, ts, vs, z, h| tankcurve_advance(r, ts, vs, z, h));
}

pub fn turn(case: Case) {
    record_case(case, |r, ts, vs, z, h| tankcurve_turn(r, ts, vs, z, h));
}

pub fn row(mut case: Case) {
    let mut record = [0u64; 16];
    let mut out = [7u64; 8];
    let record = case.list(&mut record);
    let point = case.narrow();
    let bandwidth = case.narrow();
    let out = case.lent(&mut out);
    show_answer(tankcurve_row(record, point, bandwidth, out));
    show_list(out);
}
