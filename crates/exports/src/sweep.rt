// The whole sweep, the preview and the mark filler, for programs in C and Rust: numbers and slices of numbers only.
// Each answer is one number, DETAIL_UNIT × detail + report: report 0 is accepted, and the detail of a report is its place.

ghost use Rattle.std.specs.Prelude.{◌≡◌};
ghost use Rattle.meanings.specs.Limits.{full, preview as small_limits};
ghost use Rattle.meanings.specs.Calls.{smooth as smooth_meaning, smooth_rows, fill, fill_points, fill_bandwidths};
ghost use Rattle.meanings.specs.Codes.{answered, no_detail};

use crate::answers::refusal_code;
use meanings::{DETAIL_UNIT, Marks, Readings};
use regression::grid::fill_grid;
use regression::sweep::{preview, smooth};

// The whole sweep: rows receives five numbers a mark, and the detail is the passes.
#[unsafe(no_mangle)]
#[tactic(auto, using(crate::proofs::Answered::refused_code, crate::proofs::SweepPlaces::smooth_place, crate::proofs::SweepPlaces::passes_few, meanings::proofs::Checks::same_limits))]
pub extern "C" fn tankcurve_smooth(
    minutes: &[u16],
    values: &[u16],
    points: &[u16],
    bandwidths: &[u32],
    rows: &mut [u64],
) -> u64
    ensures value { result ≡ answered (λ n. n) (smooth_meaning full minutes.now values.now points.now bandwidths.now rows.old) }
    ensures rows_after { rows.new ≡ smooth_rows full minutes.now values.now points.now bandwidths.now rows.old }
{
    let readings = Readings { minutes, values };
    let marks = Marks { points, bandwidths };
    match smooth(readings, marks, rows) {
        Err(refusal) => refusal_code(refusal),
        Ok(passes) => DETAIL_UNIT * passes,
    }
}

// The preview on the panel: the same under its own limits, 256 readings and 64 marks.
#[unsafe(no_mangle)]
#[tactic(auto, using(crate::proofs::Answered::refused_code, crate::proofs::SweepPlaces::smooth_place, crate::proofs::SweepPlaces::passes_few, meanings::proofs::Checks::preview_within_full))]
pub extern "C" fn tankcurve_preview(
    minutes: &[u16],
    values: &[u16],
    points: &[u16],
    bandwidths: &[u32],
    rows: &mut [u64],
) -> u64
    ensures value { result ≡ answered (λ n. n) (smooth_meaning small_limits minutes.now values.now points.now bandwidths.now rows.old) }
    ensures rows_after { rows.new ≡ smooth_rows small_limits minutes.now values.now points.now bandwidths.now rows.old }
{
    let readings = Readings { minutes, values };
    let marks = Marks { points, bandwidths };
    match preview(readings, marks, rows) {
        Err(refusal) => refusal_code(refusal),
        Ok(n) => DETAIL_UNIT * n,
    }
}

// The mark filler.
#[unsafe(no_mangle)]
#[tactic(auto, using(crate::proofs::Answered::refused_code, crate::proofs::SweepPlaces::fill_place))]
pub extern "C" fn tankcurve_fill(
    first: u16,
    spacing: u16,
    preset: u32,
    points: &mut [u16],
    bandwidths: &mut [u32],
) -> u64
    ensures value { result ≡ answered no_detail (fill full first spacing preset points.old bandwidths.old) }
    ensures points_after { points.new ≡ fill_points full first spacing preset points.old bandwidths.old }
    ensures bandwidths_after { bandwidths.new ≡ fill_bandwidths full first spacing preset points.old bandwidths.old }
{
    match fill_grid(first, spacing, preset, points, bandwidths) {
        Err(refusal) => refusal_code(refusal),
        Ok(()) => 0,
    }
}
