// Half widths by neighbours, for programs in C and Rust: numbers and slices of numbers only.
// Each answer is one number, DETAIL_UNIT × detail + report: report 0 is accepted, and the detail of a report is its place.

ghost use Rattle.std.specs.Prelude.{◌≡◌};
ghost use Rattle.meanings.specs.Limits.{full};
ghost use Rattle.meanings.specs.Codes.{answered, no_detail};
ghost use Rattle.meanings.specs.neighbours.Neighbours.{neighbours as neighbours_meaning, bandwidths_then, rows_then};

use crate::answers::refusal_code;
use meanings::Readings;
use questions::neighbours::neighbours;

// bandwidths receives a half width a mark, by its k nearest readings, and rows five numbers a mark.
#[unsafe(no_mangle)]
#[tactic(auto, using(crate::proofs::Answered::refused_code, crate::proofs::NeighboursPlaces::neighbours_place))]
pub extern "C" fn tankcurve_neighbours(
    minutes: &[u16],
    values: &[u16],
    points: &[u16],
    k: usize,
    bandwidths: &mut [u32],
    rows: &mut [u64],
) -> u64
    ensures value { result ≡ answered no_detail (neighbours_meaning full minutes.now values.now points.now k bandwidths.old rows.old) }
    ensures bandwidths_after { bandwidths.new ≡ bandwidths_then full minutes.now values.now points.now k bandwidths.old rows.old }
    ensures rows_after { rows.new ≡ rows_then full minutes.now values.now points.now k bandwidths.old rows.old }
{
    let readings = Readings { minutes, values };
    match neighbours(readings, points, k, bandwidths, rows) {
        Err(refusal) => refusal_code(refusal),
        Ok(()) => 0,
    }
}
