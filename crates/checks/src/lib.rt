// The refusals of the calls, for any pair of limits. Every function takes every input.
//
// This file: the single tests that refusals are made of, and the two pairs of limits.
// boxes: minute and temperature together.
// curve: readings with marks, by their lengths and their order, and a list of half widths.
// grid: the mark filler.
// neighbours: half widths by neighbours.
// pair: the comparison of two tanks.
// point: the calls at one mark.
// ranges: a sweep over readings known as ranges.
// series: readings, a running record's edges, and one half width.
// sweep: the sweep and its preview.
#![tactic(auto)]

pub mod boxes;
mod curve;
pub mod grid;
pub mod neighbours;
pub mod pair;
pub mod point;
pub mod ranges;
pub mod series;
pub mod sweep;

ghost use Rattle.std.specs.Prelude.{◌≡◌, length};
ghost use Rattle.meanings.specs.Limits.{full as full_limits, preview};
ghost use Rattle.meanings.specs.Lists.{lowest};
ghost use Rattle.meanings.specs.Reports.{decreases, outside as outside_meaning, bad_bandwidth, uneven_rows, edge_below};

use meanings::{Limits, MAX_BANDWIDTH, Mark};

// The full limits: 1,024 kept readings and 512 marks.
pub fn full() -> Limits
    ensures { result ≡ full_limits }
{
    Limits {
        samples: 1024,
        points: 512,
    }
}

// The preview's limits: 256 kept readings and 64 marks. Beside `full`, since each is held to its own meaning, which no constant's declaration can say.
pub fn preview_limits() -> Limits
    ensures { result ≡ preview }
{
    Limits {
        samples: 256,
        points: 64,
    }
}

// The lowest position whose element is below the one before. By `find` the compiled loop has 8 instructions an element, and this one 6.
pub(crate) fn first_decrease(xs: &[u16]) -> Option<usize>
    ensures { result ≡ lowest (decreases xs.now) (length xs.now) }
{
    for i in 1..xs.len() {
        if xs[i] < xs[i - 1] {
            return Some(i);
        }
    }
    None
}

// Whether a half width is 0 or over the greatest one.
pub fn outside(bandwidth: u32, most: u32) -> bool
    ensures { result ≡ outside_meaning most bandwidth }
{
    if bandwidth == 0 {
        return true;
    }
    most < bandwidth
}

// Whether a half width is out of the range of minutes.
pub fn out_of_range(bandwidth: u32) -> bool
    ensures { result ≡ bad_bandwidth bandwidth }
{
    outside(bandwidth, MAX_BANDWIDTH)
}

// Whether a list of so many numbers has another length than `width` numbers a mark. No product is made, so none wraps.
pub(crate) fn uneven_rows(rows: usize, width: usize, points: usize) -> bool
    ensures { result ≡ uneven_rows width rows points }
{
    if width == 0 {
        return 0 < rows;
    }
    if rows % width != 0 {
        return true;
    }
    if rows / width != points {
        return true;
    }
    false
}

// Whether an edge of the window at one mark lies below that at the mark before it. Edges are compared by sums, so none is negative.
pub fn edge_below(mark: Mark, before: Mark) -> bool
    ensures { result ≡ edge_below mark.point mark.bandwidth before.point before.bandwidth }
{
    let z = mark.point as u64;
    let h = mark.bandwidth as u64;
    let z0 = before.point as u64;
    let h0 = before.bandwidth as u64;
    if z + h0 < z0 + h {
        return true;
    }
    z + h < z0 + h0
}
