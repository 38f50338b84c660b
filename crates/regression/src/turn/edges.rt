// An edge on its way among ordered minutes, with the six sums that take in what it passes upward and let go what it passes downward.
ghost use Rattle.regression.specs.Travels.{Among, Reaches, Raised, Lowered};

use arithmetic::sums::{Edge, Minus, Plus, sample_changed};
use meanings::{PowerSums, Readings};

// Up to the first minute of at least `bound`, or to the end. Beside `lowered`: the two go over the positions in another order, stop by another test and
// stand on another side of the reading where they stop, and one function would take all three.
pub(crate) fn raised(edge: Edge<PowerSums>, readings: Readings, bound: u64) -> Edge<PowerSums>
    requires { Among readings.minutes.now readings.values.now edge.at }
    ensures { Raised readings.entry.minutes.now readings.entry.values.now bound edge result }
{
    let mut sums = edge.sums;
    for at in edge.at..readings.minutes.len() {
        if bound <= readings.minutes[at] as u64 {
            return Edge { at, sums };
        }
        sums = sample_changed::<Plus>(sums, readings.minutes[at], readings.values[at]);
    }
    Edge {
        at: readings.minutes.len(),
        sums,
    }
}

// Down to a minute below `bound`, or to the start.
pub(crate) fn lowered(edge: Edge<PowerSums>, readings: Readings, bound: u64) -> Edge<PowerSums>
    requires { Reaches readings.minutes.now readings.values.now bound edge.at }
    ensures { Lowered readings.entry.minutes.now readings.entry.values.now bound edge result }
{
    let mut sums = edge.sums;
    for before in (0..edge.at).rev() {
        if (readings.minutes[before] as u64) < bound {
            return Edge {
                at: before + 1,
                sums,
            };
        }
        sums = sample_changed::<Minus>(sums, readings.minutes[before], readings.values[before]);
    }
    Edge { at: 0, sums }
}

// To the first minute of at least `bound`, or to the end: up, then down. At most one of the two goes anywhere.
pub(crate) fn edge_to(edge: Edge<PowerSums>, readings: Readings, bound: u64) -> Edge<PowerSums>
    requires { Among readings.minutes.now readings.values.now edge.at }
    ensures { Lowered readings.entry.minutes.now readings.entry.values.now bound edge result }
{
    let above = raised(edge, readings, bound);
    lowered(above, readings, bound)
}
