// Each reading enters one cell of either list.
ghost use Rattle.boxes.specs.Cells.{Searchable, CellFound, Clean, CellsFilled};

use crate::cells::Cuts;
use crate::cuts::Coordinate;
use crate::strips::strip;
use meanings::boxes::{BoxReadings, STRIPS};

// The cell of a reading: temperature fastest, 65 to a minute strip. The C interface has the cells as a flat list.
pub(crate) fn cell_of(cuts: Cuts, minute: u16, temperature: u8) -> usize
    requires { Searchable cuts.minutes.now cuts.temperatures.now }
    ensures { CellFound cuts.entry.minutes.now cuts.entry.temperatures.now minute temperature result }
{
    let first = strip(cuts.minutes, u64::from(minute.number() + u16::SHIFT));
    let second = strip(
        cuts.temperatures,
        u64::from(temperature.number() + u8::SHIFT),
    );
    STRIPS * first + second
}

// Takes every reading into its cell, of lists that hold zeros.
pub(crate) fn put_readings(readings: BoxReadings, cuts: Cuts, counts: &mut [u32], sums: &mut [u32])
    requires { Clean readings.minutes.now readings.temperatures.now readings.values.now cuts.minutes.now cuts.temperatures.now counts.old sums.old }
    ensures { CellsFilled readings.entry.minutes.now readings.entry.temperatures.now readings.entry.values.now cuts.entry.minutes.now cuts.entry.temperatures.now counts.new sums.new }
{
    let BoxReadings {
        minutes,
        temperatures,
        values,
    } = readings;
    for (i, minute) in minutes.iter().enumerate() {
        let cell = cell_of(cuts, *minute, temperatures[i]);
        counts[cell] += 1;
        sums[cell] += u32::from(values[i]);
    }
}
