// Minute and temperature together: the meaning, in specs/, and the types that calls share, named by the field's terms.

use crate::Limits;

// The greatest half width along temperatures: max_temperature_bandwidth of specs/Boxes.antt.
pub const MAX_TEMPERATURE_BANDWIDTH: u32 = 256;

// How many readings there may be, and how many marks in each direction: box_limits of specs/Boxes.antt.
pub const BOX_LIMITS: Limits = Limits {
    samples: 1024,
    points: 32,
};

// How many cuts a direction has at most, two for each mark.
pub const MAX_CUTS: usize = 64;

// How many cells a minute strip has: strips of specs/Boxes.antt.
pub const STRIPS: usize = 65;

// The length of each list of cells: cells of specs/Boxes.antt.
pub const CELLS: usize = 4225;

// The kept readings with their temperatures, in three lent lists: Readings of `meanings` and one more, apart so that each call takes what it reads.
#[derive(Clone, Copy)]
pub struct BoxReadings<'a> {
    pub minutes: &'a [u16],
    pub temperatures: &'a [u8],
    pub values: &'a [u16],
}

// The marks of one direction with their half widths, in two lent lists. Marks of `meanings` is that of minutes, in calls that know no other direction;
// one type for both would put a parameter into all of them.
#[derive(Clone, Copy)]
pub struct AxisMarks<'a, T> {
    pub points: &'a [T],
    pub bandwidths: &'a [u32],
}

// What a call is asked: the readings, and the marks of both directions.
#[derive(Clone, Copy)]
pub struct Question<'a> {
    pub readings: BoxReadings<'a>,
    pub minute_marks: AxisMarks<'a, u16>,
    pub temperature_marks: AxisMarks<'a, u8>,
}

// How long the lists are that a call fills in.
#[derive(Clone, Copy, Debug, PartialEq, Eq)]
pub struct Sizes {
    pub boxes: usize,
    pub counts: usize,
    pub sums: usize,
}

// A mark's window: the strip that it begins with, and the one behind its last.
#[derive(Clone, Copy, Debug, Default, PartialEq, Eq)]
pub struct Window {
    pub first: usize,
    pub end: usize,
}
