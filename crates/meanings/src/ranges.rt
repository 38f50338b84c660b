// The types that readings known as ranges give. What each value has to be is defined in specs/.

// The least and the greatest that a number can be.
#[derive(Clone, Copy, Debug, PartialEq, Eq)]
pub struct Bounds {
    pub low: u64,
    pub high: u64,
}

// The row of a mark over readings of which each value is known only to lie between two. No one type with Estimate: that is the row of the C interface,
// and each theorem of it would name its numbers' type.
#[derive(Clone, Copy, Debug, PartialEq, Eq)]
pub struct RangeEstimate {
    pub left: u64,
    pub right: u64,
    pub weight: u64,
    pub sum: Bounds,
    pub value: Bounds,
}

// How many numbers such a row takes in the list of rows.
pub const RANGE_ROW_WIDTH: usize = 7;

// What the reading lines of a sheet hold: a value each, or a range.
#[derive(Clone, Copy, Debug, PartialEq, Eq)]
pub enum Kind {
    Plain = 0,
    Ranges = 1,
}

// How many readings a sheet of either kind keeps, how many marks it has, and its kind. With Counts of `meanings` in it each clause about a number would read
// counts.counts.samples for counts.samples, and no call takes one where it has the other.
#[derive(Clone, Copy, Debug, PartialEq, Eq)]
pub struct RangeCounts {
    pub samples: usize,
    pub points: usize,
    pub kind: Kind,
}

// The kept readings of a tank known as ranges, in three lent lists: Readings of `meanings` and one more, apart so that each call takes what it reads.
#[derive(Clone, Copy)]
pub struct Ranges<'a> {
    pub minutes: &'a [u16],
    pub lows: &'a [u16],
    pub highs: &'a [u16],
}
