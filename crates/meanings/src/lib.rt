// What the product means: the types that calls take and give, and the specification as definitions that compute. Each comment gives the brewery's word.
// What each value has to be is defined in specs/, laws about it are in proofs/. What refuses a call is an Err that holds the report with its place.
//
// This file: readings, marks, rows, the running record and the reports. numbers: a row and a record as plain numbers.
// biweight: the biweight row, in specs/biweight; it has no type of its own.
// boxes: minute and temperature together.
// decisive: the reading that decides, in specs/decisive; it has no type of its own.
// doubles: weights and sums for a spreadsheet, whose cells are doubles.
// limit: the first mark at or below a limit.
// neighbours: half widths by neighbours, in specs/neighbours; it has no type of its own.
// pair: two tanks side by side.
// ranges: readings known as ranges, and sheets that have them.
#![tactic(auto)]

pub mod boxes;
pub mod doubles;
pub mod limit;
pub mod pair;
pub mod ranges;

ghost use Rattle.std.specs.Prelude.{◌≡◌};
ghost use Rattle.meanings.specs.Reports.{number};

mod numbers;

// The length of the buffer that a text is written into: max_output of specs/Limits.antt.
pub const MAX_OUTPUT: usize = 44113;

// The greatest half width: max_bandwidth of specs/Limits.antt.
pub const MAX_BANDWIDTH: u32 = 65536;

// How many numbers a row has: row_width of specs/Limits.antt.
pub const ROW_WIDTH: usize = 5;

// How many numbers a running record has.
pub const RECORD_LENGTH: usize = 9;

// What one of a detail counts for in an exported answer: detail_unit of specs/Codes.antt. Every report's number is below it.
pub const DETAIL_UNIT: u64 = 256;

// The byte that ends a line.
pub const LINE_FEED: u8 = 10;

// The byte between the numbers of a line.
pub const COMMA: u8 = 44;

// SPECIFICATION, "Reports": the seventeen reports. `number` of specs/Reports.antt gives each its number.
#[derive(Clone, Copy, Debug, PartialEq, Eq)]
pub enum Report {
    TooLong = 1, // "overlong"
    BadHeader = 2, // "heading"
    MalformedLine = 3, // "torn line"
    SampleOutOfOrder = 4, // "early reading"
    PointOutOfOrder = 5, // "early mark"
    TooMany = 6, // "crowded"
    NoPoints = 7, // "no marks"
    LengthMismatch = 8, // "uneven"
    BandwidthOutOfRange = 9, // "half width"
    EdgeDecreases = 10, // "edge back"
    InvalidRecord = 11, // "foreign record"
    UnknownPreset = 12, // "knob"
    GridOverflow = 13, // "past the clock"
    TooFewSamples = 14, // "too few"
    CrossedRange = 15, // "crossed range"
    SecondSeries = 16, // "second tank"
    TemperatureOutOfOrder = 17, // "early temperature mark"
}

// A report with its place: what a refused call answers.
#[derive(Clone, Copy, Debug, PartialEq, Eq)]
pub struct Refusal {
    pub report: Report,
    pub place: usize,
}

impl Report {
    // The refusal with this report at a place.
    pub fn at(self, place: usize) -> Refusal
        ensures { result ≡ record { report = self; place = place } }
    {
        Refusal {
            report: self,
            place,
        }
    }
}

impl From<Report> for u64 {
    ghost from_gives = { λ report n. n ≡ number report };

    // The report's number.
    fn from(report: Report) -> u64 {
        report as u64
    }
}

// How many kept readings and how many marks there may be.
#[derive(Clone, Copy, Debug, PartialEq, Eq)]
pub struct Limits {
    pub samples: usize,
    pub points: usize,
}

// How many readings a sheet keeps and how many marks it has. Beside Limits, which says how many there may be, so that neither is taken for the other.
#[derive(Clone, Copy, Debug, PartialEq, Eq)]
pub struct Counts {
    pub samples: usize,
    pub points: usize,
}

// The row of a mark.
#[derive(Clone, Copy, Debug, PartialEq, Eq)]
pub struct Estimate {
    pub left: u64,
    pub right: u64,
    pub weight: u64,
    pub sum: u64,
    pub value: u64,
}

// The six running sums: spq is the sum of time to the power p times value to the power q.
#[derive(Clone, Copy, Debug, Default, PartialEq, Eq)]
pub struct PowerSums {
    pub s00: u64,
    pub s10: u64,
    pub s20: u64,
    pub s01: u64,
    pub s11: u64,
    pub s21: u64,
}

// The running record: the edges, the sums over the run between them, and how far both edges have travelled.
#[derive(Clone, Copy, Debug, Default, PartialEq, Eq)]
pub struct RunningSums {
    pub left: usize,
    pub right: usize,
    pub sums: PowerSums,
    pub passes: u64,
}

// What a turn leaves and answers: the record, as it was where the turn is refused, and the report if it is. No Result holds both.
#[derive(Clone, Copy, Debug, PartialEq, Eq)]
pub struct Turning {
    pub running: RunningSums,
    pub verdict: Result<(), Refusal>,
}

// The kept readings of a tank, in two lent lists of any lengths: the checks have to see these, so no invariant holds of them. No call compares or
// prints lent lists, so neither is derived, here and in the structs like it.
#[derive(Clone, Copy)]
pub struct Readings<'a> {
    pub minutes: &'a [u16],
    pub values: &'a [u16],
}

// The marks with their half widths, in two lent lists.
#[derive(Clone, Copy)]
pub struct Marks<'a> {
    pub points: &'a [u16],
    pub bandwidths: &'a [u32],
}

// A mark: a minute and the half width there.
#[derive(Clone, Copy, Debug, PartialEq, Eq)]
pub struct Mark {
    pub point: u16,
    pub bandwidth: u32,
}
