// The types of weights and sums for a spreadsheet, whose cells are doubles. What each value has to be is defined in specs/.

// A number from 2^53 on: the remainder by 2^32 as the low part, the rest as the high part.
#[derive(Clone, Copy, Debug, PartialEq)]
pub struct HighLow {
    pub high: f64,
    pub low: f64,
}

// What a weight or a sum is handed over as.
#[derive(Clone, Copy, Debug, PartialEq)]
pub enum Cell {
    Empty,
    One(f64),
    Pair(HighLow),
}

// The weight and the sum of a row.
#[derive(Clone, Copy, Debug, PartialEq)]
pub struct RowCells {
    pub weight: Cell,
    pub sum: Cell,
}
