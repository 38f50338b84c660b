// Laws about the definitions of `meanings` beyond what a contract says. No code: specs/ has the statements, proofs/ their proofs, a folder a subject.
//
// biweight: the biweight row is a published estimator, and its value stays among its readings.
// boxes: a window is a run of strips, and a box is the sum of its cells.
// neighbours: half widths by neighbours take no edge back, and the sweep accepts them.
// output: what an accepted sheet's lists satisfy, and how long the program's output can be.
// pair: "no higher" is an order, and what two sweeps say of two tanks.
// ranges: the sheet with ranges: a second, declarative reading, which the reader's meaning agrees with, and the length of its text.
// rows: sweeps under two pairs of limits, a value among its readings, equal minutes that change places.
// sheet: the reader's meaning is what a second, declarative reading of the sheet says, accepted or refused.
// text: a number is written and read as it is, and a line has its parts.
// turn: what steps and turns over the same readings keep.
#![tactic(auto)]
