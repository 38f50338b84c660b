// What is promised, in specs/, and its proof from the contracts of the calls, in proofs/, a folder a subject. Promises.antt of specs/ names
// every top statement, Demands.antt has the three demands. That each call ends: crates/demands_hold. What is said of no call is the contract of a function
// here, which does nothing; a clause cites no file that leads to a function's contract, so what is said of calls can't be one.
//
// biweight: the row under the biweight kernel.
// boxes: minute and temperature together.
// conditions: when a call is refused, and that the checks of the meanings find it.
// decisive: the reading that decides.
// doubles: weights and sums as doubles.
// neighbours: half widths by neighbours.
// pair: the comparison of two tanks.
// range_reader: the reader of sheets of both kinds.
// ranges: the sweep over readings known as ranges.
// turn: the turn of a running record.
#![tactic(auto)]

ghost use Rattle.meanings.specs.Claim.{Demand3};
ghost use Rattle.promises.specs.Worked.{WorkedCases};

// The worked cases of the document, and what the program writes for whole sheets.
pub fn worked_cases()
    ensures { WorkedCases }
{}

// The third demand, of the meanings: every list of steps.
pub fn every_list_of_steps()
    ensures { Demand3 }
{}
