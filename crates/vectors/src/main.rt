// Each exported call on the cases of stdin: its answer, with every lent list whole. What is written is held to the file stdout. Both files are made by the
// second implementation: bin gate_vectors of reference/, which says their form.
#![tactic(auto)]

mod biweight_cases;
mod boxes_cases;
mod doubles_cases;
mod input;
mod limit_cases;
mod neighbours_cases;
mod pair_cases;
mod point_cases;
mod ranges_cases;
mod sheet_cases;
mod show;
mod sweep_cases;
mod text_cases;

ghost use Rattle.std.specs.Prelude.{◌≤◌};

use crate::input::{Case, next_case};

// More cases than the input has: what ends the loop over them by proof.
const MOST_CASES: u64 = 100000;

// Makes the call of this number on the rest of its case, and writes what it gives. Numbers and names are those of reference/calls.txt.
fn answer(call: u64, case: Case) {
    match call {
        1 => point_cases::evaluate(case),
        2 => point_cases::window(case),
        3 => point_cases::advance(case),
        4 => point_cases::turn(case),
        5 => point_cases::row(case),
        6 => sweep_cases::smooth(case),
        7 => sweep_cases::preview(case),
        8 => sweep_cases::fill(case),
        9 => sheet_cases::read(case),
        10 => text_cases::text(case),
        11 => text_cases::text_lent(case),
        12 => text_cases::refusal_text(case),
        13 => text_cases::refusal_text_lent(case),
        14 => limit_cases::first_at_most(case),
        15 => limit_cases::decisive(case),
        16 => pair_cases::compare(case),
        17 => pair_cases::window_run(case),
        18 => neighbours_cases::neighbours(case),
        19 => biweight_cases::biweight(case),
        20 => doubles_cases::doubles(case),
        21 => doubles_cases::row_cells(case),
        22 => ranges_cases::smooth_ranges(case),
        23 => ranges_cases::read_ranges(case),
        24 => boxes_cases::boxes(case),
        _ => (),
    }
}

// Answers the cases of the input, each by the call whose number it begins with, and gives how many there were.
fn each_case() -> u64
    ensures { result ≤ 100000 }
{
    for n in 0..MOST_CASES {
        let mut bytes = io::large_buffer();
        let Some(size) = next_case(&mut bytes) else {
            return n;
        };
        let mut case = Case {
            rest: &bytes[..size],
        };
        let call = case.number();
        answer(call, case);
    }
    MOST_CASES
}

fn main() {
    each_case();
}
