// The kernel regression over readings: the question at one mark, the step of a running record, and the sweep over marks.
//
// estimator: the question at one mark, its run, and the single step.
// fused_step: the step that looks at each reading once.
// grid: the bandwidth presets, and the evaluation grid.
// ranges: the sweep over readings known as ranges.
// step: a running record on its way over a list of marks, with the row after each step.
// sweep: the whole sweep, and its preview.
// turn: a running record moved to any window, its edges forth or back.
#![tactic(auto)]

pub mod estimator;
mod fused_step;
pub mod grid;
pub mod ranges;
pub mod step;
pub mod sweep;
pub mod turn;
