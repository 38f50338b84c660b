// Two tanks set against each other: one step a mark on each tank's running record, side by side, up to the first mark at which their values differ
// and no further.

ghost use Rattle.std.specs.Prelude.{◌≡◌, ◌+◌, ◌*◌};
ghost use Rattle.meanings.specs.Calls.{answer_of};
ghost use Rattle.meanings.specs.Limits.{full as full_limits};
ghost use Rattle.meanings.specs.pair.Comparison.{of_tank, compare as compare_meaning, compare_bounds, compare_run, run_tank, run_start};
ghost use Rattle.meanings.proofs.Accepted.{PairAccepted};
ghost use Rattle.questions.specs.PairSearch.{Searched};

use crate::ranking::{split_at, unlike};
use checks::full;
use checks::pair::compare_fault;
use meanings::pair::{Bounded, Parting};
use meanings::{Mark, Marks, Readings, Refusal, RunningSums};
use regression::estimator::of_16_bits;
use regression::step::step_to;

// The search in accepted lists.
fn parted(first: Readings, second: Readings, marks: Marks) -> Option<Bounded>
    requires { PairAccepted first.minutes.now first.values.now second.minutes.now second.values.now marks.points.now marks.bandwidths.now }
    ensures { Searched first.entry.minutes.now first.entry.values.now second.entry.minutes.now second.entry.values.now marks.entry.points.now marks.entry.bandwidths.now result }
{
    of_16_bits(first.minutes);
    of_16_bits(first.values);
    of_16_bits(second.minutes);
    of_16_bits(second.values);
    let mut running1 = RunningSums::default();
    let mut running2 = RunningSums::default();
    for k in 0..marks.points.len() {
        let mark = Mark {
            point: marks.points[k],
            bandwidth: marks.bandwidths[k],
        };
        let one = step_to(running1, first, mark);
        let two = step_to(running2, second, mark);
        if unlike(one.row, two.row) {
            return Some(split_at(k, one.row, two.row));
        }
        running1 = one.running;
        running2 = two.running;
    }
    None
}

// Where two tanks part, the tank that is higher there and the bounds of its run; alike; or the report. The calls below and the exported one are made
// of it.
#[tactic(auto, unfolding(meanings::specs::pair::Comparison::compare, meanings::specs::pair::Comparison::compare_bounds))]
pub fn part(first: Readings, second: Readings, marks: Marks) -> Result<Option<Bounded>, Refusal>
    ensures { answer_of result ≡ compare_bounds full_limits first.entry.minutes.now first.entry.values.now second.entry.minutes.now second.entry.values.now marks.entry.points.now marks.entry.bandwidths.now }
{
    compare_fault(first, second, marks, full())?;
    Ok(parted(first, second, marks))
}

// The first mark at which the tanks' values differ and the tank that is higher there; alike; or the report.
#[tactic(auto, unfolding(meanings::specs::pair::Comparison::compare_bounds))]
pub fn compare(first: Readings, second: Readings, marks: Marks) -> Result<Option<Parting>, Refusal>
    ensures { answer_of result ≡ compare_meaning full_limits first.entry.minutes.now first.entry.values.now second.entry.minutes.now second.entry.values.now marks.entry.points.now marks.entry.bandwidths.now }
{
    let parting = part(first, second, marks)?;
    Ok(parting.map(
        |bounded|
            ensures { result ≡ bounded.parting }
        { bounded.parting },
    ))
}

// The same question's run, as a part of the higher tank's own values: where the tanks do not part, and on a refusal, the empty part at the start of
// the first tank's. It is a part of the values whatever the answer, as callers may rely on, so it is no Option. The lists stay apart, since the answer
// borrows the values and not the minutes.
#[tactic(auto, unfolding(meanings::specs::pair::Comparison::compare_bounds, meanings::specs::pair::Comparison::compare_run, meanings::specs::pair::Comparison::run_tank, meanings::specs::pair::Comparison::run_start), using(crate::proofs::Answers::run_ordered, crate::proofs::Answers::higher_fits))]
pub fn compare_run<'a>(
    minutes1: &[u16],
    values1: &'a [u16],
    minutes2: &[u16],
    values2: &'a [u16],
    marks: Marks,
) -> &'a [u16]
    ensures result_value { result.now ≡ compare_run full_limits minutes1.now values1.now minutes2.now values2.now marks.entry.points.now marks.entry.bandwidths.now }
    ensures ref_ptr_value { (result.ref_ptr.0 ≡ of_tank (run_tank full_limits minutes1.now values1.now minutes2.now values2.now marks.entry.points.now marks.entry.bandwidths.now) values1.entry.ref_ptr.0 values2.entry.ref_ptr.0) × (result.ref_ptr.1 ≡ of_tank (run_tank full_limits minutes1.now values1.now minutes2.now values2.now marks.entry.points.now marks.entry.bandwidths.now) values1.entry.ref_ptr.1 values2.entry.ref_ptr.1 + run_start full_limits minutes1.now values1.now minutes2.now values2.now marks.entry.points.now marks.entry.bandwidths.now * 2) }
{
    let first = Readings {
        minutes: minutes1,
        values: values1,
    };
    let second = Readings {
        minutes: minutes2,
        values: values2,
    };
    match part(first, second, marks) {
        // two arms for one part: behind an or-pattern or a let-else the proof is not told which of both was met
        Err(_) => &values1[..0],
        Ok(None) => &values1[..0],
        Ok(Some(bounded)) => {
            let higher = bounded.parting.higher.of(values1, values2);
            &higher[bounded.left..bounded.right]
        }
    }
}
