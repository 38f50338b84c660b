// A row's value, the least minute of a window, and the place of an edge among minutes. Every function takes every input.

ghost use Rattle.std.specs.Prelude.{◌≡◌, ◌-◌};
ghost use Rattle.meanings.specs.Estimate.{value_of};
ghost use Rattle.arithmetic.specs.Positions.{FirstAtLeast, halving_place};

use meanings::Mark;

// A sum divided by its weight to the nearest whole number, a half to the even neighbour; 65,536 for missing if the weight is 0, which is
// the number of a missing value in a row that C reads. Sum and weight are two numbers, as they stand in that row.
// The rest is held against what it lacks of the weight, so that nothing is doubled.
#[tactic(auto, using(crate::proofs::Quotients::no_weight, crate::proofs::Quotients::keeps, crate::proofs::Quotients::raises, crate::proofs::Quotients::makes_even))]
pub fn value(sum: u64, weight: u64) -> u64
    ensures { result ≡ value_of sum weight }
{
    if weight == 0 {
        return 65536;
    }
    let quotient = sum / weight;
    let rest = sum % weight;
    let lack = weight - rest;
    if rest < lack {
        return quotient;
    }
    if lack < rest {
        return quotient + 1;
    }
    quotient + quotient % 2
}

// The least minute that is not under the left edge: z − h, or 0 where that is negative.
pub fn lowest_minute(mark: Mark) -> u64
    ensures { result ≡ mark.point - mark.bandwidth }
{
    (mark.point as u64).saturating_sub(mark.bandwidth as u64)
}

// The place of `bound` among the minutes, by halving; of ordered ones it is the first position whose minute is at least `bound`, else their number. The
// library's `partition_point` takes the same turns, but says nothing of minutes that do not rise.
#[tactic(auto, using(crate::proofs::Halving::none_found, crate::proofs::Halving::first_of_none, crate::proofs::Halving::halving_begins, crate::proofs::Halving::goes_on_after, crate::proofs::Halving::goes_on_before, crate::proofs::Halving::ends_after, crate::proofs::Halving::ends_at, crate::proofs::Halving::first_after, crate::proofs::Halving::first_at))]
pub fn first_at_least(minutes: &[u16], bound: u64) -> usize
    ensures place { result ≡ halving_place minutes.now bound }
    ensures ordered { FirstAtLeast minutes.now bound result }
{
    let mut size = minutes.len();
    if size == 0 {
        return 0;
    }
    let mut base = 0;
    while size > 1 {
        let half = size / 2;
        size -= half;
        if (minutes[base + half] as u64) < bound {
            base += half;
        }
    }
    if (minutes[base] as u64) < bound {
        return base + 1;
    }
    base
}
