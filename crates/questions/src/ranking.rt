// Two rows set against each other: whether their values differ, and whose tank is higher then. Every function takes every input.

ghost use Rattle.std.specs.Prelude.{◌≡◌};
ghost use Rattle.meanings.specs.pair.Comparison.{unlike as unlike_meaning, higher_of, split_of};

use meanings::Estimate;
use meanings::pair::{Bounded, Parting, Tank};

// Whether two rows have different values. Two missing ones are the same number.
#[tactic(auto, unfolding(meanings::specs::pair::Comparison::unlike))]
pub(crate) fn unlike(row: Estimate, other: Estimate) -> bool
    ensures { result ≡ unlike_meaning row other }
{
    row.value != other.value
}

// The tank that reads higher, of the first one's row and the second one's. No order of numbers says it: a missing value is above every other, whatever
// number stands for it, and of two missing ones neither is above.
#[tactic(auto, unfolding(meanings::specs::pair::Comparison::higher_of, meanings::specs::pair::Comparison::above))]
pub fn higher(row: Estimate, other: Estimate) -> Tank
    ensures { result ≡ higher_of row other }
{
    if other.weight != 0 && (row.weight == 0 || other.value < row.value) {
        Tank::First
    } else {
        Tank::Second
    }
}

// The tanks part at mark `point` with these rows: the higher one's edges are its run's bounds.
#[tactic(auto, unfolding(meanings::specs::pair::Comparison::split_of))]
pub(crate) fn split_at(point: usize, row: Estimate, other: Estimate) -> Bounded
    ensures { result ≡ split_of point row other }
{
    let higher = higher(row, other);
    Bounded {
        parting: Parting {
            position: point,
            higher,
        },
        left: higher.of(row.left, other.left) as usize,
        right: higher.of(row.right, other.right) as usize,
    }
}
