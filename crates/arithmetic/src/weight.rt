// The weight of one reading at a mark. It takes every input.

ghost use Rattle.std.specs.Prelude.{◌≡◌};
ghost use Rattle.meanings.specs.Estimate.{kernel};

use meanings::Mark;

// h² − d² for the reading's distance d from the mark; from the window's edge on 0. The square is that of the difference modulo 2^64, which needs no
// comparison. With abs_diff, and as (h − d)(h + d) with a test, the reading that decides takes 1.20 and 1.33 of the instructions (docs/FIGURES.md).
#[tactic(auto, using(crate::proofs::Squares::square_fits, crate::proofs::Squares::weight_is_kernel))]
pub fn sample_weight(minute: u16, mark: Mark) -> u64
    ensures { result ≡ kernel mark.point mark.bandwidth minute }
{
    let h = mark.bandwidth as u64;
    let d = (minute as u64).wrapping_sub(mark.point as u64);
    (h * h).saturating_sub(d.wrapping_mul(d))
}
