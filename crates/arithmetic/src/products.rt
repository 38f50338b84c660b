// The weight or sum that three of the running sums give, modulo 2^64. The function takes every input.

ghost use Rattle.std.specs.Prelude.{◌≡◌};
ghost use Rattle.meanings.specs.Running.{combined};

use meanings::Mark;

// The weight or the sum that three of the running sums of any record give, modulo 2^64: (h² − z²) s0 + 2 z s1 − s2.
pub(crate) fn wrapping_combined(s0: u64, s1: u64, s2: u64, mark: Mark) -> u64
    ensures { result ≡ combined 64 mark.point mark.bandwidth s0 s1 s2 }
{
    let z = mark.point as u64;
    let h = mark.bandwidth as u64;
    let wide = (h * h).wrapping_mul(s0);
    let twice = (2 * z).wrapping_mul(s1);
    let near = (z * z).wrapping_mul(s0);
    let gained = wide.wrapping_add(twice);
    let lost = near.wrapping_add(s2);
    gained.wrapping_sub(lost)
}
