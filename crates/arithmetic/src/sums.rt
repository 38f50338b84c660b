// The estimator's six running sums with a reading, or with six others, taken in or let go, and the passes with the way of an edge, kept modulo 2^64. Every
// function takes every input.

ghost use Rattle.std.specs.Prelude.{◌≡◌, ℕ, ◌+◌, ◌*◌, ◌^◌, ◌<◌};
ghost use Rattle.meanings.specs.Lists.{distance};
ghost use Rattle.meanings.specs.Running.{six, sum_at, plus, minus};

use meanings::PowerSums;

// What becomes of a sum by a term: letting go, as taking in, in parts is doing so at once.
pub trait Change {
    ghost op: { ℕ → ℕ → ℕ };

    fn changed(sum: u64, term: u64) -> u64
        ensures { result ≡ op sum term };

    ghost by_zero: { (x : ℕ) → x < 2 ^ 64 → op x 0 ≡ x };

    ghost by_parts: { (x y z : ℕ) → op (op x y) z ≡ op x (y + z) };
}

// The term is taken in.
#[derive(Clone, Copy, Debug, PartialEq, Eq)]
pub struct Plus;

impl Change for Plus {
    ghost use Rattle.arithmetic.specs.Wrapping.{plus_zero, plus_plus};

    ghost op = { plus 64 };

    fn changed(sum: u64, term: u64) -> u64 {
        sum.wrapping_add(term)
    }

    ghost by_zero = { plus_zero 64 };

    ghost by_parts = { plus_plus 64 };
}

// The term is let go.
#[derive(Clone, Copy, Debug, PartialEq, Eq)]
pub struct Minus;

impl Change for Minus {
    ghost use Rattle.arithmetic.specs.Wrapping.{minus_zero, minus_minus};

    ghost op = { minus 64 };

    fn changed(sum: u64, term: u64) -> u64 {
        sum.wrapping_sub(term)
    }

    ghost by_zero = { minus_zero 64 };

    ghost by_parts = { minus_minus 64 };
}

// Where an edge stands among the readings, and the sums there.
#[derive(Clone, Copy, Debug, PartialEq, Eq)]
pub struct Edge<S> {
    pub at: usize,
    pub sums: S,
}

// The six of one reading: products of powers of minute and value.
#[tactic(auto, using(crate::proofs::OneSample::sample_terms))]
fn sample_sums(time: u16, value: u16) -> PowerSums
    ensures { result ≡ six (λ p q. time ^ p * value ^ q) }
{
    let t = time as u64;
    let v = value as u64;
    let tt = t * t;
    PowerSums {
        s00: 1,
        s10: t,
        s20: tt,
        s01: v,
        s11: t * v,
        s21: tt * v,
    }
}

// Six sums, each changed by one of six others.
pub fn sums_changed<C: Change>(s: PowerSums, by: PowerSums) -> PowerSums
    ensures { result ≡ six (λ p q. C.op (sum_at s p q) (sum_at by p q)) }
{
    PowerSums {
        s00: C::changed(s.s00, by.s00),
        s10: C::changed(s.s10, by.s10),
        s20: C::changed(s.s20, by.s20),
        s01: C::changed(s.s01, by.s01),
        s11: C::changed(s.s11, by.s11),
        s21: C::changed(s.s21, by.s21),
    }
}

// With one reading taken in or let go.
pub fn sample_changed<C: Change>(s: PowerSums, time: u16, value: u16) -> PowerSums
    ensures { result ≡ six (λ p q. C.op (sum_at s p q) (time ^ p * value ^ q)) }
{
    sums_changed::<C>(s, sample_sums(time, value))
}

// Passes with the way of one edge more, forth or back, modulo 2^64.
#[tactic(auto, unfolding(meanings::specs::Lists::distance))]
pub fn plus_travel(passes: u64, from: usize, to: usize) -> u64
    ensures { result ≡ plus 64 passes (distance from to) }
{
    passes.wrapping_add(from.abs_diff(to) as u64)
}
