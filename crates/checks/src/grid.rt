// The refusals of the mark filler, for any pair of limits. Every function takes every input.

ghost use Rattle.std.specs.Prelude.{◌≡◌, ◌+◌, ◌-◌, ◌*◌, ltb, length};
ghost use Rattle.meanings.specs.Limits.{max_u16};
ghost use Rattle.meanings.specs.Reports.{verdict_fault, first_of, fill_checks};
ghost use Rattle.meanings.specs.Grid.{presets};

use meanings::{Limits, Refusal, Report};

// Whether the last of n marks is past the greatest one. No product is made, so none wraps.
fn past_last(first: u16, spacing: u16, n: usize) -> bool
    ensures { result ≡ ltb max_u16 (first + (n - 1) * spacing) }
{
    if n == 0 {
        return false;
    }
    if spacing == 0 {
        return false;
    }
    let steps = (65535 - first as usize) / (spacing as usize);
    steps < n - 1
}

// What the filler is refused for, with n marks and m half widths: 8, 7, 6, 12, 13.
pub fn fill_fault(
    first: u16,
    spacing: u16,
    preset: u32,
    n: usize,
    m: usize,
    limits: Limits,
) -> Result<(), Refusal>
    ensures { verdict_fault result ≡ first_of (fill_checks limits (length presets) first spacing preset n m) }
{
    if n != m {
        return Err(Report::LengthMismatch.at(0));
    }
    if n == 0 {
        return Err(Report::NoPoints.at(0));
    }
    if limits.points < n {
        return Err(Report::TooMany.at(0));
    }
    if 12 <= preset {
        return Err(Report::UnknownPreset.at(0));
    }
    if past_last(first, spacing, n) {
        return Err(Report::GridOverflow.at(0));
    }
    Ok(())
}
