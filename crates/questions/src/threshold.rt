// Whether a value is present and at or below a limit: the one test of the questions with a limit. It takes every input.

ghost use Rattle.std.specs.Prelude.{◌≡◌};
ghost use Rattle.meanings.specs.limit.Threshold.{at_or_below as at_or_below_meaning};

// Of a row's weight and value. The value of a weight of 0 is missing, whatever the limit.
pub(crate) fn at_or_below(limit: u16, weight: u64, value: u64) -> bool
    ensures { result ≡ at_or_below_meaning limit weight value }
{
    weight != 0 && value <= limit as u64
}
