// The values of a line of the tank sheet: of a mark line and of a reading line. Every function takes every input.

ghost use Rattle.std.specs.Prelude.{◌≡◌, Some};
ghost use Rattle.meanings.specs.Sheet.{point_line, sample_line, ranged_sample};
ghost use Rattle.sheet.specs.LineValues.{point_values, sample_values, early};

use crate::fields::numbers;
use meanings::Mark;

// The values of a reading line: minute, inj, vdk.
#[derive(Clone, Copy, Debug, PartialEq, Eq)]
pub struct SampleLine {
    pub minute: u16,
    pub injection: u16,
    pub value: u16,
}

// How far reading lines of either kind are read: how many readings are kept, and the minute of the line before, if there is one.
#[derive(Clone, Copy, Debug, PartialEq, Eq)]
pub struct Progress {
    pub count: usize,
    pub last: Option<u16>,
}

// The mark of a line's text; its half width has no range here.
#[inline(always)]
pub(crate) fn point_line(text: &[u8]) -> Option<Mark>
    ensures { point_values result ≡ point_line text.now }
{
    let [z, bandwidth] = numbers::<2>(text)?;
    let point = u16::try_from(z).ok()?;
    Some(Mark { point, bandwidth })
}

// The values of a reading line's text.
#[inline(always)]
pub(crate) fn sample_line(text: &[u8]) -> Option<SampleLine>
    ensures { sample_values result ≡ sample_line text.now }
{
    let [t, j, v] = numbers::<3>(text)?;
    ranged_sample(t, j, v)
}

// A reading line's values, if each is in its range. Both callers answer None where there is none: each would throw away the error of a TryFrom.
#[inline(always)]
pub(crate) fn ranged_sample(minute: u32, injection: u32, value: u32) -> Option<SampleLine>
    ensures { sample_values result ≡ ranged_sample (Some minute) (Some injection) (Some value) }
{
    if injection == 0 {
        return None;
    }
    let minute = u16::try_from(minute).ok()?;
    let injection = u16::try_from(injection).ok()?;
    let value = u16::try_from(value).ok()?;
    Some(SampleLine {
        minute,
        injection,
        value,
    })
}

// Whether a line's minute is below that of the line before, if there is one.
pub fn early(minute: u16, before: Option<u16>) -> bool
    ensures { result ≡ early minute before }
{
    before.is_some_and(|before| minute < before)
}
