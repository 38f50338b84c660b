// The values of a reading line of either kind: one value, which stands as low and high, or two. Every function takes every input.

ghost use Rattle.std.specs.Prelude.{◌≡◌, Some};
ghost use Rattle.meanings.specs.Sheet.{ranged_sample};
ghost use Rattle.meanings.specs.ranges.RangeSheet.{with_high, range_line, reading_line};
ghost use Rattle.meanings.specs.declared.ranges.Kind.TheVariants.{Plain};
ghost use Rattle.sheet.specs.ReadingValues.{reading_values};

use crate::fields::numbers;
use crate::values::{SampleLine, ranged_sample, sample_line};
use meanings::ranges::Kind;

// The values of a reading line: minute, inj, and the lowest and the highest that the value can be. SampleLine stands beside it, since the reader of
// plain sheets keeps one value.
#[derive(Clone, Copy, Debug, PartialEq, Eq)]
pub struct ReadingLine {
    pub minute: u16,
    pub injection: u16,
    pub low: u16,
    pub high: u16,
}

impl From<SampleLine> for ReadingLine {
    ghost from_gives = { λ plain r. r ≡ record { minute = plain.minute; injection = plain.injection; low = plain.value; high = plain.value } };

    // A plain line's values: its value stands as low and high.
    fn from(plain: SampleLine) -> ReadingLine {
        ReadingLine {
            minute: plain.minute,
            injection: plain.injection,
            low: plain.value,
            high: plain.value,
        }
    }
}

// Four numbers as a reading line's values, if each is in its range. Its caller is asked for a line and answers None where there is none: the error of a TryFrom
// would be thrown away there.
fn ranged_reading(minute: u32, injection: u32, low: u32, high: u32) -> Option<ReadingLine>
    ensures { reading_values result ≡ with_high (ranged_sample (Some minute) (Some injection) (Some low)) (Some high) }
{
    let plain = ranged_sample(minute, injection, low)?;
    let high = u16::try_from(high).ok()?;
    Some(ReadingLine {
        high,
        ..plain.into()
    })
}

// The values of the text of a line with a range.
fn range_line(text: &[u8]) -> Option<ReadingLine>
    ensures { reading_values result ≡ range_line text.now }
{
    let [t, j, l, u] = numbers::<4>(text)?;
    ranged_reading(t, j, l, u)
}

// The values of the text of a plain line, its value as low and high.
fn plain_line(text: &[u8]) -> Option<ReadingLine>
    ensures { reading_values result ≡ reading_line Plain text.now }
{
    Some(sample_line(text)?.into())
}

// The values of a line's text in a sheet of this kind. The kind is known only once the sheet is read, so it is a value that is matched on.
pub(crate) fn reading_line(kind: Kind, text: &[u8]) -> Option<ReadingLine>
    ensures { reading_values result ≡ reading_line kind text.now }
{
    match kind {
        Kind::Plain => plain_line(text),
        Kind::Ranges => range_line(text),
    }
}
