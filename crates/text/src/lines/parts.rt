// Lines that fit, part by part. Each function stores one text at the front of a list and answers how many bytes it has, so the next one begins there.
ghost use Rattle.std.specs.Prelude.{◌≤◌, [], ◌∷◌, length};
ghost use Rattle.meanings.specs.Bytes.{comma};
ghost use Rattle.meanings.specs.Output.{decimal, value_text};
ghost use Rattle.text.specs.Written.{Stored};
ghost use Rattle.text.specs.Line.{line_text};

use crate::decimal::put_number;
use meanings::{COMMA, LINE_FEED};

const DASH: u8 = 45;

// Bytes by hand: `write!` takes twice the instructions (docs/FIGURES.md).
fn put_byte(out: &mut [u8], b: u8) -> usize
    requires { length (b ∷ []) ≤ length out.old }
    ensures { Stored out.old (b ∷ []) out.new result }
{
    out[0] = b;
    1
}

// A number in decimal.
#[inline(always)]
fn put_decimal(out: &mut [u8], n: u64) -> usize
    requires { length (decimal n) ≤ length out.old }
    ensures { Stored out.old (decimal n) out.new result }
{
    put_number(out, n).unwrap()
}

// A value, `-` where it is missing: 65536 is a row's number for that at the C interface.
fn put_value(out: &mut [u8], v: u64) -> usize
    requires { length (value_text v) ≤ length out.old }
    ensures { Stored out.old (value_text v) out.new result }
{
    if v == 65536 {
        return put_byte(out, DASH);
    }
    put_decimal(out, v)
}

// A comma and the number behind it. A list is cut once for both: 2 % fewer instructions a line than once for each.
#[inline(always)]
fn put_after_comma(out: &mut [u8], n: u64) -> usize
    requires { length (comma ∷ decimal n) ≤ length out.old }
    ensures { Stored out.old (comma ∷ decimal n) out.new result }
{
    let begin = put_byte(out, COMMA);
    begin + put_decimal(&mut out[begin..], n)
}

// A comma and the value behind it.
#[inline(always)]
fn put_value_after_comma(out: &mut [u8], v: u64) -> usize
    requires { length (comma ∷ value_text v) ≤ length out.old }
    ensures { Stored out.old (comma ∷ value_text v) out.new result }
{
    let begin = put_byte(out, COMMA);
    begin + put_value(&mut out[begin..], v)
}

// A line: the first number, and each other number and value behind a comma.
#[inline(always)]
pub(crate) fn put_whole_line(out: &mut [u8], first: u64, numbers: &[u64], values: &[u64]) -> usize
    requires { length (line_text first numbers.now values.now) ≤ length out.old }
    ensures { Stored out.old (line_text first numbers.now values.now) out.new result }
{
    let mut end = put_decimal(out, first);
    for n in numbers {
        end += put_after_comma(&mut out[end..], *n);
    }
    for v in values {
        end += put_value_after_comma(&mut out[end..], *v);
    }
    end + put_byte(&mut out[end..], LINE_FEED)
}
