// Whether a line of a text fits. Where 21 bytes are left for each of its numbers it does; nearer to the end its digits are counted.

ghost use Rattle.std.specs.Prelude.{◌≡◌, ◌≤◌, leb, length};
ghost use Rattle.meanings.specs.Output.{value_text};
ghost use Rattle.text.specs.Line.{line_text};

use crate::decimal::decimal_size;

// A number's digits and the byte behind it.
const MOST_FIELD: usize = 21;

// How many bytes a value has. 65536, a row's number for a missing value at the C interface, has one.
fn value_size(v: u64) -> usize
    ensures { (result ≡ length (value_text v)) × (result ≤ 20) }
{
    if v == 65536 {
        return 1;
    }
    decimal_size(v)
}

// Whether a line has at most `room` bytes. They are counted down, since no number of 64 bits holds the size of every line. A call of its own, so that
// only the quick test before it is taken into the callers of line_fits.
#[inline(never)]
fn has_room(room: usize, first: u64, numbers: &[u64], values: &[u64]) -> bool
    ensures { result ≡ leb (length (line_text first numbers.now values.now)) room }
{
    let first_size = decimal_size(first);
    if room < first_size {
        return false;
    }
    let mut left = room - first_size;
    for n in numbers {
        let size = 1 + decimal_size(*n);
        if left < size {
            return false;
        }
        left -= size;
    }
    for v in values {
        let size = 1 + value_size(*v);
        if left < size {
            return false;
        }
        left -= size;
    }
    // For the line feed.
    0 < left
}

// Whether `room` bytes are enough for a line of numbers and, behind them, values. The three stay parameters, here and in `lines`: a struct of them would be
// made for each line and taken apart again, and each clause would name the loan of its lists.
#[tactic(auto, using(crate::proofs::Sizes::fits_with_room))]
pub(crate) fn line_fits(room: usize, first: u64, numbers: &[u64], values: &[u64]) -> bool
    ensures { result ≡ leb (length (line_text first numbers.now values.now)) room }
{
    1 + numbers.len() + values.len() <= room / MOST_FIELD || has_room(room, first, numbers, values)
}
