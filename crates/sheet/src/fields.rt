// The numbers in the text of a line, with commas between. Every function takes every input.

ghost use Rattle.std.specs.Prelude.{◌≡◌};
ghost use Rattle.meanings.specs.Sheet.{parts};
ghost use Rattle.sheet.specs.Fields.{field_at, numbers_of};

use meanings::COMMA;

// A number that stands before a comma or the text's end, and where it ends.
#[derive(Clone, Copy, Debug, PartialEq, Eq)]
pub struct Field {
    pub value: u32,
    pub end: usize,
}

// The digit with which no number of more digits begins.
const ZERO: u8 = b'0';

// The number that begins at byte `from` of a text and goes up to the next comma or the text's end: 1 to 5 digits, no leading zero except
// 0 itself. `parse` takes a plus sign and leading zeros too, so that the tests of this form would stand beside it.
#[inline(always)]
#[tactic(auto, using(crate::proofs::FieldsLaws::passed_goes_on))]
fn number_at(text: &[u8], from: usize) -> Option<Field>
    ensures { result ≡ field_at text.now from }
{
    let mut end = text.len();
    let mut value = 0u32;
    for at in from..text.len() {
        let b = text[at];
        if !b.is_ascii_digit() {
            if b != COMMA {
                return None;
            }
            end = at;
            break;
        }
        value = value.wrapping_mul(10).wrapping_add(u32::from(b - b'0'));
    }
    if end <= from {
        return None;
    }
    if 5 < end - from {
        return None;
    }
    if 1 < end - from && text[from] == ZERO {
        return None;
    }
    Some(Field { value, end })
}

// The numbers of a text of N numbers with commas between.
#[inline(always)]
#[tactic(auto, using(crate::proofs::Parts::none_read, crate::proofs::Parts::part_is_no_number, crate::proofs::Parts::number_holds, crate::proofs::Parts::part_read, crate::proofs::Parts::parts_left_over, crate::proofs::Parts::all_read))]
pub fn numbers<const N: usize>(text: &[u8]) -> Option<[u32; N]>
    ensures { result ≡ numbers_of N (parts text.now) }
{
    let mut numbers = [0; N];
    let mut from = 0;
    for number in &mut numbers {
        let field = number_at(text, from)?;
        *number = field.value;
        // Behind the comma, or behind the text's end, where no number begins.
        from = field.end + 1;
    }
    if from <= text.len() {
        return None;
    }
    Some(numbers)
}
