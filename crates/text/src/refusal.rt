// The text of a refusal, as bytes in a lent buffer.

ghost use Rattle.std.specs.Prelude.{◌≡◌, ◌≤◌, length, Some};
ghost use Rattle.meanings.specs.Calls.{answer_of};
ghost use Rattle.meanings.specs.Output.{refusal_text as text_of};
ghost use Rattle.meanings.specs.Calls.{write_refusal_text, refusal_buffer};
ghost use Rattle.text.specs.Written.{written};

use crate::decimal::put_bytes;
use crate::lines::put_pair_line;
use meanings::{MAX_OUTPUT, Refusal, Report};

// The header line, then number and place, which fit. Bytes by hand, as all of a text: `write!` takes twice the instructions (docs/FIGURES.md).
#[tactic(auto, unfolding(meanings::specs::Output::refusal_text, crate::specs::Written::put_size, crate::specs::Written::put_list, crate::specs::Written::fits, crate::specs::Written::written), using(crate::proofs::Refusals::lines_written))]
fn put_refusal(out: &mut [u8], number: u64, place: u64) -> Option<usize>
    requires { length (text_of (record { number = number; place = place })) ≤ length out.old }
    ensures size { result ≡ Some (length (text_of (record { number = number; place = place }))) }
    ensures list { out.new ≡ written out.old (text_of (record { number = number; place = place })) }
{
    let line = put_bytes(out, b"refused,place\n")?;
    Some(line + put_pair_line(&mut out[line..], number, place)?)
}

// Writes the text of a refusal with this number and place into a buffer of the same length; another length is refused with 8. A report is a number
// here, any of 64 bits, since the exported call takes it so.
#[tactic(auto, unfolding(meanings::specs::Calls::write_refusal_text, meanings::specs::Calls::refusal_buffer, crate::specs::Written::written), using(crate::proofs::Refusals::refusal_fits))]
pub fn refusal_text(number: u64, place: u64, out: &mut [u8]) -> Result<usize, Refusal>
    ensures result_value { answer_of result ≡ write_refusal_text number place out.old }
    ensures out_after { out.new ≡ refusal_buffer number place out.old }
{
    let size = out.len();
    if size != MAX_OUTPUT {
        return Err(Report::LengthMismatch.at(0));
    }
    put_refusal(out, number, place).ok_or(Report::LengthMismatch.at(0))
}
