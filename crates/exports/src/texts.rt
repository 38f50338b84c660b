// The texts of a curve and of a refusal, for programs in C and Rust: numbers and slices of numbers only.
// Each answer is one number, DETAIL_UNIT × detail + report: report 0 is accepted, and the detail of a report is its place.

ghost use Rattle.std.specs.Prelude.{◌≡◌};
ghost use Rattle.meanings.specs.Calls.{write_refusal_text, refusal_buffer};
ghost use Rattle.meanings.specs.Codes.{answered};
ghost use Rattle.meanings.specs.ranges.RangeOutput.{write_either, write_either_buffer};

use crate::answers::refusal_code;
use meanings::DETAIL_UNIT;
use text::from_sheet::curve_text;
use text::refusal::refusal_text;

// The curve of a sheet as bytes: out has MAX_OUTPUT bytes, and the detail is how many are written. A refused sheet's report is the answer.
#[unsafe(no_mangle)]
#[tactic(auto, using(crate::proofs::Answered::refused_code, crate::proofs::TextsPlaces::write_place, crate::proofs::TextsPlaces::text_small))]
pub extern "C" fn tankcurve_text(sheet: &[u8], out: &mut [u8]) -> u64
    ensures value { result ≡ answered (λ n. n) (write_either sheet.now out.old) }
    ensures out_after { out.new ≡ write_either_buffer sheet.now out.old }
{
    match curve_text(sheet, out) {
        Err(refusal) => refusal_code(refusal),
        Ok(size) => DETAIL_UNIT * size as u64,
    }
}

// The text of a refusal with this number and place: out has MAX_OUTPUT bytes, and the detail is how many are written.
#[unsafe(no_mangle)]
#[tactic(auto, using(crate::proofs::Answered::refused_code, crate::proofs::TextsPlaces::refusal_text_place, crate::proofs::TextsPlaces::refusal_size))]
pub extern "C" fn tankcurve_refusal_text(number: u64, place: u64, out: &mut [u8]) -> u64
    ensures value { result ≡ answered (λ n. n) (write_refusal_text number place out.old) }
    ensures out_after { out.new ≡ refusal_buffer number place out.old }
{
    match refusal_text(number, place, out) {
        Err(refusal) => refusal_code(refusal),
        Ok(bytes) => DETAIL_UNIT * bytes as u64,
    }
}
