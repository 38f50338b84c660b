// Rows, records and refusals as plain numbers, for the calls that programs in C and Rust make. A list of another length than what is to be stored in
// it stays as it was. The calls answer such a list with 8, the number that C reads, and meet the answer of the call below in one match each. For a
// function of both arms each call would first make its answer an array and a detail, as long as the arm that stores it.

ghost use Rattle.std.specs.Prelude.{◌≡◌};
ghost use Rattle.meanings.specs.Reports.{fault_of};
ghost use Rattle.meanings.specs.Codes.{code};
ghost use Rattle.exports.specs.Answers.{short, replaced};
ghost use Rattle.exports.specs.Positions.{position_number};

use meanings::{DETAIL_UNIT, Refusal};

// Places that a code can hold lie below this: place_limit of specs/Answers.antt, 2^56.
pub const PLACE_LIMIT: u64 = 72057594037927936;

// A refusal as one number: DETAIL_UNIT × place + the report's number, the place modulo PLACE_LIMIT, so that the number fits 64 bits. Every place
// that a call gives is below it.
pub(crate) fn refusal_code(refusal: Refusal) -> u64
    ensures { result ≡ code (short (fault_of refusal)) }
{
    let place = refusal.place as u64 % PLACE_LIMIT;
    DETAIL_UNIT * place + u64::from(refusal.report)
}

// Stores as many numbers as a list has; another list stays as it was.
#[tactic(auto, using(crate::proofs::Answered::same_length_replaced, crate::proofs::Answered::other_length_stays))]
pub(crate) fn put_numbers<const N: usize>(numbers: [u64; N], out: &mut [u64])
    ensures { out.new ≡ replaced numbers.entry out.old }
{
    if out.len() == N {
        out.copy_from_slice(&numbers);
    }
}

// What stands for no position where an answer is one: no_position of specs/Positions.antt, 2^64 − 1.
pub const NO_POSITION: u64 = 18446744073709551615;

// A position, or what stands for none, as one number.
pub(crate) fn position_number(found: Option<usize>) -> u64
    ensures { result ≡ position_number found }
{
    found.map_or(NO_POSITION, |i| i as u64)
}
