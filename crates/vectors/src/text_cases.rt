// The calls that write a text: each answer, the bytes that were written and the rest of the lent buffer.
use crate::input::Case;
use crate::show::show_text;
use exports::texts::{tankcurve_refusal_text, tankcurve_text};
use meanings::MAX_OUTPUT;

// The longest buffer of a case.
const MOST_BUFFER: usize = 44200;

// How many bytes are lent to a call: as many as the longest text has, or as many as the case states. Only what is lent differs, so it is
// no closure.
#[derive(Clone, Copy)]
enum Lent {
    Longest,
    Stated,
}

// The front of the bytes that are lent.
fn lent_front<'b>(case: &mut Case, lent: Lent, bytes: &'b mut [u8]) -> &'b mut [u8] {
    match lent {
        Lent::Longest => {
            let n = usize::min(MAX_OUTPUT, bytes.len());
            &mut bytes[..n]
        }
        Lent::Stated => case.lent(bytes),
    }
}

// The sheet is the rest of the case.
fn text_case(mut case: Case, lent: Lent) {
    let mut bytes = [7u8; MOST_BUFFER];
    let out = lent_front(&mut case, lent, &mut bytes);
    show_text(tankcurve_text(case.rest, out), out);
}

fn refusal_text_case(mut case: Case, lent: Lent) {
    let mut bytes = [7u8; MOST_BUFFER];
    let report = case.number();
    let place = case.number();
    let out = lent_front(&mut case, lent, &mut bytes);
    show_text(tankcurve_refusal_text(report, place, out), out);
}

pub fn text(case: Case) {
    text_case(case, Lent::Longest);
}

pub fn text_lent(case: Case) {
    text_case(case, Lent::Stated);
}

pub fn refusal_text(case: Case) {
    refusal_text_case(case, Lent::Longest);
}

pub fn refusal_text_lent(case: Case) {
    refusal_text_case(case, Lent::Stated);
}
