// The second header line of the tank sheet and the reading lines behind it. Every public function takes every input. What reads the lines stands beside
// that of readings.rt: one with the lists of both kinds would take a third list of 1,024 numbers from the stack of the plain reader; one over a
// trait for the lists would need that trait, two impls and their laws, and each clause would say by it what the lists hold.

ghost use Rattle.std.specs.Prelude.{◌≤◌, length};
ghost use Rattle.sheet.specs.SamplesStages.{SampleTried, SamplesFound, SamplesOutcome};

use crate::front::skip_header;
use crate::values::{Progress, early};
use meanings::{Refusal, Report};

// Stores the reading of a line's text, which begins at byte `place`, behind those that are kept, if it is kept too, or says what the line earns: 3, 4, 6. Text
// and place stay two, since one is looked at and the other only told. The two lists stay parameters of their own: in a struct of lent lists each contract would
// name the loan of each list once more.
pub(crate) fn store_sample(
    text: &[u8],
    place: usize,
    minutes: &mut [u16; 1024],
    values: &mut [u16; 1024],
    so_far: Progress,
) -> Result<Progress, Refusal>
    requires { so_far.count ≤ 1024 }
    ensures { SampleTried text.now place minutes.old values.old so_far result minutes.new values.new }
{
    let Some(line) = crate::values::sample_line(text) else {
        return Err(Report::MalformedLine.at(place));
    };
    if early(line.minute, so_far.last) {
        return Err(Report::SampleOutOfOrder.at(place));
    }
    let count = so_far.count;
    let last = Some(line.minute);
    if line.injection <= 2 {
        return Ok(Progress { count, last });
    }
    if 1024 <= count {
        return Err(Report::TooMany.at(place));
    }
    minutes[count] = line.minute;
    values[count] = line.value;
    Ok(Progress {
        count: count + 1,
        last,
    })
}

// The reading lines from byte `from` on, to the sheet's end, into lists of full length: how many readings are kept.
#[tactic(auto, using(crate::proofs::SampleLoop::reading_samples))]
pub(crate) fn scan_samples(
    sheet: &[u8],
    from: usize,
    minutes: &mut [u16; 1024],
    values: &mut [u16; 1024],
) -> Result<usize, Refusal>
    ensures { SamplesFound sheet.now from result minutes.new values.new }
{
    let mut at = from;
    let mut so_far = Progress {
        count: 0,
        last: None,
    };
    while let Some(line) = crate::lines::find_line(sheet, at) {
        so_far = store_sample(&sheet[at..line.end], at, minutes, values, so_far)?;
        at = line.next;
    }
    if at < sheet.len() {
        return Err(Report::MalformedLine.at(at));
    }
    Ok(so_far.count)
}

// The second header line at byte `from` and the reading lines behind it, into lists of any lengths. What the lists hold after a refusal is left open: they are
// a reader's own.
#[tactic(auto, unfolding(crate::specs::SamplesStages::samples_call), using(meanings::proofs::Checks::differ_same, meanings::proofs::Checks::differ_true, crate::proofs::FrontLineSteps::header_stops))]
pub(crate) fn read_samples(
    sheet: &[u8],
    from: usize,
    minutes: &mut [u16],
    values: &mut [u16],
) -> Result<usize, Refusal>
    ensures { SamplesOutcome sheet.now from (length minutes.old) (length values.old) result minutes.new values.new }
{
    let uneven = Report::LengthMismatch.at(0);
    let minutes = minutes.as_mut_array().ok_or(uneven)?;
    let values = values.as_mut_array().ok_or(uneven)?;
    let Some(first) = skip_header(sheet, from, b"minute,inj,vdk") else {
        return Err(Report::BadHeader.at(from));
    };
    scan_samples(sheet, first, minutes, values)
}
