// The program on any reader and writer: a tank sheet is read, and its curve or its refusal is written.
// `input` reads a sheet from a source, `output` writes a text to a sink, and `buffer` is a sink over bytes that the caller lends.
#![tactic(auto)]

mod buffer;
mod input;
mod output;

ghost use Rattle.std.specs.Prelude.{◌≡◌, ℕ, List, ◌++◌, ◌+◌, ◌≤◌, length, take, drop, Some, IfSome, OnOk, IfErr, IsOk};
ghost use Rattle.std.specs.Io.KnownBytes.{Appends};
ghost use Rattle.meanings.specs.Limits.{max_sheet, max_output};
ghost use Rattle.meanings.specs.Reports.{fault_of};
ghost use Rattle.meanings.specs.Output.{refusal_text};
ghost use Rattle.meanings.specs.ranges.RangeOutput.{either_program};
ghost use Rattle.sheet_to_curve.specs.Ends.{IsFew, Moved};
ghost use Rattle.sheet_to_curve.specs.Run.{IsOfInput, IsOfOutput, StoppedAt, SucceedsWithin, OfAnyReader, WriterStays, WrittenFront, line_of};

pub use buffer::Lent;
pub use input::Source;
use input::read_input;
use meanings::{MAX_OUTPUT, Refusal};
pub use output::Sink;
use output::write_text;
use std::io;
use std::io::Error;

/// Which end of a run failed, and how.
#[derive(Debug, Drop)]
pub enum Failure {
    Input(Error),
    Output(Error),
}

/// One byte more than a sheet may have: it decides whether a sheet is overlong.
const MAX_READ: usize = 32769;

// Puts the text of a refusal at the front of the buffer, and gives its length. The text is never refused itself: the buffer's type has the right length.
#[tactic(auto, unfolding(meanings::specs::Calls::write_refusal_text, meanings::specs::Calls::refusal_buffer))]
fn refuse(refusal: Refusal, out: &mut [u8; MAX_OUTPUT]) -> usize
    ensures out_after { take result out.new ≡ refusal_text (fault_of refusal) }
    ensures value { result ≡ length (refusal_text (fault_of refusal)) }
{
    let number = u64::from(refusal.report);
    text::refusal::refusal_text(number, refusal.place as u64, out).unwrap()
}

// Puts what the program writes for the sheet that is the buffer's first `size` bytes at the front of the buffer, over the sheet, and gives its length.
// Buffer and size stay apart: `text::over_sheet` says why.
#[tactic(auto, unfolding(meanings::specs::ranges::RangeOutput::either_program, meanings::specs::ranges::RangeOutput::write_either, meanings::specs::ranges::RangeOutput::write_either_buffer))]
fn answer(buf: &mut [u8; MAX_OUTPUT], size: usize) -> usize
    ensures buf_after { take result buf.new ≡ either_program (take size buf.old) }
    ensures value { result ≡ length (either_program (take size buf.old)) }
{
    match text::over_sheet::curve_text_over(buf, size) {
        Ok(n) => n,
        Err(refusal) => refuse(refusal, buf),
    }
}

/// Reads a sheet, at most 32,769 bytes of it, and writes its curve or its refusal and nothing else. A refused sheet is an answer, and so a success.
///
/// If a read fails, nothing is written. If a write fails or moves nothing, a proper front of the text has been written. A call that a signal interrupts
/// is tried again. No heap is used: the sheet and then its text lie in one buffer of 44,113 bytes on the stack.
///
/// # Errors
/// `Failure::Input` if a read fails, `Failure::Output` if a write fails or moves nothing. Neither comes from a steady source and a sink with room for the
/// text, of which 44,113 bytes always suffice.
pub fn run<R: Source, W: Sink>(reader: &mut R, writer: &mut W) -> Result<(), Failure>
    ensures written { OnOk result (IfSome (R.remaining reader.old) (λ sheet.
        Appends (W.contents writer.old) (W.contents writer.new) (either_program sheet))) }
    ensures stopped { IfErr result
        (StoppedAt (R.remaining reader.old) (W.contents writer.old) (W.contents writer.new)) }
    ensures read { OnOk result (IfSome (R.remaining reader.old) (λ sheet.
        R.remaining reader.new ≡ Some (drop (max_sheet + 1) sheet))) }
    ensures any_reader { OfAnyReader result (R.remaining reader.old) (R.remaining reader.new)
        (R.log reader.old) (R.log reader.new) (W.contents writer.old) (W.contents writer.new)
        (W.log writer.old) (W.log writer.new) }
    ensures input_good { R.steady reader.old → IsFew (R.interruptions reader.old)
        → IfErr result IsOfOutput }
    ensures output_good { IsFew (W.interruptions writer.old) → IfSome (R.remaining reader.old) (λ sheet.
        length (either_program sheet) ≤ W.room writer.old → IfErr result IsOfInput) }
    ensures any_output_good { IsFew (W.interruptions writer.old) → max_output ≤ W.room writer.old
        → IfErr result IsOfInput }
    ensures succeeds { R.steady reader.old
        → IsFew (R.interruptions reader.old) → IsFew (W.interruptions writer.old)
        → IfSome (R.remaining reader.old) (λ sheet.
        SucceedsWithin result (W.room writer.old) (W.room writer.new) (either_program sheet)) }
    ensures any_steady { R.steady reader.old
        → IsFew (R.interruptions reader.old) → IsFew (W.interruptions writer.old)
        → max_output ≤ W.room writer.old → IsOk result }
    ensures spare { OnOk result (IfSome (R.remaining reader.old) (λ sheet.
        W.spare writer.new ≡ drop (length (either_program sheet)) (W.spare writer.old))) }
    ensures loan { W.loan writer.new ≡ W.loan writer.old }
    ensures writer_stays { IfErr result (λ failure. WriterStays failure writer.old writer.new) }
{
    let mut buf = [0u8; MAX_OUTPUT];
    let size = match read_input(reader, &mut buf[..MAX_READ]) {
        Ok(size) => size,
        Err(e) => return Err(Failure::Input(e)),
    };
    let length = answer(&mut buf, size);
    match write_text(writer, &buf[..length]) {
        Ok(()) => Ok(()),
        Err(e) => Err(Failure::Output(e)),
    }
}

// The line for a failure.
fn line(failure: &Failure) -> &'static [u8]
    ensures { result.now ≡ line_of failure.now }
{
    match failure {
        Failure::Input(_) => b"tankcurve: standard input cannot be read\n",
        Failure::Output(_) => b"tankcurve: standard output cannot be written\n",
    }
}

/// Says on standard error, or on any sink, which end failed: one line.
///
/// # Errors
/// The error of the write that failed; a proper front of the line has been written then.
pub fn tell<E: Sink>(failure: &Failure, errors: &mut E) -> io::Result<()>
    ensures ok { OnOk result
        (Appends (E.contents errors.old) (E.contents errors.new) (line_of failure.now)) }
    ensures writes { OnOk result (Moved (E.log errors.old) (E.log errors.new) (line_of failure.now)) }
    ensures err { IfErr result (WrittenFront (E.contents errors.old) (E.contents errors.new)
        (E.log errors.old) (E.log errors.new) (line_of failure.now)) }
    ensures succeeds { IsFew (E.interruptions errors.old)
        → length (line_of failure.now) ≤ E.room errors.old
        → IsOk result × (E.room errors.old ≤ E.room errors.new + length (line_of failure.now)) }
    ensures spare { OnOk result
        (E.spare errors.new ≡ drop (length (line_of failure.now)) (E.spare errors.old)) }
    ensures loan { E.loan errors.new ≡ E.loan errors.old }
{
    write_text(errors, line(failure))
}

/// Writes what the program writes for a sheet in memory to the front of `out`, and gives its length; the rest of `out` stays. It takes any bytes and
/// never fails.
pub fn text_into(sheet: &[u8], out: &mut [u8; MAX_OUTPUT]) -> usize
    ensures text { out.new ≡ either_program sheet.now
        ++ drop (length (either_program sheet.now)) out.old }
    ensures size { result ≡ length (either_program sheet.now) }
{
    let mut reader = sheet;
    let mut writer = Lent::new(out);
    let done = run(&mut reader, &mut writer);
    prove!(done.is_ok());
    writer.size()
}
