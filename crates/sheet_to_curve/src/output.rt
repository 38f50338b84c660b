// Where a text goes, and how it is written whole.

ghost use Rattle.std.specs.Prelude.{◌≡◌, ℕ, List, [], ◌∷◌, Option, None, IfErr, IfOk, Some, ◌+◌, ◌-◌, ◌<◌, ◌≤◌, length, drop, OnOk, IsOk, vec_len};
ghost use Rattle.std.specs.Prelude.{vec_capacity};
ghost use Rattle.std.specs.Io.{WritesAtMost};
ghost use Rattle.std.specs.IoError.{error_kind};
ghost use Rattle.std.specs.Io.KnownBytes.{Appends, WriteAppends};
ghost use Rattle.sheet_to_curve.specs.Ends.{CoversSpare, Event, FailsByInterruption, IsFew, Logs, Moved, MovedThen, TakesPart, event};
ghost use Rattle.sheet_to_curve.specs.Run.{WrittenFront};

use std::fs::File;
use std::io;
use std::io::{Error, ErrorKind, Stderr, Stdout, Write};

/// Where a text goes. `room` says how many bytes a sink takes at least: a write of a text that fits it moves a byte or more, takes no more room than it
/// moves, and fails by interruption alone, of which `interruptions` are still to come at most; the room of the standard ends and of files is 0, since
/// nothing is known of them. `spare` is what lies behind the written bytes in a buffer that was lent, where the next ones will lie. `loan` names the loan
/// that a sink writes into, if there is one: no write changes it for another. `log` has what each write came to, of a sink that keeps one.
pub trait Sink: Write {
    ghost room: { Self → ℕ } = { λ _. 0 };

    ghost interruptions: { Self → ℕ } = { λ _. 0 };

    ghost spare: { Self → List ℕ } = { λ _. [] };

    ghost loan: { Self → ℕ } = { λ _. 0 };

    ghost log: { Self → Option (List Event) } = { λ _. None };

    /// One write of at most `text.len()` bytes, the first of `text`.
    fn write_part(&mut self, text: &[u8]) -> io::Result<usize>
        ensures bound { WritesAtMost result text.now }
        ensures bytes { WriteAppends (Self.contents self.old) (Self.contents self.new)
            result text.now }
        ensures room { 0 < length text.now → length text.now ≤ room self.old
            → TakesPart result (room self.old) (room self.new)
            × FailsByInterruption result (interruptions self.old) (interruptions self.new) }
        ensures spare { CoversSpare result (spare self.old) (spare self.new) }
        ensures loan { loan self.new ≡ loan self.old }
        ensures logged { Logs (log self.old) (log self.new) (event result text.now ∷ []) };
}

impl Sink for Stdout {
    fn write_part(&mut self, text: &[u8]) -> io::Result<usize> {
        self.write(text)
    }
}

impl Sink for Stderr {
    fn write_part(&mut self, text: &[u8]) -> io::Result<usize> {
        self.write(text)
    }
}

impl Sink for File {
    fn write_part(&mut self, text: &[u8]) -> io::Result<usize> {
        self.write(text)
    }
}

// A vector takes without a failure what it has asked for and not filled.
impl Sink for Vec<u8> {
    ghost room = { λ v. vec_capacity v - vec_len v };

    fn write_part(&mut self, text: &[u8]) -> io::Result<usize>
        ensures bound { WritesAtMost result text.now }
        ensures bytes { WriteAppends (Some self.old.items) (Some self.new.items) result text.now }
        ensures whole { IfOk result (λ n. n ≡ length text.now) }
        ensures memory { IfErr result (λ e. error_kind e ≡ ErrorKind.OutOfMemory) }
        ensures room { length text.now ≤ vec_capacity self.old - vec_len self.old
            → IsOk result × (vec_capacity self.old ≤ vec_capacity self.new) }
    {
        self.extend_from_slice(text)?;
        Ok(text.len())
    }
}

// One write, tried again if a signal interrupts it.
fn write_some<W: Sink>(writer: &mut W, text: &[u8]) -> io::Result<usize>
    ensures bound { WritesAtMost result text.now }
    ensures bytes { WriteAppends (W.contents writer.old) (W.contents writer.new) result text.now }
    ensures room { 0 < length text.now → length text.now ≤ W.room writer.old
        → IsFew (W.interruptions writer.old)
        → IsOk result × TakesPart result (W.room writer.old) (W.room writer.new)
        × (W.interruptions writer.new ≤ W.interruptions writer.old) }
    ensures spare { CoversSpare result (W.spare writer.old) (W.spare writer.new) }
    ensures loan { W.loan writer.new ≡ W.loan writer.old }
    ensures logged { MovedThen (W.log writer.old) (W.log writer.new) [] (event result text.now) }
{
    for _ in 0..u64::MAX {
        match writer.write_part(text) {
            Ok(n) => return Ok(n),
            Err(e) => {
                if e.kind() != ErrorKind::Interrupted {
                    return Err(e);
                }
            }
        }
    }
    writer.write_part(text)
}

// Writes the text, a short write being written on. If a write fails or moves nothing, a front of the text has been written, and not all of it.
pub(crate) fn write_text<W: Sink>(writer: &mut W, text: &[u8]) -> io::Result<()>
    ensures ok { OnOk result (Appends (W.contents writer.old) (W.contents writer.new) text.now) }
    ensures writes { OnOk result (Moved (W.log writer.old) (W.log writer.new) text.now) }
    ensures err { IfErr result (WrittenFront (W.contents writer.old) (W.contents writer.new)
        (W.log writer.old) (W.log writer.new) text.now) }
    ensures room { length text.now ≤ W.room writer.old → IsFew (W.interruptions writer.old)
        → IsOk result × (W.room writer.old ≤ W.room writer.new + length text.now) }
    ensures spare { OnOk result
        (W.spare writer.new ≡ drop (length text.now) (W.spare writer.old)) }
    ensures loan { W.loan writer.new ≡ W.loan writer.old }
{
    let mut done = 0;
    while done < text.len() {
        let more = write_some(writer, &text[done..])?;
        if more == 0 {
            return Err(Error::from(ErrorKind::WriteZero));
        }
        done += more;
    }
    Ok(())
}
