// Where a sheet comes from, and how it is read whole.

ghost use Rattle.std.specs.Prelude.{◌≡◌, ℕ, List, [], ◌∷◌, ◌+◌, ◌<◌, ◌≤◌, length, take, Option, None, IfOk, IfErr, IsOk, ⊤};
ghost use Rattle.std.specs.Io.{ReadsAtMost};
ghost use Rattle.std.specs.Io.KnownBytes.{Consumes, IsAtEnd, ReadConsumes};
ghost use Rattle.sheet_to_curve.specs.Ends.{Event, FailsByInterruption, IsFew, Logs, MovedThen, ReadWhole, event};
ghost use Rattle.sheet_to_curve.specs.Run.{ReadUntil};
ghost use Rattle.meanings.specs.Limits.{max_sheet};

use std::fs::File;
use std::io;
use std::io::{ErrorKind, Read, Stdin};

/// Where a sheet comes from. `steady` says of a source that its reads fail by interruption alone, and `interruptions` how many of these are still to come
/// at most; of standard input and of files nothing is known. `log` has what each read came to, of a source that keeps one.
pub trait Source: Read {
    ghost steady: { Self → Type 0 } = { λ _. ⊥ };

    ghost interruptions: { Self → ℕ } = { λ _. 0 };

    ghost log: { Self → Option (List Event) } = { λ _. None };

    /// One read of at most `buf.len()` bytes into the front of `buf`; 0 is the end, if `buf` is not empty.
    fn read_part(&mut self, buf: &mut [u8]) -> io::Result<usize>
        ensures bound { ReadsAtMost result buf.new }
        ensures bytes { ReadConsumes (Self.remaining self.old) (Self.remaining self.new)
            result buf.new }
        ensures steady { steady self.old → steady self.new
            × FailsByInterruption result (interruptions self.old) (interruptions self.new) }
        ensures logged { Logs (log self.old) (log self.new) (event result buf.new ∷ []) };
}

impl Source for Stdin {
    fn read_part(&mut self, buf: &mut [u8]) -> io::Result<usize> {
        self.read(buf)
    }
}

impl Source for File {
    fn read_part(&mut self, buf: &mut [u8]) -> io::Result<usize> {
        self.read(buf)
    }
}

// A sheet in memory is read without a failure.
impl Source for &[u8] {
    ghost steady = { λ _. ⊤ };

    fn read_part(&mut self, buf: &mut [u8]) -> io::Result<usize> {
        self.read(buf)
    }
}

// One read, tried again if a signal interrupts it. Nothing says that interruptions end, so the loop has turns.
fn read_some<R: Source>(reader: &mut R, buf: &mut [u8]) -> io::Result<usize>
    ensures bound { ReadsAtMost result buf.new }
    ensures bytes { ReadConsumes (R.remaining reader.old) (R.remaining reader.new) result buf.new }
    ensures steady { R.steady reader.old → IsFew (R.interruptions reader.old)
        → IsOk result × R.steady reader.new × (R.interruptions reader.new ≤ R.interruptions reader.old) }
    ensures logged { MovedThen (R.log reader.old) (R.log reader.new) [] (event result buf.new) }
{
    for _ in 0..u64::MAX {
        match reader.read_part(buf) {
            Ok(n) => return Ok(n),
            Err(e) => {
                if e.kind() != ErrorKind::Interrupted {
                    return Err(e);
                }
            }
        }
    }
    reader.read_part(buf)
}

// Reads until the buffer is full or the input ends. A short read is read on; a failed one is told from the end. No iterator gives reads of any length
// one by one, so the loop counts what is read.
pub(crate) fn read_input<R: Source>(reader: &mut R, buf: &mut [u8]) -> io::Result<usize>
    ensures bound { IfOk result (λ n. n ≤ length buf.new) }
    ensures bytes { IfOk result (λ n.
        Consumes (R.remaining reader.old) (R.remaining reader.new) (take n buf.new)) }
    ensures end { IfOk result (λ n. n < length buf.new → IsAtEnd (R.remaining reader.new)) }
    ensures steady { R.steady reader.old → IsFew (R.interruptions reader.old) → IsOk result }
    ensures reads { IfOk result (λ n.
        ReadWhole (R.log reader.old) (R.log reader.new) (take n buf.new) (length buf.new)) }
    ensures fails { length buf.new ≤ max_sheet + 1 → IfErr result
        (ReadUntil (R.remaining reader.old) (R.remaining reader.new) (R.log reader.old) (R.log reader.new)) }
{
    let mut done = 0;
    while done < buf.len() {
        let more = read_some(reader, &mut buf[done..])?;
        if more == 0 {
            break;
        }
        done += more;
    }
    Ok(done)
}
