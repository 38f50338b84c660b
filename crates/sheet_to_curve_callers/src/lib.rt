// Callers of `run` in memory, each proved without a proof file: into a vector, two texts in a row, and from a reader that halts.
#![tactic(auto)]

ghost use Rattle.std.specs.Prelude.{◌≡◌, ◌≤◌, ◌++◌, length, drop, Some, IfOk, ⊤};
ghost use Rattle.std.specs.Io.{ReadsAtMost};
ghost use Rattle.std.specs.Io.KnownBytes.{ReadConsumes};
ghost use Rattle.meanings.specs.ranges.RangeOutput.{either_program};
ghost use Rattle.sheet_to_curve.specs.Ends.{FailsByInterruption};

use meanings::MAX_OUTPUT;
use sheet_to_curve::{Lent, Source, run};
use std::alloc::{AllocError, Global};
use std::io;
use std::io::{Error, ErrorKind, Read};

/// The text of a sheet.
///
/// # Errors
/// Only if there is no memory for the text.
pub fn text_of(alloc: Global, sheet: &[u8]) -> Result<Vec<u8>, AllocError>
    ensures { IfOk result (λ text. text.items ≡ either_program sheet.now) }
{
    let mut reader = sheet;
    let mut text = Vec::with_capacity(alloc, MAX_OUTPUT)?;
    let done = run(&mut reader, &mut text);
    prove!(done.is_ok());
    Ok(text)
}

/// The texts of two sheets, the second after the first.
///
/// # Errors
/// Only if there is no memory for the texts.
#[tactic(auto, using(laws::proofs::ranges::RangeText::either_program_fits))]
pub fn two_texts(alloc: Global, first: &[u8], second: &[u8]) -> Result<Vec<u8>, AllocError>
    ensures { IfOk result (λ texts.
        texts.items ≡ either_program first.now ++ either_program second.now) }
{
    let (mut one, mut two) = (first, second);
    let mut texts = Vec::with_capacity(alloc, 2 * MAX_OUTPUT)?;
    let done = run(&mut one, &mut texts);
    prove!(done.is_ok());
    let done = run(&mut two, &mut texts);
    prove!(done.is_ok());
    Ok(texts)
}

/// A sheet in memory that is read a byte at a time, after some interruptions.
#[derive(Drop)]
pub struct Halting<'a> {
    pub over: &'a [u8],
    pub interruptions: u64,
}

impl Read for Halting<'_> {
    ghost remaining = { λ h. Some h.over.now };

    fn read(&mut self, buf: &mut [u8]) -> io::Result<usize>
        ensures bound { ReadsAtMost result buf.new }
        ensures bytes { ReadConsumes (Some self.old.over.now) (Some self.new.over.now)
            result buf.new }
        ensures fails { FailsByInterruption result self.old.interruptions self.new.interruptions }
    {
        if self.interruptions > 0 {
            self.interruptions -= 1;
            return Err(Error::from(ErrorKind::Interrupted));
        }
        let most = buf.len().min(1);
        let mut over = self.over;
        let n = over.read(&mut buf[..most])?;
        self.over = over;
        Ok(n)
    }
}

impl Source for Halting<'_> {
    ghost steady = { λ _. ⊤ };

    ghost interruptions = { λ h. h.interruptions };

    fn read_part(&mut self, buf: &mut [u8]) -> io::Result<usize> {
        self.read(buf)
    }
}

/// As `text_into` of `sheet_to_curve`, from a reader that halts.
pub fn halting_text_into(sheet: &[u8], interruptions: u32, out: &mut [u8; MAX_OUTPUT]) -> usize
    ensures text { out.new ≡ either_program sheet.now
        ++ drop (length (either_program sheet.now)) out.old }
    ensures size { result ≡ length (either_program sheet.now) }
{
    let mut reader = Halting {
        over: sheet,
        interruptions: u64::from(interruptions),
    };
    let mut writer = Lent::new(out);
    let done = run(&mut reader, &mut writer);
    prove!(done.is_ok());
    writer.size()
}

#[cfg(test)]
mod tests {
    use super::*;
    use sheet_to_curve::{Failure, Sink};
    use std::io::Write;

    const SHEET: &[u8] =
        b"mark,half\n20,10\n25,15\n60,20\n\nminute,inj,vdk\n10,3,40\n12,1,900\n14,2,400\n20,3,60\n20,4,80\n35,5,20\n";

    const CURVE: &[u8] =
        b"mark,half,left,right,weight,sum,vdk\n20,10,0,3,200,14000,70\n25,15,0,4,525,30500,58\n60,20,4,4,0,0,-\n\nkept,passes\n4,8\n";

    // A byte a call, and before each an interruption; in place of call number `fails`, a failure.
    #[derive(Drop)]
    struct Faulty<T> {
        over: T,
        calls: u64,
        fails: u64,
    }

    impl<T> Faulty<T> {
        // How many bytes this call is to move at most.
        fn step(&mut self) -> io::Result<usize>
            ensures { IfOk result (λ n. n ≤ 1) }
        {
            self.calls = self.calls.saturating_add(1);
            if self.calls == self.fails {
                return Err(Error::from(ErrorKind::StorageFull));
            }
            if self.calls % 2 == 1 {
                return Err(Error::from(ErrorKind::Interrupted));
            }
            Ok(1)
        }
    }

    impl<R: Read> Read for Faulty<R> {
        fn read(&mut self, buf: &mut [u8]) -> io::Result<usize> {
            let most = self.step()?.min(buf.len());
            let n = self.over.read(&mut buf[..most])?;
            Ok(n.min(buf.len()))
        }
    }

    impl<W: Write> Write for Faulty<W> {
        fn write(&mut self, buf: &[u8]) -> io::Result<usize> {
            let most = self.step()?.min(buf.len());
            let n = self.over.write(&buf[..most])?;
            Ok(n.min(buf.len()))
        }

        fn flush(&mut self) -> io::Result<()> {
            self.over.flush()
        }
    }

    impl<R: Read> Source for Faulty<R> {
        fn read_part(&mut self, buf: &mut [u8]) -> io::Result<usize> {
            self.read(buf)
        }
    }

    impl<W: Write> Sink for Faulty<W> {
        fn write_part(&mut self, text: &[u8]) -> io::Result<usize> {
            self.write(text)
        }
    }

    #[test]
    fn writes_the_curve(rt: HostRuntime) {
        match text_of(rt.alloc(), SHEET) {
            Ok(text) => assert_eq!(rt; text.as_slice(), CURVE),
            Err(_) => assert!(rt; false),
        }
    }

    #[test]
    fn halts_and_writes_on(rt: HostRuntime) {
        let mut out = [7u8; MAX_OUTPUT];
        let size = halting_text_into(SHEET, 1000, &mut out);
        assert_eq!(rt; size, CURVE.len());
        assert!(rt; out.starts_with(CURVE));
        assert_eq!(rt; out[MAX_OUTPUT - 1], 7);
    }

    #[test]
    fn reads_and_writes_on(rt: HostRuntime) {
        let mut reader = Faulty {
            over: SHEET,
            calls: 0,
            fails: 0,
        };
        let mut writer = Faulty {
            over: Vec::new(rt.alloc()),
            calls: 0,
            fails: 0,
        };
        assert!(rt; run(&mut reader, &mut writer).is_ok());
        assert_eq!(rt; writer.over.as_slice(), CURVE);
    }

    #[test]
    fn tells_which_end_failed(rt: HostRuntime) {
        let mut reader = Faulty {
            over: SHEET,
            calls: 0,
            fails: 20,
        };
        let mut writer = Faulty {
            over: Vec::new(rt.alloc()),
            calls: 0,
            fails: 0,
        };
        assert!(rt; matches!(&run(&mut reader, &mut writer), Err(Failure::Input(_))));
        assert_eq!(rt; writer.over.len(), 0);
        let mut reader = Faulty {
            over: SHEET,
            calls: 0,
            fails: 0,
        };
        let mut writer = Faulty {
            over: Vec::new(rt.alloc()),
            calls: 0,
            fails: 20,
        };
        assert!(rt; matches!(&run(&mut reader, &mut writer), Err(Failure::Output(_))));
        assert_eq!(rt; writer.over.as_slice(), &CURVE[..9]);
    }
}
