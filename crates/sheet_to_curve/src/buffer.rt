// A lent buffer as a sink.

ghost use Rattle.std.specs.Prelude.{◌≡◌, ◌+◌, ◌-◌, ◌<◌, ◌≤◌, length, min, take, drop, Some, IfOk, IsOk, IsOkAnd};
ghost use Rattle.std.specs.Io.{WritesAtMost};
ghost use Rattle.std.specs.Io.KnownBytes.{WriteAppends};
ghost use Rattle.sheet_to_curve.specs.Ends.{CoversSpare, FailsByInterruption, TakesPart};

use crate::output::Sink;
use std::io;
use std::io::Write;

/// A lent buffer that is written from its front on. It takes as many bytes as it has, without a failure; what lies behind the written ones stays.
#[derive(Drop)]
pub struct Lent<'a> {
    buf: &'a mut [u8],
    used: usize,
}

impl<'a> Lent<'a> {
    pub fn new(buf: &'a mut [u8]) -> Lent<'a>
        ensures loan { result.buf.ghost_name ≡ buf.entry.ghost_name }
        ensures bytes { result.buf.now ≡ buf.old }
        ensures used { result.used ≡ 0 }
    {
        Lent { buf, used: 0 }
    }

    /// How many bytes are written.
    pub fn size(&self) -> usize
        ensures { result ≡ min self.now.used (length self.now.buf.now) }
    {
        self.used.min(self.buf.len())
    }
}

impl Write for Lent<'_> {
    ghost contents = { λ l. Some (take l.used l.buf.now) };

    fn write(&mut self, text: &[u8]) -> io::Result<usize>
        ensures bound { WritesAtMost result text.now }
        ensures bytes { WriteAppends (Some (take self.old.used self.old.buf.now))
            (Some (take self.new.used self.new.buf.now)) result text.now }
        ensures count { IsOkAnd result (λ n.
            n ≡ min (length text.now) (length self.old.buf.now - self.old.used)) }
        ensures size { length self.new.buf.now ≡ length self.old.buf.now }
        ensures used { IfOk result (λ n. self.new.used ≡ self.old.used + n) }
        ensures spare { CoversSpare result (drop self.old.used self.old.buf.now)
            (drop self.new.used self.new.buf.now) }
        ensures loan { self.new.buf.ghost_name ≡ self.old.buf.ghost_name }
    {
        let n = text.len().min(self.buf.len().saturating_sub(self.used));
        if n == 0 {
            return Ok(0);
        }
        let end = self.used + n;
        self.buf[self.used..end].copy_from_slice(&text[..n]);
        self.used = end;
        Ok(n)
    }

    fn flush(&mut self) -> io::Result<()>
        ensures ok { IsOk result }
        ensures stays { self.new ≡ self.old }
    {
        Ok(())
    }
}

impl Sink for Lent<'_> {
    ghost room = { λ l. length l.buf.now - l.used };

    ghost spare = { λ l. drop l.used l.buf.now };

    ghost loan = { λ l. l.buf.ghost_name };

    fn write_part(&mut self, text: &[u8]) -> io::Result<usize>
        ensures bound { WritesAtMost result text.now }
        ensures bytes { WriteAppends (Some (take self.old.used self.old.buf.now))
            (Some (take self.new.used self.new.buf.now)) result text.now }
        ensures count { IsOkAnd result (λ n.
            n ≡ min (length text.now) (length self.old.buf.now - self.old.used)) }
        ensures room { 0 < length text.now → length text.now ≤ length self.old.buf.now - self.old.used
            → TakesPart result (length self.old.buf.now - self.old.used)
            (length self.new.buf.now - self.new.used)
            × FailsByInterruption result 0 0 }
        ensures size { length self.new.buf.now ≡ length self.old.buf.now }
        ensures used { IfOk result (λ n. self.new.used ≡ self.old.used + n) }
        ensures spare { CoversSpare result (drop self.old.used self.old.buf.now)
            (drop self.new.used self.new.buf.now) }
        ensures loan { self.new.buf.ghost_name ≡ self.old.buf.ghost_name }
    {
        self.write(text)
    }
}
