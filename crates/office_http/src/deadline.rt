//! A deadline for all that is read of a connection, and one for all that is written to it.
ghost use Rattle.std.specs.Prelude.{◌≡◌, ◌≢◌, ◌*◌, ◌-◌, ◌≤◌, ◌↔◌, IfErr, IfOk, IfSome, IsNone, IsSome, IsTrue, None, OnOk, Some};
ghost use Rattle.std.specs.Duration.{as_nanos};
ghost use Rattle.std.specs.Io.{ReadsAtMost, WritesAtMost};
ghost use Rattle.std.specs.Io.KnownBytes.{ReadConsumes, WriteAppends};
ghost use Rattle.std.specs.IoError.{error_kind};

use office_base::is_interrupted;
use std::io;
use std::io::{ErrorKind, Read, Write};
use std::marker::Model;
use std::net::OpenStream;
use std::time::{Clock, Duration};

/// How many seconds a whole request may take, and how many its whole answer. Source: own.
pub const LONGEST: u64 = 60;

/// How often one read or write is asked again after a signal: more often than signals come in that
/// time.
const INTERRUPTIONS: u32 = 1_000_000;

/// What is left of the time for what began then; none where it is over. Both are readings of one
/// clock.
fn remaining(began: Duration, now: Duration) -> Option<Duration>
    ensures over { IsNone result ↔ (LONGEST * 1_000_000_000 ≤ as_nanos now - as_nanos began) }
    ensures rest { IfSome result
        (λ it. as_nanos it ≡ LONGEST * 1_000_000_000 - (as_nanos now - as_nanos began)) }
{
    let rest = Duration::from_secs(LONGEST).checked_sub(now.saturating_sub(began))?;
    if rest.is_zero() { None } else { Some(rest) }
}

/// A side of a connection, whose time begins as it is first read or written. It reports no bytes
/// beforehand, as a socket does not. Contracts see a `Side`: the connection, and when its time
/// began, once it has.
#[derive(Drop)]
pub struct DeadlineStream<'a, C, K> {
    stream: C,
    clock: &'a K,
    began: Option<Duration>,
}

impl<'a, C, K> Model for DeadlineStream<'a, C, K> {
    ghost use Rattle.office_http.specs.Sides.{Side, side_code};

    ghost Value = { Side C };

    ghost coded = { side_code C.code };

    ghost view = { λ side. record { connection = side.stream; began = side.began } };
}

impl<'a, C: OpenStream, K: Clock> DeadlineStream<'a, C, K> {
    /// A side of that connection, by that clock. Its time has not begun.
    pub fn new(stream: C, clock: &'a K) -> DeadlineStream<'a, C, K>
        ensures connection { result.connection ≡ stream }
        ensures waits { result.began ≡ None }
    {
        DeadlineStream {
            stream,
            clock,
            began: None,
        }
    }

    /// The connection itself, whose time does not matter any more.
    pub fn into_stream(self) -> C
        ensures { result ≡ self.entry.connection }
    {
        self.stream
    }

    /// What is left of its time, which begins with the first call.
    fn remaining(&mut self) -> io::Result<Duration>
        ensures most { IfOk result (λ it. as_nanos it ≤ LONGEST * 1_000_000_000) }
        ensures begun { OnOk result (IsSome self.new.began) }
        ensures kept { IfSome self.old.began (λ then. self.new.began ≡ Some then) }
    {
        let now = self.clock.monotonic()?;
        let began = self.began.unwrap_or(now);
        self.began = Some(began);
        match remaining(began, now) {
            Some(remaining) => Ok(remaining),
            None => Err(io::Error::from(ErrorKind::TimedOut)),
        }
    }
}

impl<'a, C: Read + OpenStream, K: Clock> DeadlineStream<'a, C, K> {
    /// Reads once, for as long as time is left.
    fn read_once(&mut self, buf: &mut [u8]) -> io::Result<usize>
        ensures { ReadsAtMost result buf.new }
    {
        let remaining = self.remaining()?;
        self.stream.set_read_timeout(Some(remaining))?;
        self.stream.read(buf)
    }
}

impl<'a, C: Write + OpenStream, K: Clock> DeadlineStream<'a, C, K> {
    /// Writes once, for as long as time is left.
    fn write_once(&mut self, buf: &[u8]) -> io::Result<usize>
        ensures { WritesAtMost result buf.now }
    {
        let remaining = self.remaining()?;
        self.stream.set_write_timeout(Some(remaining))?;
        self.stream.write(buf)
    }
}

impl<'a, C: Read + OpenStream, K: Clock> Read for DeadlineStream<'a, C, K> {
    /// A read that was interrupted is asked again while time is left.
    fn read(&mut self, buf: &mut [u8]) -> io::Result<usize>
        ensures bound { ReadsAtMost result buf.new }
        ensures bytes { ReadConsumes None None result buf.new }
        ensures retried { IfErr result (λ error. error_kind error ≢ ErrorKind.Interrupted) }
    {
        for _ in 0..INTERRUPTIONS {
            match self.read_once(buf) {
                Ok(count) => return Ok(count),
                Err(error) => {
                    if !is_interrupted(&error) {
                        return Err(error);
                    }
                }
            }
        }
        Err(io::Error::from(ErrorKind::TimedOut))
    }
}

impl<'a, C: Write + OpenStream, K: Clock> Write for DeadlineStream<'a, C, K> {
    /// A write that was interrupted is asked again while time is left.
    fn write(&mut self, buf: &[u8]) -> io::Result<usize>
        ensures bound { WritesAtMost result buf.now }
        ensures bytes { WriteAppends None None result buf.now }
        ensures retried { IfErr result (λ error. error_kind error ≢ ErrorKind.Interrupted) }
    {
        for _ in 0..INTERRUPTIONS {
            match self.write_once(buf) {
                Ok(count) => return Ok(count),
                Err(error) => {
                    if !is_interrupted(&error) {
                        return Err(error);
                    }
                }
            }
        }
        Err(io::Error::from(ErrorKind::TimedOut))
    }

    fn flush(&mut self) -> io::Result<()> {
        self.stream.flush()
    }
}
