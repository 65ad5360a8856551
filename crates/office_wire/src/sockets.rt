//! Connections over TCP.
ghost use Rattle.std.specs.Prelude.{◌≡◌, [], IfOk, Ok, OnOk};
ghost use Rattle.std.specs.Io.Buffered.{writer_buffer};

use crate::connection_source::ConnectionSource;
use office_base::{Io, is_interrupted};
use office_http::DeadlineStream;
use std::alloc::Global;
use std::io::{BufWriter, Read, Write};
use std::net::{OpenListener, OpenStream, Shutdown};
use std::time::{Clock, Duration};
use std::{io, thread};

/// How many reads follow an answer at most, of 4,096 bytes each.
const LAST_READS: u32 = 64;

/// How many milliseconds pass after a connection that could not be accepted.
const ACCEPT_PAUSE: u64 = 100;

/// The connections that a listener accepts, each within its time by the clock. One that fails is
/// reported on `err`.
#[derive(Drop)]
pub struct Sockets<'a, L, K, E> {
    pub alloc: Global,
    pub listener: &'a L,
    pub clock: &'a K,
    pub err: E,
}

/// The two sides of a connection.
type Sides<'a, C, K> = (
    DeadlineStream<'a, C, K>,
    BufWriter<DeadlineStream<'a, C, K>>,
);

/// How many milliseconds pass without a byte before the connection is closed after an answer. A
/// request that was answered by 200 or 409 was read whole, so that nothing is to come.
fn last_wait(status: u16) -> Duration {
    match status {
        200 | 409 => Duration::from_millis(1),
        _ => Duration::from_millis(100),
    }
}

/// Reads what the peer still sends, until none comes for that long: to close a socket with bytes
/// that were not read resets the connection, and the peer may lose the answer.
fn drain<C: Read + OpenStream>(stream: &mut C, wait: Duration) {
    if stream.set_read_timeout(Some(wait)).is_err() {
        return;
    }
    let mut buf = [0u8; 4_096];
    for _ in 0..LAST_READS {
        match stream.read(&mut buf) {
            Ok(n) if n > 0 => {}
            Err(error) if is_interrupted(&error) => {}
            _ => return,
        }
    }
}

/// Shuts down the writing side, by which the peer sees that the answer has ended, and drains what
/// it still sends.
fn finish<C: Read + OpenStream>(stream: &mut C, status: u16) {
    if stream.shutdown(Shutdown::Write).is_ok() {
        drain(stream, last_wait(status));
    }
}

/// The side of a connection to which its answer is written, through a buffer, so that a short one
/// goes out in one write; without a buffer where memory is refused for it.
fn writer_of<'a, C: Write + OpenStream + Drop, K: Clock>(
    alloc: Global,
    stream: &C,
    clock: &'a K,
) -> io::Result<BufWriter<DeadlineStream<'a, C, K>>> {
    match BufWriter::new(alloc, DeadlineStream::new(stream.try_clone()?, clock)) {
        Ok(writer) => Ok(writer),
        Err(_) => BufWriter::with_capacity(
            alloc,
            0,
            DeadlineStream::new(stream.try_clone()?, clock),
        ),
    }
}

/// Waits for a connection. Where none can be accepted it waits a little: if file descriptors run
/// out for a while, a count of connections is not used up at once.
fn accepted<'a, L: OpenListener, K: Clock>(
    alloc: Global,
    listener: &L,
    clock: &'a K,
) -> Option<Sides<'a, L::Stream, K>>
where
    L::Stream: Read + Write + OpenStream,
{
    let Ok((stream, _)) = listener.accept() else {
        thread::sleep(clock, Duration::from_millis(ACCEPT_PAUSE));
        return None;
    };
    match writer_of(alloc, &stream, clock) {
        Ok(writer) => Some((DeadlineStream::new(stream, clock), writer)),
        Err(_) => None,
    }
}

/// Sends out the rest of a connection's answer, and shuts the connection down.
fn closed<'a, C: Read + Write + OpenStream + Drop, K: Clock>(
    reader: DeadlineStream<'a, C, K>,
    writer: &mut BufWriter<DeadlineStream<'a, C, K>>,
    served: Result<u16, Io>,
) -> Result<u16, Io>
    ensures status { IfOk result (λ code. served ≡ Ok code) }

    // It succeeds only if the buffer was sent out.
    ensures sent { OnOk result (writer_buffer writer.new ≡ []) }
{
    let status = served?;
    if writer.flush().is_err() {
        return Err(Io);
    }
    finish(&mut reader.into_stream(), status);
    Ok(status)
}

/// Reports that a connection has failed.
fn report_failure<E: Write>(err: &mut E) {
    let _ = err.write_all(b"office: socket\n");
}

impl<'a, L: OpenListener, K: Clock, E: Write> ConnectionSource for Sockets<'a, L, K, E>
where
    L::Stream: Read + Write + OpenStream,
{
    type Reader = DeadlineStream<'a, L::Stream, K>;

    type Writer = BufWriter<DeadlineStream<'a, L::Stream, K>>;

    fn accept(&mut self) -> Result<(Self::Reader, Self::Writer), Io> {
        match accepted(self.alloc, self.listener, self.clock) {
            Some(sides) => Ok(sides),
            None => {
                report_failure(&mut self.err);
                Err(Io)
            }
        }
    }

    fn close(
        &mut self,
        reader: Self::Reader,
        mut writer: Self::Writer,
        served: Result<u16, Io>,
    ) -> Result<u16, Io> {
        let status = closed(reader, &mut writer, served);
        if status.is_err() {
            report_failure(&mut self.err);
        }
        status
    }
}
