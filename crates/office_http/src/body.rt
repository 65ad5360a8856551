//! The body of a request, read after its head.
ghost use Rattle.std.specs.Prelude.{◌≡◌, ℕ, ◌≤◌, ◌<◌, List, ◌++◌, length, IfOk, OnOk, IsTrue, IsFalse};
ghost use Rattle.std.specs.Io.KnownBytes.{Consumes, IsAtEnd};
ghost use Rattle.std.specs.Vec.{vec_capacity};
ghost use Rattle.office_http.specs.Bodies.{ReadsBody};

use crate::head::read_piece;
use office_base::{Io, Stop};
use std::io::Read;

/// Reads until a buffer has so many bytes, for which it has room. Whether it came to that.
fn fill<R: Read>(reader: &mut R, buf: &mut Vec<u8>, end: usize) -> Result<bool, Io>
    requires { end ≤ vec_capacity buf.old }
    ensures bytes { OnOk result
        ((piece : List ℕ) × (buf.new.items ≡ buf.old.items ++ piece)
        × Consumes (R.remaining reader.old) (R.remaining reader.new) piece) }
    ensures whole { IfOk result (λ whole. IsTrue whole → end ≤ length buf.new.items) }
    ensures cut { IfOk result
        (λ whole. IsFalse whole → (length buf.new.items < end) × IsAtEnd (R.remaining reader.new)) }
{
    while buf.len() < end {
        if read_piece(reader, buf, end)? == 0 {
            return Ok(false);
        }
    }
    Ok(true)
}

/// Reads the rest of a body into a buffer that has room for it.
fn read_rest<R: Read>(
    reader: &mut R,
    buf: &mut Vec<u8>,
    start: usize,
    end: usize,
) -> Result<bool, Io>
    requires ordered { start ≤ end }
    requires start_in { start ≤ length buf.old.items }
    requires room { end ≤ vec_capacity buf.old }
    ensures { IfOk result (λ whole. ReadsBody start end whole buf.old.items buf.new.items
        (R.remaining reader.old) (R.remaining reader.new)) }
{
    fill(reader, buf, end)
}

/// Reads the rest of a body, which is to lie from `start` to `end` in the buffer. Whether it is
/// whole: `false` where the connection ends before it does. Room for all of it is asked for first,
/// so that `Memory` comes before a byte is read; `Io` comes where the reader answered an error, and
/// some bytes may have been read then.
pub fn read_body<R: Read>(
    reader: &mut R,
    buf: &mut Vec<u8>,
    start: usize,
    end: usize,
) -> Result<bool, Stop>
    requires ordered { start ≤ end }
    requires start_in { start ≤ length buf.old.items }
    ensures body { IfOk result (λ whole. ReadsBody start end whole buf.old.items buf.new.items
        (R.remaining reader.old) (R.remaining reader.new)) }
    ensures unread { result ≡ Err Stop.Memory → reader.new ≡ reader.old }
{
    let missing = end.saturating_sub(buf.len());
    if buf.try_reserve(missing).is_err() {
        return Err(Stop::Memory);
    }
    match read_rest(reader, buf, start, end) {
        Ok(whole) => Ok(whole),
        Err(Io) => Err(Stop::Io),
    }
}
