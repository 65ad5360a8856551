//! Bytes written and flushed, and the error of a reader or a writer. What went out is known where the
//! writer failed, too.
ghost use Rattle.std.specs.Prelude.{◌≡◌, ◌↔◌, IsTrue, OnErr, OnOk, map};
ghost use Rattle.std.specs.List.{concat};
ghost use Rattle.std.specs.Io.KnownBytes.{Appends};
ghost use Rattle.std.specs.IoError.{error_kind};
ghost use Rattle.office_base.specs.Output.{AppendsSome};

use std::io::{self, ErrorKind, Write};

/// A reader or a writer answered an error in this call.
#[derive(Clone, Copy, PartialEq, Eq, Debug)]
pub struct Io;

/// Whether a signal came before the first byte, as one does that lets a stopped process go on.
pub fn is_interrupted(error: &io::Error) -> bool
    ensures { IsTrue result ↔ (error_kind error.now ≡ ErrorKind.Interrupted) }
{
    error.kind() == ErrorKind::Interrupted
}

/// Writes bytes. A write that a signal interrupted is tried again. `Io` comes where the writer
/// answered another error, or took no byte; the first of the bytes, or none, went out then.
pub fn put_bytes<W: Write>(bytes: &[u8], out: &mut W) -> Result<(), Io>
    ensures ok { OnOk result (Appends (W.contents out.old) (W.contents out.new) bytes.now) }
    ensures err { OnErr result
        (AppendsSome (W.contents out.old) (W.contents out.new) bytes.now) }
{
    let mut rest = bytes;
    for _ in 0..u32::MAX {
        if rest.is_empty() {
            return Ok(());
        }
        match out.write(rest) {
            Ok(0) => return Err(Io),
            Ok(count) => rest = &rest[count..],
            Err(error) => {
                if !is_interrupted(&error) {
                    return Err(Io);
                }
            }
        }
    }
    Err(Io)
}

/// Writes texts one after another, and no byte between. At `Io` the first of all their bytes, or
/// none, went out.
pub fn put_parts<W: Write>(parts: &[&[u8]], out: &mut W) -> Result<(), Io>
    ensures ok { OnOk result (Appends (W.contents out.old) (W.contents out.new)
        (concat (map (λ part. part.now) parts.now))) }
    ensures err { OnErr result (AppendsSome (W.contents out.old) (W.contents out.new)
        (concat (map (λ part. part.now) parts.now))) }
{
    for part in parts {
        put_bytes(part, out)?;
    }
    Ok(())
}

/// Writes all of the bytes, and flushes them, which no clause says. At `Io` the first of them, or
/// none, went out.
pub fn write_out<W: Write>(bytes: &[u8], out: &mut W) -> Result<(), Io>
    ensures ok { OnOk result (Appends (W.contents out.old) (W.contents out.new) bytes.now) }
    ensures err { OnErr result
        (AppendsSome (W.contents out.old) (W.contents out.new) bytes.now) }
{
    put_bytes(bytes, out)?;
    out.flush().or(Err(Io))
}
