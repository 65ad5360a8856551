//! A reader and a writer as the world outside has them: in pieces, and failing.
use std::io;
use std::io::{ErrorKind, Read, Write};

/// A reader that gives its bytes in pieces of at most so many, and then ends, or fails if it
/// breaks.
#[derive(Drop)]
pub(crate) struct Sent<'a> {
    bytes: &'a [u8],
    most: usize,
    breaks: bool,
}

impl<'a> Sent<'a> {
    /// A reader that gives its bytes in such pieces, and then ends.
    pub(crate) fn in_pieces(bytes: &'a [u8], most: usize) -> Sent<'a> {
        let breaks = false;
        Sent {
            bytes,
            most,
            breaks,
        }
    }

    /// A reader that gives its bytes one by one, and then fails.
    pub(crate) fn breaking(bytes: &'a [u8]) -> Sent<'a> {
        let (most, breaks) = (1, true);
        Sent {
            bytes,
            most,
            breaks,
        }
    }
}

impl Read for Sent<'_> {
    fn read(&mut self, buf: &mut [u8]) -> io::Result<usize> {
        if self.breaks && self.bytes.is_empty() {
            return Err(io::Error::from(ErrorKind::ConnectionReset));
        }
        let count = self.most.min(buf.len()).min(self.bytes.len());
        let (given, left) = self.bytes.split_at(count);
        buf[..count].copy_from_slice(given);
        self.bytes = left;
        Ok(count)
    }
}

/// A writer that takes so many bytes and then fails.
#[derive(Drop)]
pub(crate) struct Narrow {
    pub room: usize,
}

impl Write for Narrow {
    fn write(&mut self, buf: &[u8]) -> io::Result<usize> {
        if self.room == 0 {
            return Err(io::Error::from(ErrorKind::StorageFull));
        }
        let taken = buf.len().min(self.room);
        self.room -= taken;
        Ok(taken)
    }

    fn flush(&mut self) -> io::Result<()> {
        Ok(())
    }
}
