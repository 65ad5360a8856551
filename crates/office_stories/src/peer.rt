//! A client in memory: its bytes come in pieces, and its answer is compared with the one awaited.
use std::io;
use std::io::{Read, Write};

/// A reader that gives its bytes in pieces of at most so many, and then ends or fails.
#[derive(Drop)]
pub(crate) struct Pieces<'a> {
    pub bytes: &'a [u8],
    pub most: usize,
    pub fails: bool,
}

impl Read for Pieces<'_> {
    fn read(&mut self, buf: &mut [u8]) -> io::Result<usize> {
        let count = self.most.min(buf.len()).min(self.bytes.len());
        if count == 0 && self.fails {
            return Err(io::Error::from(io::ErrorKind::ConnectionReset));
        }
        let (given, left) = self.bytes.split_at(count);
        buf[..count].copy_from_slice(given);
        self.bytes = left;
        Ok(count)
    }
}

/// A writer that takes so many bytes and then fails, and compares them with those that are awaited.
#[derive(Drop)]
pub(crate) struct Document<'a> {
    pub awaited: &'a [u8],
    pub room: usize,
    pub differs: bool,
}

impl Write for Document<'_> {
    fn write(&mut self, buf: &[u8]) -> io::Result<usize> {
        let count = self.room.min(buf.len());
        if count == 0 && !buf.is_empty() {
            return Err(io::Error::from(io::ErrorKind::ConnectionReset));
        }
        self.room -= count;
        self.differs = self.differs || !self.awaited.starts_with(&buf[..count]);
        let passed = count.min(self.awaited.len());
        self.awaited = &self.awaited[passed..];
        Ok(count)
    }

    fn flush(&mut self) -> io::Result<()> {
        Ok(())
    }
}
