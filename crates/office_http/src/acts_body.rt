//! The body of a request inside the bytes that were read.
use std::marker::Model;

/// The bytes of a body, where they lie in what was read. Contracts see them as a list.
#[derive(Drop)]
pub struct ActsBody {
    buf: Vec<u8>,
    start: usize,
    end: usize,
}

impl Model for ActsBody {
    ghost use Rattle.std.specs.Prelude.{◌≤◌, List, length, slice_range, ℕ};

    ghost Value = { List ℕ };

    ghost view = { λ body. slice_range body.buf.items body.start body.end };

    ghost invariant = { λ body. (body.start ≤ body.end) × (body.end ≤ length body.buf.items) };
}

impl ActsBody {
    ghost use Rattle.std.specs.Prelude.{◌≡◌, ◌≤◌, length, slice_range};

    /// The bytes of a buffer from `start` to `end`, which are counted from 0; the byte at `end` is
    /// none of them.
    pub fn new(buf: Vec<u8>, start: usize, end: usize) -> ActsBody
        requires ordered { start ≤ end }
        requires within { end ≤ length buf.items }
        ensures { result ≡ slice_range buf.items start end }
    {
        ActsBody { buf, start, end }
    }

    /// The bytes themselves.
    pub fn as_bytes(&self) -> &[u8]
        ensures { result.now ≡ self.now }
    {
        &self.buf[self.start..self.end]
    }
}
