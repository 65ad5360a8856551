//! One line of the journal, as whoever writes it has it.
ghost use Rattle.std.specs.Prelude.{◌≡◌};
ghost use Rattle.sha2.specs.Sha256.{sha256};
ghost use Rattle.office_journal.specs.Lines.{head_of, is_after, line_bytes};

use crate::Head;
use itoa::Buffer;
use sha2::{Digest, Sha256};

/// A line: the SHA-256 of the line before, its own number, and the text after these, which ends the
/// object.
#[derive(Drop)]
pub struct Line {
    pub before: [u8; 32],
    pub number: u64,
    pub text: Vec<u8>,
}

impl Line {
    /// Returns the SHA-256 of the bytes of the line, which the next line contains. It takes no
    /// memory.
    pub fn digest(&self) -> [u8; 32]
        ensures { result ≡ sha256 (line_bytes self.now) }
    {
        let mut digits = [0u8; 64];
        let _ = hex::encode_to_slice(self.before, &mut digits);
        let mut buffer = Buffer::new();
        let number = buffer.format(self.number);
        let mut hasher = Sha256::new();
        hasher.update(b"{\"before\":\"");
        hasher.update(digits.as_slice());
        hasher.update(b"\",\"line\":");
        hasher.update(number.as_bytes());
        hasher.update(b",");
        hasher.update(self.text.as_slice());
        hasher.finalize()
    }

    /// Whether the line comes right after the line of that head.
    pub fn is_after(&self, head: &Head) -> bool
        ensures { result ≡ is_after head.now self.now }
    {
        head.line < u64::MAX && self.number == head.line + 1 && self.before == head.digest
    }
}

/// Returns the head of a journal of these lines; `None` if a line does not come right after the one
/// before. It takes no memory.
pub fn head_of(lines: &[Line]) -> Option<Head>
    ensures { result ≡ head_of lines.now }
{
    let mut head = Head::start();
    for line in lines {
        if !line.is_after(&head) {
            return None;
        }
        head = Head {
            line: line.number,
            digest: line.digest(),
        };
    }
    Some(head)
}
