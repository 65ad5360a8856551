//! A journal that is open: the writer of its lines.
ghost use Rattle.std.specs.Prelude.{◌≡◌, ◌≢◌, ◌<◌, ◌+◌, ◌-◌, ◌^◌, ◌++◌, ℕ, List, [], Err, IfErr, IfOk, OnOk, false};
ghost use Rattle.office_journal.specs.Lines.{head_after, opening};
ghost use Rattle.office_journal.specs.Members.{AreShallow, Field, IsAnsweredRead, IsAskedRead, HaveNumbers, answered_fields, asked_fields, fields_tokens};
ghost use Rattle.office_journal.specs.Noting.{IsNoted, IsUnwritten, IsWritten, with_feed};
ghost use Rattle.office_journal.specs.Unread.{IsJudged};

use crate::members::{new_members, text_of};
use crate::{Answered, Asked, Head, Unwritten};
use itoa::Buffer;
use json::Writer;
use office_base::{Io, write_out};
use sha2::{Digest, Sha256};
use std::alloc::{AllocError, Global};
use std::io::Write;

/// The writer of a journal's lines. Each line is linked to the one before, by the head.
#[derive(Drop)]
pub struct Journal<W> {
    out: W,
    head: Head,
    is_poisoned: bool,
}

/// A line with its line feed, and the head after it.
#[derive(Drop)]
struct NextLine {
    bytes: Vec<u8>,
    head: Head,
}

/// Returns the line after a head that has that text behind its number.
fn next_line(alloc: Global, head: &Head, text: &[u8]) -> Result<NextLine, AllocError>
    requires { head.now.line < 2 ^ 64 - 1 }
    ensures bytes { IfOk result (λ next. next.bytes.items
        ≡ with_feed (opening head.now.digest (head.now.line + 1) ++ text.now)) }
    ensures head { IfOk result (λ next. next.head
        ≡ head_after head.now (opening head.now.digest (head.now.line + 1) ++ text.now)) }
{
    let mut digits = [0u8; 64];
    let _ = hex::encode_to_slice(head.digest, &mut digits);
    let mut buffer = Buffer::new();
    let number = buffer.format(head.line + 1);
    let mut bytes = Vec::with_capacity(alloc, text.len().saturating_add(128))?;
    bytes.extend_from_slice(b"{\"before\":\"")?;
    bytes.extend_from_slice(&digits)?;
    bytes.extend_from_slice(b"\",\"line\":")?;
    bytes.extend_from_slice(number.as_bytes())?;
    bytes.extend_from_slice(b",")?;
    bytes.extend_from_slice(text)?;
    let head = Head {
        line: head.line + 1,
        digest: Sha256::digest(&bytes),
    };
    bytes.push(b'\n')?;
    Ok(NextLine { bytes, head })
}

impl<W: Write> Journal<W> {
    /// Opens a journal whose last line has that head, for the lines after it. The writer puts each
    /// byte behind those before, and its `flush` returns once they are on the disk.
    pub fn new(out: W, head: Head) -> Journal<W>
        ensures out { result.out ≡ out }
        ensures head { result.head ≡ head }
        ensures open { result.is_poisoned ≡ false }
    {
        Journal {
            out,
            head,
            is_poisoned: false,
        }
    }

    /// Returns the head: the last line that was written.
    pub fn head(&self) -> Head
        ensures { result ≡ self.now.head }
    {
        self.head
    }

    /// Reports whether a line was torn, so that the journal must be opened again.
    pub fn is_poisoned(&self) -> bool
        ensures { result ≡ self.now.is_poisoned }
    {
        self.is_poisoned
    }

    /// Returns the writer, as for opening the journal again.
    pub fn into_inner(self) -> W
        ensures { result ≡ self.out }
    {
        self.out
    }

    /// Writes the line that has that text behind its number.
    fn write(&mut self, alloc: Global, text: &[u8]) -> Result<u64, Unwritten>
        ensures written { OnOk result (IsWritten W.contents self.old self.new
            (opening self.old.head.digest (self.old.head.line + 1) ++ text.now)) }
        ensures number { IfOk result (λ line. line ≡ self.old.head.line + 1) }
        ensures unwritten { IfErr result (IsUnwritten W.contents self.old self.new
            (opening self.old.head.digest (self.old.head.line + 1) ++ text.now)) }
        ensures texts { result ≢ Err Unwritten.NoJson }
    {
        if self.is_poisoned {
            return Err(Unwritten::Poisoned);
        }
        if self.head.line == u64::MAX {
            return Err(Unwritten::Full);
        }
        let Ok(next) = next_line(alloc, &self.head, text) else {
            return Err(Unwritten::Memory);
        };
        match write_out(&next.bytes, &mut self.out) {
            Ok(()) => {
                self.head = next.head;
                Ok(next.head.line)
            }
            Err(Io) => {
                self.is_poisoned = true;
                Err(Unwritten::Io)
            }
        }
    }

    /// Writes the line of members that were put one after another.
    pub(crate) fn note(&mut self, alloc: Global, members: Writer) -> Result<u64, Unwritten>
        requires { members.before ≡ [] }
        ensures noted { (fields : List Field) → members.tokens ≡ fields_tokens fields
            → HaveNumbers fields → AreShallow fields
            → IsNoted W.contents self.old self.new fields result }
        ensures texts { result ≢ Err Unwritten.NoJson }
    {
        let text = text_of(alloc, members)?;
        self.write(alloc, &text)
    }

    /// Writes the line of a request, and returns its number.
    pub fn note_asked(&mut self, alloc: Global, asked: &Asked<'_>) -> Result<u64, Unwritten>
        ensures noted { IsNoted W.contents self.old self.new (asked_fields asked.now) result }
        // Texts that cannot be read refuse it, and no others do.
        ensures read { IsJudged (IsAskedRead asked.now) result }
    {
        let mut members = new_members(alloc);
        asked.put(alloc, &mut members)?;
        self.note(alloc, members)
    }

    /// Writes the line of an answer, and returns its number.
    pub fn note_answered(
        &mut self,
        alloc: Global,
        answered: &Answered<'_>,
    ) -> Result<u64, Unwritten>
        ensures noted { IsNoted W.contents self.old self.new (answered_fields answered.now)
            result }
        // Texts that cannot be read refuse it, and no others do.
        ensures read { IsJudged (IsAnsweredRead answered.now) result }
    {
        let mut members = new_members(alloc);
        answered.put(alloc, &mut members)?;
        self.note(alloc, members)
    }
}
