//! The line of an answer of the office.
ghost use Rattle.std.specs.Prelude.{◌≡◌, Err, OnOk};
ghost use Rattle.office_journal.specs.Members.{IsAnsweredRead, Puts, answered_fields};

use crate::Preceding;
use crate::members::{put_flag_if, put_json_if_any, put_number, put_text, put_text_if_any};
use crate::text_error::TextError;
use json::Writer;
use std::alloc::Global;

/// An answer, as the line `answered` names it.
#[derive(Clone, Copy)]
pub struct Answered<'a> {
    /// When the line is written.
    pub at: &'a str,
    /// The number of the line that asked.
    pub of: u64,
    pub status: u16,
    /// The answers to a list of acts, as a text of JSON.
    pub answers: Option<&'a str>,
    /// What stopped the list, as a text of JSON, if the answers are only the first ones.
    pub fault: Option<&'a str>,
    /// Any other answer, as a text of JSON; `null` if it was none.
    pub answer: Option<&'a str>,
    /// The entry of a log that the answer is of, if the office is one of several machines.
    pub position: Option<&'a str>,
    /// True if this is the answer of an earlier request with the same key: nothing was done.
    pub is_repeated: bool,
    /// False if nobody knows how much was done.
    pub is_known: bool,
    pub preceding: Preceding<'a>,
}

impl Answered<'_> {
    /// Writes the members of the line. Fails with `NoJson` if a text that should be JSON is none,
    /// has a member twice, or nests 128 deep.
    pub(crate) fn put(&self, alloc: Global, members: &mut Writer) -> Result<(), TextError>
        ensures put { OnOk result (Puts members.old members.new (answered_fields self.now)) }
        ensures read { OnOk result (IsAnsweredRead self.now) }
        ensures unread { result ≡ Err TextError.NoJson → ¬ IsAnsweredRead self.now }
    {
        put_text(members, "at", self.at)?;
        put_text(members, "what", "answered")?;
        put_number(members, "of", self.of)?;
        put_number(members, "status", self.status as u64)?;
        put_json_if_any(alloc, members, "answers", self.answers)?;
        put_json_if_any(alloc, members, "fault", self.fault)?;
        put_json_if_any(alloc, members, "answer", self.answer)?;
        put_text_if_any(members, "position", self.position)?;
        put_flag_if(members, "repeated", self.is_repeated, true)?;
        put_flag_if(members, "known", self.is_known, false)?;
        self.preceding.put(alloc, members)?;
        Ok(())
    }
}
