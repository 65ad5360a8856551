//! The line of a reading.
ghost use Rattle.std.specs.Prelude.{◌≡◌, OnOk};
ghost use Rattle.office_journal.specs.Kinds.{reading_fields};
ghost use Rattle.office_journal.specs.Members.{Puts};

use crate::Preceding;
use crate::members::{put_number, put_who};
use json::Writer;
use std::alloc::{AllocError, Global};

/// A reading that was answered, as the line `read` names it. It has no reason and no key, which are
/// for acts.
#[derive(Clone, Copy)]
pub struct Reading<'a> {
    /// When the line is written, as [`crate::Asked`] has it.
    pub at: &'a str,
    /// The name that signed in.
    pub name: &'a str,
    /// The address that the request came from.
    pub from: &'a str,
    /// The method and the path, as `GET /records/8`.
    pub request: &'a str,
    pub status: u16,
    /// The length of the answer.
    pub bytes: u64,
    pub preceding: Preceding<'a>,
}

impl Reading<'_> {
    /// Writes the members of the line.
    pub(crate) fn put(&self, alloc: Global, members: &mut Writer) -> Result<(), AllocError>
        ensures { OnOk result (Puts members.old members.new (reading_fields self.now)) }
    {
        put_who(
            members,
            self.at,
            "read",
            (self.name, self.from),
            self.request,
        )?;
        put_number(members, "status", self.status as u64)?;
        put_number(members, "bytes", self.bytes)?;
        self.preceding.put(alloc, members)
    }
}
