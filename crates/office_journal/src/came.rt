//! The line of a long list, before anybody reads the list.
ghost use Rattle.std.specs.Prelude.{◌≡◌, OnOk};
ghost use Rattle.office_journal.specs.Kinds.{came_fields};
ghost use Rattle.office_journal.specs.Members.{Puts};

use crate::members::{put_sum, put_who};
use crate::{Body, Preceding};
use json::Writer;
use std::alloc::{AllocError, Global};

/// A list of acts that came, as the line `came` names it.
#[derive(Clone, Copy)]
pub struct Came<'a> {
    /// When the line is written, as [`crate::Asked`] has it.
    pub at: &'a str,
    /// The name that signed in.
    pub name: &'a str,
    /// The address that the request came from.
    pub from: &'a str,
    /// The method and the path, as `POST /acts`.
    pub request: &'a str,
    pub body: Body,
    pub preceding: Preceding<'a>,
}

impl Came<'_> {
    /// Writes the members of the line.
    pub(crate) fn put(&self, alloc: Global, members: &mut Writer) -> Result<(), AllocError>
        ensures { OnOk result (Puts members.old members.new (came_fields self.now)) }
    {
        put_who(
            members,
            self.at,
            "came",
            (self.name, self.from),
            self.request,
        )?;
        put_sum(alloc, members, "body", self.body)?;
        self.preceding.put(alloc, members)
    }
}
