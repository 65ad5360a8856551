//! The lines of a file that goes into the vault.
ghost use Rattle.std.specs.Prelude.{◌≡◌, OnOk};
ghost use Rattle.office_journal.specs.Kinds.{upload_fields, stored_fields};
ghost use Rattle.office_journal.specs.Members.{Puts};

use crate::Preceding;
use crate::members::{put_number, put_text_if_any, put_who};
use json::Writer;
use std::alloc::{AllocError, Global};

/// A file that goes into the vault now, as the line `put` names it. The line is written before the
/// vault gets the file.
#[derive(Clone, Copy)]
pub struct Upload<'a> {
    /// When the line is written, as [`crate::Asked`] has it.
    pub at: &'a str,
    /// The name that signed in.
    pub name: &'a str,
    /// The address that the request came from.
    pub from: &'a str,
    /// The method and the path, whose last part is the SHA-256 of the file.
    pub request: &'a str,
    pub reason: Option<&'a str>,
    /// The key by which the same request may come again.
    pub key: Option<&'a str>,
    pub preceding: Preceding<'a>,
}

/// A file that is in the vault, as the line `stored` names it: the name had its bytes.
#[derive(Clone, Copy)]
pub struct Stored<'a> {
    /// When the line is written, as [`crate::Asked`] has it.
    pub at: &'a str,
    /// The name that signed in.
    pub name: &'a str,
    /// The address that the request came from.
    pub from: &'a str,
    /// The method and the path, whose last part is the SHA-256 of the file.
    pub request: &'a str,
    pub reason: Option<&'a str>,
    /// The key by which the same request may come again.
    pub key: Option<&'a str>,
    /// The length of the file.
    pub bytes: u64,
    pub preceding: Preceding<'a>,
}

impl Upload<'_> {
    /// Writes the members of the line.
    pub(crate) fn put(&self, alloc: Global, members: &mut Writer) -> Result<(), AllocError>
        ensures { OnOk result (Puts members.old members.new (upload_fields self.now)) }
    {
        put_who(
            members,
            self.at,
            "put",
            (self.name, self.from),
            self.request,
        )?;
        put_text_if_any(members, "reason", self.reason)?;
        put_text_if_any(members, "key", self.key)?;
        self.preceding.put(alloc, members)
    }
}

impl Stored<'_> {
    /// Writes the members of the line.
    pub(crate) fn put(&self, alloc: Global, members: &mut Writer) -> Result<(), AllocError>
        ensures { OnOk result (Puts members.old members.new (stored_fields self.now)) }
    {
        put_who(
            members,
            self.at,
            "stored",
            (self.name, self.from),
            self.request,
        )?;
        put_text_if_any(members, "reason", self.reason)?;
        put_text_if_any(members, "key", self.key)?;
        put_number(members, "bytes", self.bytes)?;
        self.preceding.put(alloc, members)
    }
}
