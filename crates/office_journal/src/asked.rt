//! The line of a request that goes to the office now.
ghost use Rattle.std.specs.Prelude.{◌≡◌, Err, OnOk};
ghost use Rattle.office_journal.specs.Members.{IsAskedRead, Puts, asked_fields};

use crate::contents::put_contents_if_any;
use crate::members::{put_digest, put_json_if_any, put_sum_if_any, put_text_if_any, put_who};
use crate::text_error::TextError;
use crate::{Body, ContentsPlace, Preceding};
use json::Writer;
use std::alloc::Global;

/// A request, as the line `asked` names it. Its acts and contents stand in `acts`, each content by
/// its length and SHA-256.
#[derive(Clone, Copy)]
pub struct Asked<'a> {
    /// When the line is written, as `2026-11-28T16:21:47.083841+00:00`.
    pub at: &'a str,
    /// The name that signed in.
    pub name: &'a str,
    /// The address that the request came from.
    pub from: &'a str,
    /// The method and the path, as `POST /acts`.
    pub request: &'a str,
    pub reason: Option<&'a str>,
    /// The key by which the same request may come again.
    pub key: Option<&'a str>,
    pub body: Option<Body>,
    /// The acts as a text of JSON; `None` for a request without acts, as `POST /run/resume`.
    pub acts: Option<&'a str>,
    /// The SHA-256 of the settings that allowed the request.
    pub settings: [u8; 32],
    /// The places of acts whose day has passed, as a text of JSON, if there are any.
    pub earlier: Option<&'a str>,
    /// The files of a vault that the contents name, as a text of JSON, if there are any.
    pub files: Option<&'a str>,
    /// Where the contents are, if the acts have any.
    pub contents: Option<ContentsPlace<'a>>,
    pub preceding: Preceding<'a>,
}

impl Asked<'_> {
    /// Writes the members of the line. Fails with `NoJson` if a text that should be JSON is none,
    /// has a member twice, or nests 128 deep.
    pub(crate) fn put(&self, alloc: Global, members: &mut Writer) -> Result<(), TextError>
        ensures put { OnOk result (Puts members.old members.new (asked_fields self.now)) }
        ensures read { OnOk result (IsAskedRead self.now) }
        ensures unread { result ≡ Err TextError.NoJson → ¬ IsAskedRead self.now }
    {
        put_who(
            members,
            self.at,
            "asked",
            (self.name, self.from),
            self.request,
        )?;
        put_text_if_any(members, "reason", self.reason)?;
        put_text_if_any(members, "key", self.key)?;
        put_sum_if_any(alloc, members, "body", self.body)?;
        put_json_if_any(alloc, members, "acts", self.acts)?;
        put_digest(alloc, members, "settings", self.settings)?;
        put_json_if_any(alloc, members, "earlier", self.earlier)?;
        put_json_if_any(alloc, members, "files", self.files)?;
        put_contents_if_any(members, self.contents)?;
        self.preceding.put(alloc, members)?;
        Ok(())
    }
}
