//! The line of a request that the gate refused.
ghost use Rattle.std.specs.Prelude.{◌≡◌, Err, OnOk};
ghost use Rattle.office_journal.specs.Kinds.{AreActsRead, IsRefusedRead, refused_acts, refused_fields};
ghost use Rattle.office_journal.specs.Members.{Puts};

use crate::contents::put_contents_if_any;
use crate::members::{
    put_digest_if_any, put_flag_if, put_json, put_json_if_any, put_number, put_number_if_any,
    put_sum_if_any, put_text_if_any, put_who,
};
use crate::text_error::TextError;
use crate::{Body, ContentsPlace, Preceding};
use json::Writer;
use std::alloc::Global;

/// A request of which the office got nothing, as the line `refused` names it. If it failed for a
/// class, for a file or by a rule of four eyes, it has its reason, its key and its acts. Otherwise it
/// has none of these, but the number of its acts and their kinds.
#[derive(Clone, Copy)]
pub struct Refused<'a> {
    /// When the line is written, as [`crate::Asked`] has it.
    pub at: &'a str,
    /// The name that signed in.
    pub name: &'a str,
    /// The address that the request came from.
    pub from: &'a str,
    /// The method and the path, as `POST /acts`.
    pub request: &'a str,
    pub reason: Option<&'a str>,
    /// The key by which the same request may come again.
    pub key: Option<&'a str>,
    pub body: Option<Body>,
    /// How many acts the list has.
    pub count: Option<u64>,
    /// The number of each kind of acts, as a text of JSON.
    pub kinds: Option<&'a str>,
    /// The acts as a text of JSON.
    pub acts: Option<&'a str>,
    /// The SHA-256 of the settings that refused the request, if they were asked.
    pub settings: Option<[u8; 32]>,
    /// The places of acts whose day has passed, as a text of JSON.
    pub earlier: Option<&'a str>,
    /// The files of a vault that the contents name, as a text of JSON.
    pub files: Option<&'a str>,
    /// Where the contents were.
    pub contents: Option<ContentsPlace<'a>>,
    pub status: u16,
    /// What the client was answered, as a text of JSON.
    pub answer: &'a str,
    /// True if the name has used up its share of this day with this line.
    pub is_last: bool,
    pub preceding: Preceding<'a>,
}

impl Refused<'_> {
    /// Writes the members that name the acts.
    fn put_acts(&self, alloc: Global, members: &mut Writer) -> Result<(), TextError>
        ensures put { OnOk result (Puts members.old members.new (refused_acts self.now)) }
        ensures read { OnOk result (AreActsRead self.now) }
        ensures unread { result ≡ Err TextError.NoJson → ¬ AreActsRead self.now }
    {
        put_number_if_any(members, "count", self.count)?;
        put_json_if_any(alloc, members, "kinds", self.kinds)?;
        put_json_if_any(alloc, members, "acts", self.acts)?;
        put_digest_if_any(alloc, members, "settings", self.settings)?;
        put_json_if_any(alloc, members, "earlier", self.earlier)?;
        put_json_if_any(alloc, members, "files", self.files)?;
        put_contents_if_any(members, self.contents)?;
        Ok(())
    }

    /// Writes the members of the line. Fails with `NoJson` if a text that should be JSON is none,
    /// has a member twice, or nests 128 deep.
    pub(crate) fn put(&self, alloc: Global, members: &mut Writer) -> Result<(), TextError>
        ensures put { OnOk result (Puts members.old members.new (refused_fields self.now)) }
        ensures read { OnOk result (IsRefusedRead self.now) }
        ensures unread { result ≡ Err TextError.NoJson → ¬ IsRefusedRead self.now }
    {
        put_who(
            members,
            self.at,
            "refused",
            (self.name, self.from),
            self.request,
        )?;
        put_text_if_any(members, "reason", self.reason)?;
        put_text_if_any(members, "key", self.key)?;
        put_sum_if_any(alloc, members, "body", self.body)?;
        self.put_acts(alloc, members)?;
        put_number(members, "status", self.status as u64)?;
        put_json(alloc, members, "answer", self.answer)?;
        put_flag_if(members, "last", self.is_last, true)?;
        self.preceding.put(alloc, members)?;
        Ok(())
    }
}
