//! What a line reports of what precedes it in the file.
ghost use Rattle.std.specs.Prelude.{◌≡◌, ◌∷◌, [], None, OnOk};
ghost use Rattle.office_journal.specs.Members.{Puts, file_fields, file_field, preceding_fields};

use crate::Body;
use crate::members::{put_number, put_sum_if_any, put_text};
use json::Writer;
use std::alloc::{AllocError, Global};

/// The file before this one, which the first line of a new file names.
#[derive(Clone, Copy)]
pub struct FileBefore<'a> {
    /// The name of the file, without its folder.
    pub file: &'a str,
    pub bytes: u64,
}

/// What precedes a line, as its last members name it.
#[derive(Clone, Copy)]
pub struct Preceding<'a> {
    /// The bytes that a full disk or a stop in the middle of a line left before this line.
    pub torn: Option<Body>,
    pub after: Option<FileBefore<'a>>,
}

/// Writes the member that names the file before.
fn put_file(members: &mut Writer, file: FileBefore<'_>) -> Result<(), AllocError>
    ensures { OnOk result (Puts members.old members.new (file_field file.entry ∷ [])) }
{
    members.key("after")?;
    members.begin_object()?;
    put_text(members, "file", file.file)?;
    put_number(members, "bytes", file.bytes)?;
    members.end_object()?;
    Ok(())
}

/// Writes the member that names the file before, if the line is the first of a file.
fn put_file_if_any(members: &mut Writer, file: Option<FileBefore<'_>>) -> Result<(), AllocError>
    ensures { OnOk result (Puts members.old members.new (file_fields file.entry)) }
{
    match file {
        Some(file) => put_file(members, file),
        None => Ok(()),
    }
}

impl Preceding<'_> {
    /// Returns what most lines report: nothing.
    pub fn nothing() -> Preceding<'static>
        ensures torn { result.torn ≡ None }
        ensures after { result.after ≡ None }
    {
        Preceding {
            torn: None,
            after: None,
        }
    }

    /// Writes the last members of a line.
    pub(crate) fn put(&self, alloc: Global, members: &mut Writer) -> Result<(), AllocError>
        ensures { OnOk result (Puts members.old members.new (preceding_fields self.now)) }
    {
        put_sum_if_any(alloc, members, "torn", self.torn)?;
        put_file_if_any(members, self.after)
    }
}
