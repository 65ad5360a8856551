//! Where the contents of a list of acts are, beside the journal.
ghost use Rattle.std.specs.Prelude.{◌≡◌, ◌∷◌, [], OnOk};
ghost use Rattle.office_journal.specs.Members.{Puts, contents_field, contents_fields};

use crate::members::{put_number, put_text};
use json::Writer;
use std::alloc::AllocError;

/// The place of the first content of a list. The others follow it, each as long as its act says.
#[derive(Clone, Copy)]
pub struct ContentsPlace<'a> {
    /// The name of the file, which is a day, as `2026-11-28`.
    pub day: &'a str,
    /// How many bytes come before it in the file.
    pub from: u64,
}

/// Writes the member that names the place of the contents.
fn put_contents(members: &mut Writer, place: ContentsPlace<'_>) -> Result<(), AllocError>
    ensures { OnOk result (Puts members.old members.new (contents_field place.entry ∷ [])) }
{
    members.key("contents")?;
    members.begin_object()?;
    put_text(members, "day", place.day)?;
    put_number(members, "from", place.from)?;
    members.end_object()?;
    Ok(())
}

/// Writes the member that names the place of the contents, if the acts have any.
pub(crate) fn put_contents_if_any(
    members: &mut Writer,
    place: Option<ContentsPlace<'_>>,
) -> Result<(), AllocError>
    ensures { OnOk result (Puts members.old members.new (contents_fields place.entry)) }
{
    match place {
        Some(place) => put_contents(members, place),
        None => Ok(()),
    }
}
