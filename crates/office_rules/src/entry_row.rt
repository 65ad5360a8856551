//! A row of the register of entries.
use crate::Entry;
use office_records::Text;

/// An entry of a run, as the register of entries reports it: the entry and, of its record, what its
/// head says of ref and content, borrowed from the office.
#[derive(Clone, Copy)]
pub struct EntryRow<'a> {
    pub entry: &'a Entry,
    pub ref_text: &'a Text,
    /// The content's length, in bytes, and its SHA-256.
    pub length: u32,
    pub digest: &'a [u8; 32],
}
