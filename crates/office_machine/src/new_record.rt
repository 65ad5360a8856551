//! What is asked with a new record.
use office_days::Day;
use office_records::{AggNo, Code, Text};
use office_rules::Content;

/// The members of an act that adds a record, but for its day.
#[derive(Clone, Copy)]
pub(crate) struct Filing<'a> {
    pub(crate) ref_text: &'a Text,
    pub(crate) title: &'a Text,
    pub(crate) originated: Day,
    pub(crate) aggregation: AggNo,
    pub(crate) class: &'a Option<Code>,
    pub(crate) schedule: &'a Option<Code>,
    pub(crate) content: &'a Content,
}
