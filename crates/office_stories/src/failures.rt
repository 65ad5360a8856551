//! How a story fails: the row that is not so is named.
use std::test::Fail;

/// The failure of a row.
pub(crate) fn failure(what: &str, row: &str) -> Fail {
    Fail::new(format_args!("{what}: {row}"))
}

/// A row must be so; else the failure says what is reported.
pub(crate) fn must(is_so: bool, row: &str, reported: &str) -> Result<(), Fail> {
    if is_so {
        return Ok(());
    }
    Err(Fail::new(format_args!("{row}, reported {reported}")))
}
