//! A row of an import as the act that adds its record.
ghost use Rattle.std.specs.Prelude.{◌≡◌};
ghost use Rattle.office_base.specs.EntityNumbers.{entity_number};
ghost use Rattle.office_rules.specs.Parts.{IsReadAs};
ghost use Rattle.office_csv.specs.ImportRows.{IsRowRead, addition, code_field, day_field, is_first_column, is_header, named};

use office_base::{Refusal, read_entity_number};
use office_days::Day;
use office_records::{AggNo, Code, Text};
use office_rules::{Act, Content, ReadFault, as_part, both, read_code, read_content, read_words};
use std::alloc::Global;

/// The fields of a row of an import, as texts.
#[derive(Clone, Copy)]
pub struct ImportRow<'a> {
    pub ref_text: &'a str,
    pub title: &'a str,
    pub originated: &'a str,
    pub aggregation: &'a str,
    pub class: &'a str,
    pub schedule: &'a str,
    pub content: &'a str,
}

/// Whether a field is the name of the first column, also behind a byte order mark.
fn is_first_column(field: &str) -> bool
    ensures { result ≡ is_first_column field.now }
{
    field == "ref" || field == "\u{feff}ref"
}

impl ImportRow<'_> {
    /// Whether the fields are the names of the columns.
    pub(crate) fn is_header(&self) -> bool
        ensures { result ≡ is_header (named self.now) }
    {
        is_first_column(self.ref_text)
            && self.title == "title"
            && self.originated == "originated"
            && self.aggregation == "aggregation"
            && self.class == "class"
            && self.schedule == "schedule"
            && self.content == "content"
    }
}

/// The day that a field is.
fn day_of(field: &str) -> Result<Day, ReadFault>
    ensures { IsReadAs (day_field field.now) result }
{
    let day = Day::read(field).ok_or(Refusal::BadText)?;
    Ok(day)
}

/// The number of an aggregation that a field is.
fn number_of(field: &str) -> Result<AggNo, ReadFault>
    ensures { IsReadAs (entity_number field.now) result }
{
    let number = read_entity_number(field)?;
    Ok(number)
}

/// The code that a field is; none where it is empty.
#[tactic(auto, using(office_rules::proofs::Made::fault_made))]
fn code_of(alloc: Global, field: &str) -> Result<Option<Code>, ReadFault>
    ensures { IsReadAs (code_field field.now) result }
{
    if field.is_empty() {
        return Ok(None);
    }
    match read_code(alloc, field) {
        Ok(code) => Ok(Some(code)),
        Err(fault) => Err(fault),
    }
}

/// The act that adds a record of these parts on the day.
fn act_of(
    day: Day,
    parts: (
        ((Text, Text), (Day, AggNo)),
        ((Option<Code>, Option<Code>), Content),
    ),
) -> Act
    ensures { result ≡ addition day parts }
{
    let ((named, placed), (planned, content)) = parts;
    let (ref_text, title) = named;
    let (originated, aggregation) = placed;
    let (class, schedule) = planned;
    Act::AddRecord {
        day,
        ref_text,
        title,
        originated,
        aggregation,
        class,
        schedule,
        content,
    }
}

/// The act that adds the record of a row on the day. The row is refused as `BadText` where a field
/// is not of its form, else as `BadNumber` where the number of the aggregation or the length of the
/// content is out of its range. Empty fields for class and schedule are none. `Memory` comes where
/// memory was refused.
#[tactic(auto, unfolding(crate::specs::ImportRows::parsed_row))]
pub fn read_import_row(alloc: Global, day: Day, row: &ImportRow) -> Result<Act, ReadFault>
    ensures { IsRowRead day (named row.now) result }
{
    let content = as_part(read_content(alloc, row.content)?);
    let named = both(
        read_words(alloc, row.ref_text),
        read_words(alloc, row.title),
    );
    let placed = both(day_of(row.originated), number_of(row.aggregation));
    let planned = both(code_of(alloc, row.class), code_of(alloc, row.schedule));
    match both(both(named, placed), both(planned, content)) {
        Ok(parts) => Ok(act_of(day, parts)),
        Err(fault) => Err(fault),
    }
}
