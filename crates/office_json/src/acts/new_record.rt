//! The act that adds a record with its content.
ghost use Rattle.std.specs.Prelude.{◌≡◌, IfErr, IfOk, Ok};
ghost use Rattle.serde_json.specs.View.{view};
ghost use Rattle.office_json.specs.Acts.{IsReadFault, add_record_parsed, added, fields_part};
ghost use Rattle.office_rules.specs.Parts.{IsReadAs};

use crate::ReadFault;
use crate::content::content_at;
use crate::members::has_only;
use crate::parts::{day_at, number_at, optional_code_at, words_at};
use office_base::Refusal;
use office_days::Day;
use office_records::{AggNo, Code, Text};
use office_rules::{Act, Content, as_part, both};
use serde_json::Value;
use std::alloc::Global;

/// All fields of an act that adds a record but the content.
#[derive(Drop)]
pub(crate) struct RecordFields {
    day: Day,
    ref_text: Text,
    title: Text,
    originated: Day,
    aggregation: AggNo,
    class: Option<Code>,
    schedule: Option<Code>,
}

/// The fields of the members of a value.
#[tactic(auto, unfolding(crate::specs::Acts::fields_part))]
fn read_fields(alloc: Global, value: &Value) -> Result<RecordFields, ReadFault>
    ensures { IsReadAs (fields_part (view value.now)) result }
{
    let placed = both(day_at(value, "day"), number_at(value, "aggregation"));
    let named = both(
        words_at(alloc, value, "ref"),
        words_at(alloc, value, "title"),
    );
    let originated = day_at(value, "originated");
    let planned = both(
        optional_code_at(alloc, value, "class"),
        optional_code_at(alloc, value, "schedule"),
    );
    match both(placed, both(named, both(originated, planned))) {
        Ok(((day, aggregation), ((ref_text, title), (originated, (class, schedule))))) => {
            Ok(RecordFields {
                day,
                ref_text,
                title,
                originated,
                aggregation,
                class,
                schedule,
            })
        }
        Err(fault) => Err(fault),
    }
}

/// The act of a fields with a content.
fn act_of(fields: RecordFields, content: Content) -> Act
    ensures { result ≡ added (fields, content) }
{
    Act::AddRecord {
        day: fields.day,
        ref_text: fields.ref_text,
        title: fields.title,
        originated: fields.originated,
        aggregation: fields.aggregation,
        class: fields.class,
        schedule: fields.schedule,
        content,
    }
}

/// `add-record`: a record is added with its content.
#[tactic(auto, unfolding(crate::specs::Acts::add_record_parsed))]
pub(crate) fn add_record(alloc: Global, value: &Value) -> Result<Act, ReadFault>
    ensures ok { IfOk result (λ act. add_record_parsed (view value.now) ≡ Ok act) }
    ensures err { IfErr result
        (λ fault. IsReadFault (view value.now) (add_record_parsed (view value.now)) fault) }
{
    let names = [
        "act",
        "day",
        "ref",
        "title",
        "originated",
        "aggregation",
        "class",
        "schedule",
        "content",
    ];
    if !has_only(value, &names) {
        return Err(ReadFault::Refused(Refusal::BadText));
    }
    let content = content_at(alloc, value, "content")?;
    match both(read_fields(alloc, value), as_part(content)) {
        Ok((fields, content)) => Ok(act_of(fields, content)),
        Err(fault) => Err(fault),
    }
}
