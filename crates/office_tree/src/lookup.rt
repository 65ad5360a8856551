//! What the tree has, by code, number or ref.
ghost use Rattle.std.specs.Prelude.{◌≡◌, ◌<◌, ◌≤◌, IfSome, IsNone, IsTrue, Some, false, length};
ghost use Rattle.std.specs.FinMap.{get};
ghost use Rattle.std.specs.List.{list_any};
ghost use Rattle.std.specs.Option.{option_copied, option_map};
ghost use Rattle.std.specs.Str.{bytes_eq};
ghost use Rattle.office_records.specs.Lists.{numbered};
ghost use Rattle.office_records.specs.Sound.{IsSound};
ghost use Rattle.office_records.specs.Tree.{event_day, has_aggregation, has_record};

use crate::Tree;
use crate::ref_index::number_of;
use office_days::Day;
use office_records::{
    AggNo, Aggregation, Class, Code, Event, Record, RecordNo, Schedule, Status, Text,
};

/// The row of that number, if it is there. Rows are numbered 1, 2, ..
pub(crate) fn numbered<T>(rows: &[T], number: u32) -> Option<&T>
    ensures { option_copied result ≡ numbered rows.now number }
{
    if number == 0 {
        return None;
    }
    rows.get(number as usize - 1)
}

impl Tree {
    /// The schedule of that code; `None` where there is none.
    pub fn schedule(&self, code: &Code) -> Option<&Schedule>
        ensures { option_copied result ≡ get self.now.schedules code.now }
    {
        self.schedules.get(code)
    }

    /// The class of that code; `None` where there is none.
    pub fn class(&self, code: &Code) -> Option<&Class>
        ensures { option_copied result ≡ get self.now.classes code.now }
    {
        self.classes.get(code)
    }

    /// The aggregation of that number, which must be there.
    pub fn aggregation(&self, aggregation: AggNo) -> &Aggregation
        requires { IsTrue (has_aggregation self.now aggregation) }
        ensures { numbered self.now.aggregations aggregation ≡ Some result.now }
    {
        &self.aggregations[aggregation as usize - 1]
    }

    /// The head of the record of that number, which must be there.
    pub fn record(&self, record_no: RecordNo) -> &Record
        requires { IsTrue (has_record self.now record_no) }
        ensures { numbered self.now.records record_no ≡ Some result.now }
    {
        &self.records[record_no as usize - 1]
    }

    /// The number of a record with this ref; of two records no more than one has it in an office
    /// that is sound.
    pub fn record_of_ref(&self, ref_text: &Text) -> Option<RecordNo>
        ensures there { IfSome result (λ r. (0 < r) × (r ≤ length self.now.records)) }
        ensures some { IfSome result
            (λ r. option_map (λ head. head.ref_text) (numbered self.now.records r)
            ≡ Some ref_text.now) }
        ensures none { IsNone result
            → list_any (λ head. bytes_eq head.ref_text ref_text.now) self.now.records ≡ false }
    {
        number_of(&self.derived.directory.by_record_ref, ref_text)
    }

    /// The status of the record of that number, which must be there.
    pub fn status(&self, record_no: RecordNo) -> Status
        requires { IsTrue (has_record self.now record_no) }
        ensures { numbered self.now.statuses record_no ≡ Some result }
    {
        self.statuses[record_no as usize - 1]
    }

    /// The event of the record; `None` if none is recorded.
    pub fn event(&self, record_no: RecordNo) -> Option<&Event>
        ensures { option_copied result ≡ get self.now.events record_no }
    {
        self.events.get(&record_no)
    }

    /// The day on which the record's event occurred; none where no event of it is recorded.
    pub fn event_day(&self, record_no: RecordNo) -> Option<Day>
        ensures { result ≡ event_day self.now record_no }
    {
        match self.events.get(&record_no) {
            Some(event) => Some(event.occurred),
            None => None,
        }
    }

    /// Makes known to proofs that a tree is sound: a call does nothing.
    pub fn sound(&self)
        ensures { IsSound self.now }
    {
        let _ = &self.records;
    }
}
