//! The rows of the tables, collected as they come.
ghost use Rattle.std.specs.Prelude.{◌≡◌, ◌≢◌, ◌++◌, ◌∷◌, [], ℤ, IfErr, IfNone, IfSome, OnOk};
ghost use Rattle.office_rules.specs.Tables.{lists_of, no_rows};
ghost use Rattle.office_store.specs.Collected.{collected_lists};

use office_base::Rebuild;
use office_days::Day;
use office_records::{AggNo, Aggregation, Class, Code, Event, HoldRow, RecordNo, Schedule, Target};
use office_rules::{Entry, Intake, RecordRow, Row, Run, RunNo, Tables};
use std::alloc::Global;

/// The rows that have come, table by table.
#[derive(Drop)]
pub(crate) struct Collected {
    days: Vec<Day>,
    schedules: Vec<(Code, Schedule)>,
    classes: Vec<(Code, Class)>,
    aggregations: Vec<(AggNo, Aggregation)>,
    records: Vec<(RecordNo, RecordRow)>,
    events: Vec<(RecordNo, Event)>,
    contents: Vec<RecordNo>,
    holds: Vec<(Code, HoldRow)>,
    targets: Vec<(Code, Target)>,
    runs: Vec<(RunNo, Run)>,
    entries: Vec<Entry>,
    certificates: Vec<(RunNo, String)>,
}

impl Collected {
    /// No row has come.
    pub(crate) fn new(alloc: Global) -> Collected
        ensures { collected_lists result ≡ no_rows }
    {
        Collected {
            days: Vec::new(alloc),
            schedules: Vec::new(alloc),
            classes: Vec::new(alloc),
            aggregations: Vec::new(alloc),
            records: Vec::new(alloc),
            events: Vec::new(alloc),
            contents: Vec::new(alloc),
            holds: Vec::new(alloc),
            targets: Vec::new(alloc),
            runs: Vec::new(alloc),
            entries: Vec::new(alloc),
            certificates: Vec::new(alloc),
        }
    }

    /// The tables, where `office` has one row.
    pub(crate) fn into_tables(self) -> Option<Tables>
        ensures some { IfSome result (λ tables. lists_of tables ≡ collected_lists self) }
        ensures none { IfNone result ((day : ℤ) → (collected_lists self).days ≢ day ∷ []) }
    {
        let [day] = self.days.as_slice() else {
            return None;
        };
        let day = *day;
        Some(Tables {
            day,
            schedules: self.schedules,
            classes: self.classes,
            aggregations: self.aggregations,
            records: self.records,
            events: self.events,
            contents: self.contents,
            holds: self.holds,
            targets: self.targets,
            runs: self.runs,
            entries: self.entries,
            certificates: self.certificates,
        })
    }
}

impl Intake for Collected {
    ghost content = { collected_lists };

    ghost examines = { ⊥ };

    fn row(&mut self, row: Row) -> Result<(), Rebuild> {
        match row {
            Row::Office { day } => put(&mut self.days, day),
            Row::Schedule { code, schedule } => put(&mut self.schedules, (code, schedule)),
            Row::Class { code, class } => put(&mut self.classes, (code, class)),
            Row::Aggregation {
                number,
                aggregation,
            } => put(&mut self.aggregations, (number, aggregation)),
            Row::Record { number, columns } => put(&mut self.records, (number, columns)),
            Row::Event { number, event } => put(&mut self.events, (number, event)),
            Row::Content { number } => put(&mut self.contents, number),
            Row::Hold { code, hold } => put(&mut self.holds, (code, hold)),
            Row::Target { hold, target } => put(&mut self.targets, (hold, target)),
            Row::Run { number, run } => put(&mut self.runs, (number, run)),
            Row::Entry { entry } => put(&mut self.entries, entry),
            Row::Certificate { run, text } => put(&mut self.certificates, (run, text)),
        }
    }
}

// Puts one more at the end.
fn put<T: Drop>(list: &mut Vec<T>, item: T) -> Result<(), Rebuild>
    ensures ok { OnOk result (list.new.items ≡ list.old.items ++ item ∷ []) }
    ensures memory { IfErr result (λ error. error ≡ Rebuild.Memory) }
{
    list.push(item).map_err(|_| Rebuild::Memory)
}
