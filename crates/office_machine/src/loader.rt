//! An office under construction, row by row.
ghost use Rattle.std.specs.Prelude.{◌≡◌};
ghost use Rattle.office_rules.specs.Tables.{no_rows};

mod hold_loader;
mod record_loader;
mod schedule_loader;

use crate::certificate::Certificate;
use crate::keys::ContentKeys;
use http_server::Log;
use office_base::Rebuild;
use office_days::Day;
use office_holds::Holds;
use office_records::{Aggregation, Class, Code, Event, Record, RecordNo, Schedule, Status, Target};
use office_rules::{Entry, Intake, Row, Run, RunNo};
use std::alloc::Global;
use std::collections::BTreeMap;
use std::marker::Model;

/// An office under construction: it takes the rows of the tables in, each into the maps and lists
/// that the office keeps. Contracts see the rows that have come.
#[derive(Drop)]
pub struct Loader {
    pub(crate) day: Option<Day>,
    pub(crate) schedules: BTreeMap<Code, Schedule>,
    pub(crate) classes: BTreeMap<Code, Class>,
    pub(crate) aggregations: Vec<Aggregation>,
    pub(crate) heads: Vec<Record>,
    /// As many as heads.
    pub(crate) statuses: Vec<Status>,
    /// By record.
    pub(crate) events: BTreeMap<RecordNo, Event>,
    pub(crate) contents: ContentKeys,
    pub(crate) holds: Holds,
    /// The targets in the order in which they came, for proofs alone; it takes no memory.
    pub(crate) targets: Log<Code, Target>,
    pub(crate) runs: Vec<Run>,
    pub(crate) entries: BTreeMap<(RunNo, RecordNo), Entry>,
    pub(crate) certificates: BTreeMap<RunNo, Certificate>,
    pub(crate) alloc: Global,
}

impl Model for Loader {
    ghost use Rattle.std.specs.Prelude.{map};
    ghost use Rattle.std.specs.Coded.{codes};
    ghost use Rattle.std.specs.FinMap as fin_map;
    ghost use Rattle.office_base.specs.Rows.{numbered_rows};
    ghost use Rattle.office_rules.specs.HoldLoading.{hold_rows};
    ghost use Rattle.office_rules.specs.Rows.{record_rows};
    ghost use Rattle.office_rules.specs.Tables.{TableLists};
    ghost use Rattle.office_machine.specs.Collected.{AreCollected, days_of};

    ghost Value = { TableLists };

    ghost coded = { Prim.hlevel (codes, fin_map.code) };

    ghost view = { λ g. record {
      days = days_of g.day;
      schedules = g.schedules.entries;
      classes = g.classes.entries;
      aggregations = numbered_rows g.aggregations.items;
      records = numbered_rows (record_rows g.heads.items g.statuses.items);
      events = g.events.entries;
      contents = g.contents;
      holds = hold_rows g.holds;
      targets = g.targets.items;
      runs = numbered_rows g.runs.items;
      entries = map (λ e. e.1) g.entries.entries;
      certificates = g.certificates.entries;
    } };

    ghost invariant = { λ g. AreCollected g.heads.items g.statuses.items g.holds g.targets.items
        g.entries.entries };
}

impl Loader {
    /// An office under construction to which no row has come.
    pub fn new(alloc: Global) -> Loader
        ensures { result ≡ no_rows }
    {
        Loader {
            day: None,
            schedules: BTreeMap::new(alloc),
            classes: BTreeMap::new(alloc),
            aggregations: Vec::new(alloc),
            heads: Vec::new(alloc),
            statuses: Vec::new(alloc),
            events: BTreeMap::new(alloc),
            contents: ContentKeys::new(alloc),
            holds: Holds::new(alloc),
            targets: Log::new(),
            runs: Vec::new(alloc),
            entries: BTreeMap::new(alloc),
            certificates: BTreeMap::new(alloc),
            alloc,
        }
    }
}

impl Intake for Loader {
    ghost content = { λ g. g };

    ghost examines = { Unit {0} };

    fn row(&mut self, row: Row) -> Result<(), Rebuild> {
        match row {
            Row::Office { day } => self.put_day(day),
            Row::Schedule { code, schedule } => self.put_schedule(code, schedule),
            Row::Class { code, class } => self.put_class(code, class),
            Row::Aggregation {
                number,
                aggregation,
            } => self.put_aggregation(number, aggregation),
            Row::Record { number, columns } => self.put_record(number, columns),
            Row::Event { number, event } => self.put_event(number, event),
            Row::Content { number } => self.put_content(number),
            Row::Hold { code, hold } => self.put_hold(code, hold),
            Row::Target { hold, target } => self.put_target(hold, target),
            Row::Run { number, run } => self.put_run(number, run),
            Row::Entry { entry } => self.put_entry(entry),
            Row::Certificate { run, text } => self.put_certificate(run, text),
        }
    }
}
