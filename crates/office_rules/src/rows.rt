//! The rows of the office's tables, and what writes one of them.
ghost use Rattle.std.specs.Prelude.{◌≡◌, IfOk};

use crate::copies::{copy_plan, copy_text, copy_texts};
use crate::{Entry, Run, RunNo};
use office_base::Memory;
use office_days::{Day, DueDay};
use office_records::{
    Action, AggNo, Aggregation, Class, Code, Event, HoldRow, Record, RecordNo, Schedule, Status,
    Target, Text,
};
use std::alloc::Global;

/// The columns of a record. Those of its review, its confirmation and its receipt are each by
/// themselves, as they are in a table, where nothing but a check keeps a group of them together.
#[derive(Drop)]
pub struct RecordRow {
    pub ref_text: Text,
    pub title: Text,
    pub originated: Day,
    pub added: Day,
    pub aggregation: AggNo,
    /// The length of its content, in bytes.
    pub size: u32,
    /// The SHA-256 of its content.
    pub digest: [u8; 32],
    pub status: Status,
    pub class: Option<Code>,
    pub schedule: Option<Code>,
    pub reviewed: Option<Day>,
    pub reviewed_by: Option<Text>,
    pub conf_action: Option<Action>,
    pub conf_due: Option<DueDay>,
    pub conf_day: Option<Day>,
    pub conf_by: Option<Text>,
    pub receipt_day: Option<Day>,
    pub receipt_by: Option<Text>,
}

impl RecordRow {
    /// Copies of the names of those who reviewed, who confirmed and who reported the receipt.
    fn copy_people(
        &self,
        alloc: Global,
    ) -> Result<(Option<Text>, Option<Text>, Option<Text>), Memory>
        ensures { IfOk result
            (λ p. p ≡ (self.now.reviewed_by, self.now.conf_by, self.now.receipt_by)) }
    {
        let reviewed_by = copy_text(alloc, self.reviewed_by.as_ref())?;
        let conf_by = copy_text(alloc, self.conf_by.as_ref())?;
        let receipt_by = copy_text(alloc, self.receipt_by.as_ref())?;
        Ok((reviewed_by, conf_by, receipt_by))
    }

    /// Second columns that are equal to these; `Memory` where there is none for them.
    pub fn copy(&self, alloc: Global) -> Result<RecordRow, Memory>
        ensures { IfOk result (λ row. row ≡ self.now) }
    {
        let digest = self.digest;
        let (ref_text, title) = copy_texts(alloc, &self.ref_text, &self.title)?;
        let (class, schedule) = copy_plan(alloc, &self.class, &self.schedule)?;
        let (reviewed_by, conf_by, receipt_by) = self.copy_people(alloc)?;
        Ok(RecordRow {
            ref_text,
            title,
            originated: self.originated,
            added: self.added,
            aggregation: self.aggregation,
            size: self.size,
            digest,
            status: self.status,
            class,
            schedule,
            reviewed: self.reviewed,
            reviewed_by,
            conf_action: self.conf_action,
            conf_due: self.conf_due,
            conf_day: self.conf_day,
            conf_by,
            receipt_day: self.receipt_day,
            receipt_by,
        })
    }
}

/// One write to the tables: a row put in by its key, in place of what was there or as a new one, or
/// the removal of a content or of a target.
#[derive(Drop)]
pub enum RowWrite {
    Schedule {
        code: Code,
        schedule: Schedule,
    },
    Class {
        code: Code,
        class: Class,
    },
    Aggregation {
        number: AggNo,
        aggregation: Aggregation,
    },
    /// A record's head, with its status beside it.
    Record {
        number: RecordNo,
        head: Record,
        status: Status,
    },
    /// The event of the record of that number.
    Event {
        number: RecordNo,
        event: Event,
    },
    Content {
        number: RecordNo,
        bytes: Vec<u8>,
    },
    DeleteContent {
        number: RecordNo,
    },
    Hold {
        code: Code,
        hold: HoldRow,
    },
    Target {
        hold: Code,
        target: Target,
    },
    RemoveTarget {
        hold: Code,
        target: Target,
    },
    Run {
        number: RunNo,
        run: Run,
    },
    Entry {
        entry: Entry,
    },
    Certificate {
        run: RunNo,
        text: String,
    },
    /// The office's day.
    Day {
        day: Day,
    },
}
