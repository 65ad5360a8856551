//! The acts.
use crate::Content;
use office_days::{Day, Offset, Period};
use office_records::{Action, AggNo, Classified, Code, RecordNo, Target, Text, Trigger};

/// What the office is asked to do, on a day. An act that reads is typed and bounded, so the office
/// never refuses it as a bad text or a bad number.
#[derive(Drop)]
pub enum Act {
    /// Adds a disposal schedule under a new code.
    AddSchedule {
        day: Day,
        code: Code,
        trigger: Trigger,
        period: Period,
        offset: Offset,
        action: Action,
    },
    /// Adds a class under a new code.
    AddClass {
        day: Day,
        code: Code,
        title: Text,
        schedule: Code,
    },
    /// Gives a class another schedule.
    SetClassSchedule {
        day: Day,
        class: Code,
        schedule: Code,
    },
    /// Adds an open aggregation, which gets the next number.
    AddAggregation {
        day: Day,
        ref_text: Text,
        title: Text,
        parent: Option<AggNo>,
        class: Option<Code>,
    },
    /// Closes an aggregation for good.
    CloseAggregation {
        day: Day,
        aggregation: AggNo,
    },
    /// Adds a record with its content, which gets the next number.
    AddRecord {
        day: Day,
        ref_text: Text,
        title: Text,
        originated: Day,
        aggregation: AggNo,
        class: Option<Code>,
        schedule: Option<Code>,
        content: Content,
    },
    /// Gives a record an own schedule, or takes it away.
    SetRecordSchedule {
        day: Day,
        record_no: RecordNo,
        schedule: Option<Code>,
    },
    /// Gives an aggregation or a record an own class, or takes it away.
    Reclassify {
        day: Day,
        target: Classified,
        class: Option<Code>,
    },
    /// Places a hold under a new code, without targets.
    PlaceHold {
        day: Day,
        code: Code,
        reason: Text,
        by: Text,
    },
    /// Puts a target on a hold.
    HoldOn {
        day: Day,
        hold: Code,
        target: Target,
    },
    /// Takes a target off a hold.
    HoldOff {
        day: Day,
        hold: Code,
        target: Target,
    },
    /// Lifts a hold for good; its targets stay on record.
    LiftHold {
        day: Day,
        hold: Code,
    },
    /// Confirms that a due record may be disposed of as its plan says.
    Confirm {
        day: Day,
        record_no: RecordNo,
        action: Action,
        by: Text,
    },
    /// Records that a due record was reviewed, and gives it an own schedule where one is named.
    Review {
        day: Day,
        record_no: RecordNo,
        schedule: Option<Code>,
        by: Text,
    },
    /// Reports a receiver's receipt for a record that was sent; `digest` is that of what was
    /// received.
    Receipt {
        day: Day,
        record_no: RecordNo,
        digest: [u8; 32],
        by: Text,
    },
    /// Records an event of a record, with which its retention period may begin; a later one takes
    /// the place of the earlier.
    Event {
        day: Day,
        record_no: RecordNo,
        occurred: Day,
        by: Text,
    },
    /// Opens a disposal run for the records that are due on its day.
    OpenRun {
        day: Day,
        by: Text,
    },
    /// Lets the open run take its next record, or close where there is none. It has no day of its
    /// own.
    RunStep,
}
