//! The acts, with the fields that other programs give them, and the public calls of the office in
//! memory: a change of one is seen here.
use crate::calls::{code, text};
use office_base::Rebuild;
use office_days::{ConfirmDays, Day, Offset, Period, Unit};
use office_machine::{Act, Answer, Builder, Content, Decision, Machine, RecordView, Row};
use office_proof::Entry;
use office_records::{Action, Classified, RecordNo, Target, Trigger};
use office_rules::Intake;
use std::alloc::Global;
use std::ops::Range;

fn add_schedule(alloc: Global, day: Day) -> Option<Act> {
    Some(Act::AddSchedule {
        day,
        code: code(alloc, "D1")?,
        trigger: Trigger::Added,
        period: Period::new(Unit::Years, 1)?,
        offset: Offset::read("none")?,
        action: Action::Destroy,
    })
}

fn add_class(alloc: Global, day: Day) -> Option<Act> {
    Some(Act::AddClass {
        day,
        code: code(alloc, "FIN")?,
        title: text(alloc, "Finance")?,
        schedule: code(alloc, "D1")?,
    })
}

fn add_aggregation(alloc: Global, day: Day) -> Option<Act> {
    Some(Act::AddAggregation {
        day,
        ref_text: text(alloc, "A")?,
        title: text(alloc, "A")?,
        parent: None,
        class: code(alloc, "FIN"),
    })
}

fn add_record(alloc: Global, day: Day) -> Option<Act> {
    Some(Act::AddRecord {
        day,
        ref_text: text(alloc, "r1")?,
        title: text(alloc, "r1")?,
        originated: day,
        aggregation: 1,
        class: None,
        schedule: None,
        content: Content::new(Vec::new(alloc))?,
    })
}

fn set_class_schedule(alloc: Global, day: Day) -> Option<Act> {
    Some(Act::SetClassSchedule {
        day,
        class: code(alloc, "FIN")?,
        schedule: code(alloc, "D1")?,
    })
}

fn close_aggregation(alloc: Global, day: Day) -> Option<Act> {
    Some(Act::CloseAggregation {
        day,
        aggregation: 1,
    })
}

fn place_hold(alloc: Global, day: Day) -> Option<Act> {
    Some(Act::PlaceHold {
        day,
        code: code(alloc, "H-1")?,
        reason: text(alloc, "court")?,
        by: text(alloc, "registrar")?,
    })
}

fn hold_on(alloc: Global, day: Day) -> Option<Act> {
    Some(Act::HoldOn {
        day,
        hold: code(alloc, "H-1")?,
        target: Target::Record(1),
    })
}

fn hold_off(alloc: Global, day: Day) -> Option<Act> {
    Some(Act::HoldOff {
        day,
        hold: code(alloc, "H-1")?,
        target: Target::Record(1),
    })
}

fn lift_hold(alloc: Global, day: Day) -> Option<Act> {
    Some(Act::LiftHold {
        day,
        hold: code(alloc, "H-1")?,
    })
}

fn set_record_schedule(alloc: Global, day: Day) -> Option<Act> {
    Some(Act::SetRecordSchedule {
        day,
        record_no: 1,
        schedule: code(alloc, "D1"),
    })
}

fn reclassify(alloc: Global, day: Day) -> Option<Act> {
    Some(Act::Reclassify {
        day,
        target: Classified::Record(1),
        class: code(alloc, "FIN"),
    })
}

fn confirm(alloc: Global, day: Day) -> Option<Act> {
    Some(Act::Confirm {
        day,
        record_no: 1,
        action: Action::Destroy,
        by: text(alloc, "registrar")?,
    })
}

fn review(alloc: Global, day: Day) -> Option<Act> {
    Some(Act::Review {
        day,
        record_no: 1,
        schedule: None,
        by: text(alloc, "registrar")?,
    })
}

fn receipt(alloc: Global, day: Day) -> Option<Act> {
    Some(Act::Receipt {
        day,
        record_no: 1,
        digest: [0; 32],
        by: text(alloc, "registrar")?,
    })
}

fn event(alloc: Global, day: Day) -> Option<Act> {
    Some(Act::Event {
        day,
        record_no: 1,
        occurred: day,
        by: text(alloc, "registrar")?,
    })
}

fn open_run(alloc: Global, day: Day) -> Option<Act> {
    Some(Act::OpenRun {
        day,
        by: text(alloc, "registrar")?,
    })
}

/// The act of that place; the kinds are asked for one after another.
fn act(alloc: Global, day: Day, place: usize) -> Option<Act> {
    match place {
        0 => add_schedule(alloc, day),
        1 => add_class(alloc, day),
        2 => add_aggregation(alloc, day),
        3 => add_record(alloc, day),
        4 => set_class_schedule(alloc, day),
        5 => close_aggregation(alloc, day),
        6 => place_hold(alloc, day),
        7 => hold_on(alloc, day),
        8 => hold_off(alloc, day),
        9 => lift_hold(alloc, day),
        10 => set_record_schedule(alloc, day),
        11 => reclassify(alloc, day),
        12 => confirm(alloc, day),
        13 => review(alloc, day),
        14 => receipt(alloc, day),
        15 => event(alloc, day),
        16 => open_run(alloc, day),
        _ => Some(Act::RunStep),
    }
}

/// Decides an act and does it; the number that it is answered with, or 0.
fn number_of(office: &mut Machine, act: &Act) -> Option<u32> {
    let answer = match office.decide(act).ok()? {
        Decision::Stay(answer) => answer,
        Decision::Go(change) => {
            let answer = change.answer;
            office.apply(change).ok()?;
            answer
        }
    };
    match answer {
        Answer::Number(number) | Answer::Same(number) => Some(number),
        _ => Some(0),
    }
}

/// What is due and overdue: nothing.
fn due(office: &Machine, day: Day) -> Option<()> {
    let due: Vec<RecordNo> = office.due_list(day).ok()?;
    let overdue: Vec<RecordNo> = office.overdue_list(day, ConfirmDays::new(30)?).ok()?;
    (due.is_empty() && overdue.is_empty()).then_some(())
}

/// What runs have left: nothing.
fn runs(office: &Machine) -> Option<()> {
    let ending: Option<Entry> = office.entry_of(1).ok()?;
    let entries: Vec<Entry> = office.entries().ok()?;
    (ending.is_none() && entries.is_empty()).then_some(())
}

/// What a run would take, and its certificate: there is none.
fn run(office: &Machine) -> Option<()> {
    let body: Option<String> = office.certificate(1).ok()?;
    let next: (Option<RecordNo>, u32) = office.next_counted();
    (body.is_none() && next.1 == 0 && office.next_in_run().is_none()).then_some(())
}

/// What is read of the office in memory.
fn reading(office: &Machine, day: Day) -> Option<RecordNo> {
    due(office, day)?;
    runs(office)?;
    run(office)?;
    let view: RecordView = office.record(1).ok()??;
    Some(view.number)
}

/// An office that is made of rows.
fn built(alloc: Global, day: Day) -> Result<Machine, Rebuild> {
    let mut builder = Builder::new(alloc);
    builder.row(Row::Office { day })?;
    builder.finish()
}

/// The act of that place is decided, and done where it may be.
fn act_on(alloc: Global, office: &mut Machine, day: Day, place: usize) -> Option<u32> {
    let act = act(alloc, day, place)?;
    number_of(office, &act)
}

/// The acts of these places, one after another.
fn acts_on(alloc: Global, office: &mut Machine, day: Day, places: Range<usize>) -> Option<()> {
    for place in places {
        act_on(alloc, office, day, place)?;
    }
    Some(())
}

/// The calls on an office in memory: each kind of act is decided, and done where it may be.
fn office(alloc: Global, office: &mut Machine, day: Day) -> Option<()> {
    acts_on(alloc, office, day, 0..5)?;
    reading(office, day)?;
    acts_on(alloc, office, day, 5..18)
}

/// The calls of the office in memory.
pub(crate) fn machine(alloc: Global) -> Option<()> {
    let day = Day::read("2024-01-02")?;
    let mut new = Machine::new(alloc);
    office(alloc, &mut new, day)?;
    built(alloc, day).ok()?;
    Some(())
}
