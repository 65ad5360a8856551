//! What is reported of an office in memory: what is spent, runs, certificates, records, what is
//! due.
ghost use Rattle.std.specs.Prelude.{◌≡◌, IfOk, map};
ghost use Rattle.serde_json.specs.View.{view};
ghost use Rattle.office_json.specs.DueJson.{due_row_data};

use crate::offices::{act_of, perform};
use crate::written::push;
use office_base::Memory;
use office_days::Day;
use office_json::{due_row_value, due_value, record_value, text_of};
use office_machine::{DueRows, Machine};
use office_proof::{Entry, RunNo, entry_line};
use office_records::{RecordNo, Status, Text};
use office_rules::{Act, Content, RecordView};
use serde_json::Value;
use std::alloc::Global;
use std::io::Write;

/// What is closed is spent once all records below it are ended.
pub(crate) const SPENDING: &str = "
    2024-01-02 add-schedule D1 added years 1 none destroy = Done
    2024-01-02 add-class FIN D1 = Done
    2024-01-02 add-root A FIN = Number(1)
    2024-01-02 add-child A/1 1 = Number(2)
    2024-01-02 add-child A/2 1 = Number(3)
    2024-01-02 add-empty-record A/1/1 2 = Number(1)
    2024-01-02 add-empty-record A/1/2 2 = Number(2)
    spent = nothing
    2024-01-31 close-aggregation 2 = Done
    2024-01-31 close-aggregation 3 = Done
    spent = nothing
    2025-01-02 confirm 2 destroy = Done
    2025-01-02 open-run = Number(1)
    2025-01-02 run-step = Step(2, Destroyed)
    spent = nothing
    2025-01-02 run-step = RunClosed(1)
    2025-01-02 confirm 1 destroy = Done
    2025-01-02 open-run = Number(2)
    2025-01-02 run-step = Step(1, Destroyed)
    spent = 2;
    2025-01-31 close-aggregation 1 = Done
    spent = 1;2;
";

/// The digest in the last line is that of the 75 bytes above it, worked out with `sha256sum`; the
/// certificate has 147 bytes.
pub(crate) const NOTHING_TO_DO: &str = r"
    certificate 1 = none
    2025-01-02 open-run = Number(1)
    2025-01-02 run-step = RunClosed(1)
    certificate 1 = CERTIFICATE 1\nDAY 2025-01-02\nBY registrar\nENDED 0\nSENT 0\nSKIPPED 0\nSPENT 0\nSHA256 045ce16f4fb05c273a45025e528fc936c6f459e0efd3c4ac5938925881b5a62a\n
";

/// Two classes with an aggregation of each, and three records, all on one day. A record that is
/// there already is reported as the same on any day, and leaves the office's day as it is.
pub(crate) const BASE: &str = "
    today = 0001-01-01
    2024-01-02 add-schedule D1 added years 1 none destroy = Done
    2024-01-02 add-class FIN D1 = Done
    2024-01-02 add-class LEG D1 = Done
    2024-01-02 add-root A FIN = Number(1)
    2024-01-02 add-root B LEG = Number(2)
    2024-01-02 add-record r1 1 YWJj = Number(1)
    2024-01-02 add-empty-record r2 2 = Number(2)
    2024-01-02 add-record r3 1 YWJj = Number(3)
    0001-01-01 add-record r1 1 YWJj = Same(1)
    today = 2024-01-02
    2024-02-01 add-record r1 1 YWJj = Same(1)
    today = 2024-01-02
";

/// Holds on record 2 by its class and by itself, and one that is placed on record 3 between two
/// steps of a run. The digest is that of the empty content, worked out with `sha256sum`.
pub(crate) const RUN: &str = r"
    2025-01-02 place-hold H-9 = Done
    2025-01-02 hold-on H-9 class:LEG = Done
    2025-01-02 place-hold H-2 = Done
    2025-01-02 hold-on H-2 record:2 = Done
    2025-01-02 confirm 1 destroy = Done
    2025-01-02 confirm 2 destroy = Done
    2025-01-02 confirm 3 destroy = Done
    next = none
    2025-01-02 open-run = Number(1)
    next = 1
    2025-01-02 run-step = Step(1, Destroyed)
    2025-01-02 run-step = Step(2, Skipped)
    # the line of an entry has a hold or a hyphen
    last-entry = ENTRY\t2\tskipped\tr2\tLEG\tD1\t2025-01-02\tH-2\tregistrar\t0\te3b0c44298fc1c149afbf4c8996fb92427ae41e4649b934ca495991b7852b855\n
    last-entry-without-hold = ENTRY\t2\tskipped\tr2\tLEG\tD1\t2025-01-02\t-\tregistrar\t0\te3b0c44298fc1c149afbf4c8996fb92427ae41e4649b934ca495991b7852b855\n
    # a hold that is placed between two steps counts
    next = 3
    2025-01-02 hold-on H-2 record:3 = Done
    next = 3
    2025-01-02 run-step = Step(3, Skipped)
    next = none
    2025-01-02 run-step = RunClosed(1)
    next = none
";

/// Of many records that are due, the candidates alone are looked at: each step looks at one, and
/// the last at none.
pub(crate) const FEW_OF_MANY: &str = "
    2024-01-02 add-schedule D1 added years 1 none destroy = Done
    2024-01-02 add-class FIN D1 = Done
    2024-01-02 add-root A FIN = Number(1)
    add-records 20000 = Number(20000)
    2025-01-02 confirm 7 destroy = Done
    2025-01-02 confirm 9000 destroy = Done
    2025-01-02 confirm 20000 destroy = Done
    next-counted = none of 0
    2025-01-02 open-run = Number(1)
    next-counted = 7 of 1
    2025-01-02 run-step = Step(7, Destroyed)
    next-counted = 9000 of 1
    2025-01-02 run-step = Step(9000, Destroyed)
    next-counted = 20000 of 1
    2025-01-02 run-step = Step(20000, Destroyed)
    next-counted = none of 0
    2025-01-02 run-step = RunClosed(1)
    next-counted = none of 0
";

/// What is reported of records that are here. The digests are those of `abc`, an example of FIPS
/// 180-4, and of nothing, by `sha256sum`; what is reported of record 1 has 306 bytes.
pub(crate) const HERE: &str = r#"
    record 1 = {"added":"2024-01-02","aggregation":1,"class":"FIN","confirmed":null,"digest":"ba7816bf8f01cfea414140de5dae2223b00361a396177a9cb410ff61f20015ad","due":"2025-01-02","ended":null,"event":null,"held":null,"length":3,"number":1,"originated":"2024-01-02","ref":"r1","schedule":"D1","status":"here","title":"r1"}
    record 4 = none
    due 2025-01-01 = []
    due 2025-01-02 = [{"action":"destroy","class":"FIN","confirmed":false,"due":"2025-01-02","held":null,"record":1,"ref":"r1","schedule":"D1"},{"action":"destroy","class":"LEG","confirmed":false,"due":"2025-01-02","held":null,"record":2,"ref":"r2","schedule":"D1"},{"action":"destroy","class":"FIN","confirmed":false,"due":"2025-01-02","held":null,"record":3,"ref":"r3","schedule":"D1"}]

    # run 3 ends record 3
    2025-01-02 open-run = Number(1)
    2025-01-02 run-step = RunClosed(1)
    2025-01-02 open-run = Number(2)
    2025-01-02 run-step = RunClosed(2)
    2025-01-02 confirm 3 destroy = Done
    2025-01-02 open-run = Number(3)
    2025-01-02 run-step = Step(3, Destroyed)
    record 3 = {"added":"2024-01-02","aggregation":1,"class":"FIN","confirmed":{"action":"destroy","by":"registrar","day":"2025-01-02","due":"2025-01-02"},"digest":"ba7816bf8f01cfea414140de5dae2223b00361a396177a9cb410ff61f20015ad","due":"2025-01-02","ended":{"outcome":"destroyed","run":3},"event":null,"held":null,"length":3,"number":3,"originated":"2024-01-02","ref":"r3","schedule":"D1","status":"ended","title":"r3"}

    # record 1 were it ended so, without a due day
    record-ended-as-3 1 = {"added":"2024-01-02","aggregation":1,"class":"FIN","confirmed":null,"digest":"ba7816bf8f01cfea414140de5dae2223b00361a396177a9cb410ff61f20015ad","due":null,"ended":{"outcome":"destroyed","run":3},"event":null,"held":null,"length":3,"number":1,"originated":"2024-01-02","ref":"r1","schedule":"D1","status":"ended","title":"r1"}
"#;

/// A record whose schedule counts from an event has no due day until its event is recorded; a later
/// event takes the place of the earlier.
pub(crate) const EVENTS: &str = r#"
    2024-01-03 add-schedule E event years 2 none destroy = Done
    2024-01-03 set-record-schedule 1 E = Done
    record 1 = {"added":"2024-01-02","aggregation":1,"class":"FIN","confirmed":null,"digest":"ba7816bf8f01cfea414140de5dae2223b00361a396177a9cb410ff61f20015ad","due":null,"ended":null,"event":null,"held":null,"length":3,"number":1,"originated":"2024-01-02","ref":"r1","schedule":"E","status":"here","title":"r1"}
    # no such record; a day before the office's; an event after the day of its act, which leaves the office's day
    2024-03-01 event 9 2024-02-29 = refused 5
    2024-01-02 event 1 2024-01-02 = refused 1
    2024-03-01 event 1 2024-03-02 = refused 21
    today = 2024-01-03
    record 1 = {"added":"2024-01-02","aggregation":1,"class":"FIN","confirmed":null,"digest":"ba7816bf8f01cfea414140de5dae2223b00361a396177a9cb410ff61f20015ad","due":null,"ended":null,"event":null,"held":null,"length":3,"number":1,"originated":"2024-01-02","ref":"r1","schedule":"E","status":"here","title":"r1"}
    # an event before the day of its act, and one on it
    2024-03-01 event 1 2024-02-29 = Done
    today = 2024-03-01
    record 1 = {"added":"2024-01-02","aggregation":1,"class":"FIN","confirmed":null,"digest":"ba7816bf8f01cfea414140de5dae2223b00361a396177a9cb410ff61f20015ad","due":"2026-02-28","ended":null,"event":"2024-02-29","held":null,"length":3,"number":1,"originated":"2024-01-02","ref":"r1","schedule":"E","status":"here","title":"r1"}
    2024-03-01 event 1 2024-03-01 = Done
    record 1 = {"added":"2024-01-02","aggregation":1,"class":"FIN","confirmed":null,"digest":"ba7816bf8f01cfea414140de5dae2223b00361a396177a9cb410ff61f20015ad","due":"2026-03-01","ended":null,"event":"2024-03-01","held":null,"length":3,"number":1,"originated":"2024-01-02","ref":"r1","schedule":"E","status":"here","title":"r1"}
    # an event that is refused leaves the one before
    2024-03-02 event 1 2024-03-03 = refused 21
    record 1 = {"added":"2024-01-02","aggregation":1,"class":"FIN","confirmed":null,"digest":"ba7816bf8f01cfea414140de5dae2223b00361a396177a9cb410ff61f20015ad","due":"2026-03-01","ended":null,"event":"2024-03-01","held":null,"length":3,"number":1,"originated":"2024-01-02","ref":"r1","schedule":"E","status":"here","title":"r1"}
    # an event of a record whose schedule counts from another day
    2024-03-01 event 2 2024-02-29 = Done
    record 2 = {"added":"2024-01-02","aggregation":2,"class":"LEG","confirmed":null,"digest":"e3b0c44298fc1c149afbf4c8996fb92427ae41e4649b934ca495991b7852b855","due":"2025-01-02","ended":null,"event":"2024-02-29","held":null,"length":0,"number":2,"originated":"2024-01-02","ref":"r2","schedule":"D1","status":"here","title":"r2"}

    # the least of several refusals, also of records that are sent or ended
    2024-02-29 event 9 2024-03-02 = refused 1
    2024-03-01 event 9 2024-03-02 = refused 5
    2025-01-02 add-schedule T added years 1 none transfer = Done
    2025-01-02 set-record-schedule 2 T = Done
    2025-01-02 confirm 2 transfer = Done
    2025-01-02 confirm 3 destroy = Done
    2025-01-02 open-run = Number(1)
    2025-01-02 run-step = Step(2, Sent)
    2025-01-02 run-step = Step(3, Destroyed)
    2025-01-02 run-step = RunClosed(1)
    2025-01-02 event 3 2025-01-03 = refused 13
    2025-01-02 event 2 2025-01-03 = refused 14
    2025-01-02 event 2 2025-01-01 = refused 14
"#;

/// A record that is confirmed and held, and another that is due beside it.
pub(crate) const HELD: &str = r#"
    2018-01-02 add-schedule D1 added years 7 none destroy = Done
    2018-01-02 add-schedule T30 added years 7 month transfer = Done
    2018-01-02 add-schedule K added days 0 none keep = Done
    2018-01-02 add-class FIN D1 = Done
    2018-01-02 add-class LEG T30 = Done
    2018-01-02 add-class PER K = Done
    2018-01-02 add-root A FIN = Number(1)
    2018-01-02 add-root B PER = Number(2)
    2018-01-02 add-root C PER = Number(3)
    2018-01-02 add-root D PER = Number(4)
    2018-01-02 add-root E PER = Number(5)
    2018-01-02 add-root F PER = Number(6)
    2018-01-02 add-root G LEG = Number(7)
    2018-01-02 add-record r1 1 YWJj = Number(1)
    2018-01-02 add-empty-record r2 2 = Number(2)
    2018-01-02 add-empty-record r3 2 = Number(3)
    2018-01-02 add-empty-record r4 2 = Number(4)
    2018-01-02 add-empty-record r5 2 = Number(5)
    2018-01-02 add-empty-record r6 2 = Number(6)
    2018-01-02 add-empty-record r7 2 = Number(7)
    2018-01-02 add-empty-record r8 2 = Number(8)
    2018-01-02 add-empty-record r9 2 = Number(9)
    2018-01-02 add-empty-record r10 2 = Number(10)
    2018-01-02 add-empty-record r11 2 = Number(11)
    2018-01-02 add-empty-record r12 2 = Number(12)
    2018-01-02 add-empty-record r13 2 = Number(13)
    2018-01-02 add-empty-record r14 2 = Number(14)
    2018-01-02 add-empty-record r15 2 = Number(15)
    2018-01-02 add-empty-record r16 2 = Number(16)
    2018-01-02 add-empty-record r17 2 = Number(17)
    2018-01-02 add-empty-record r18 2 = Number(18)
    2018-01-02 add-empty-record r19 2 = Number(19)
    act {"act":"add-record","day":"2018-01-02","ref":"2017/4","title":"An \\"offer\\"","originated":"2017-05-04","aggregation":7,"content":""} = Number(20)
    2025-03-04 confirm 20 transfer = Done
    2025-03-04 place-hold H-2 = Done
    2025-03-04 hold-on H-2 record:20 = Done
    record 20 = {"added":"2018-01-02","aggregation":7,"class":"LEG","confirmed":{"action":"transfer","by":"registrar","day":"2025-03-04","due":"2025-02-01"},"digest":"e3b0c44298fc1c149afbf4c8996fb92427ae41e4649b934ca495991b7852b855","due":"2025-02-01","ended":null,"event":null,"held":"H-2","length":0,"number":20,"originated":"2017-05-04","ref":"2017/4","schedule":"T30","status":"here","title":"An \\"offer\\""}
    due 2025-03-04 = [{"action":"destroy","class":"FIN","confirmed":false,"due":"2025-01-02","held":null,"record":1,"ref":"r1","schedule":"D1"},{"action":"transfer","class":"LEG","confirmed":true,"due":"2025-02-01","held":"H-2","record":20,"ref":"2017/4","schedule":"T30"}]
"#;

/// The aggregations that are spent.
fn report_spent(office: &Machine, out: &mut Vec<u8>) -> Option<()> {
    let tree = office.tree();
    for before in 0..tree.aggregation_count() {
        let aggregation = before + 1;
        if tree.has_aggregation(aggregation) && tree.spent(aggregation) {
            write!(out, "{aggregation};").ok()?;
        }
    }
    Some(())
}

/// A record that the next step of a run would take.
fn push_next(next: Option<RecordNo>, out: &mut Vec<u8>) -> Option<()> {
    match next {
        Some(record_no) => write!(out, "{record_no}").ok(),
        None => push(out, "none"),
    }
}

/// The record that the next step of a run would take, and how many candidates were looked at.
fn report_counted(office: &Machine, out: &mut Vec<u8>) -> Option<()> {
    let (next, count) = office.next_counted();
    push_next(next, out)?;
    write!(out, " of {count}").ok()
}

/// The certificate of a run.
fn report_certificate(office: &Machine, run: RunNo, out: &mut Vec<u8>) -> Option<()> {
    match office.certificate(run) {
        Ok(Some(text)) => push(out, text.as_str()),
        Ok(None) => push(out, "none"),
        Err(_) => None,
    }
}

/// The line of an entry.
fn report_entry(office: &Machine, entry: &Entry, out: &mut Vec<u8>) -> Option<()> {
    let tree = office.tree();
    if !tree.has_record(entry.record_no) {
        return None;
    }
    match entry_line(*out.allocator(), entry, tree.record(entry.record_no)) {
        Ok(line) => push(out, line.as_str()),
        Err(_) => None,
    }
}

/// The line of the last entry, or what it would be with no hold in it.
fn report_last_entry(office: &Machine, is_free: bool, out: &mut Vec<u8>) -> Option<()> {
    let mut entries = office.entries().ok()?;
    match entries.pop() {
        Some(mut entry) => {
            if is_free {
                entry.hold = None;
            }
            report_entry(office, &entry, out)
        }
        None => None,
    }
}

/// The text of what is reported of a record, with the entry that ended it.
fn view_text(alloc: Global, view: &RecordView, ended: Option<&Entry>) -> Result<String, Memory> {
    let value = record_value(alloc, view, ended)?;
    text_of(alloc, &value)
}

/// Appends what is reported of a record, with the entry that ended it.
fn push_view(view: &RecordView, ended: Option<&Entry>, out: &mut Vec<u8>) -> Option<()> {
    let text = view_text(*out.allocator(), view, ended).ok()?;
    push(out, text.as_str())
}

/// What is reported of a record, with the entry that ended a record of that number.
fn report_view(
    office: &Machine,
    view: &RecordView,
    ended: RecordNo,
    out: &mut Vec<u8>,
) -> Option<()> {
    match office.entry_of(ended) {
        Ok(ended) => push_view(view, ended.as_ref(), out),
        Err(_) => None,
    }
}

/// What is reported of a record.
fn report_record(office: &Machine, record_no: RecordNo, out: &mut Vec<u8>) -> Option<()> {
    match office.record(record_no) {
        Ok(Some(view)) => report_view(office, &view, record_no, out),
        Ok(None) => push(out, "none"),
        Err(_) => None,
    }
}

/// What is reported of a record were it ended as record 3, without a due day.
fn report_ended(office: &Machine, record_no: RecordNo, out: &mut Vec<u8>) -> Option<()> {
    match office.record(record_no) {
        Ok(Some(mut view)) => {
            view.status = Status::Ended;
            view.due = None;
            report_view(office, &view, 3, out)
        }
        _ => None,
    }
}

/// The rows that are left, in JSON.
fn row_values(alloc: Global, mut rows: DueRows<'_>) -> Result<Vec<Value>, Memory>
    ensures { IfOk result (λ values. map view values.items ≡ map due_row_data rows.entry) }
{
    let mut values = Vec::new(alloc);
    while let Some(row) = rows.next_row() {
        values.push(due_row_value(alloc, &row)?)?;
    }
    Ok(values)
}

/// The text of the rows of what is due on a day.
fn due_text(alloc: Global, office: &Machine, day: Day) -> Result<String, Memory> {
    let values = row_values(alloc, office.due_rows(day)?)?;
    text_of(alloc, &due_value(values))
}

/// What is reported of the records that are due on a day.
fn report_due(office: &Machine, day: Day, out: &mut Vec<u8>) -> Option<()> {
    let text = due_text(*out.allocator(), office, day).ok()?;
    push(out, text.as_str())
}

/// The addition of a record without content to aggregation 1.
fn addition(alloc: Global, day: Day, name: &str) -> Option<Act> {
    Some(Act::AddRecord {
        day,
        ref_text: Text::read(alloc, name).ok()??,
        title: Text::read(alloc, name).ok()??,
        originated: day,
        aggregation: 1,
        class: None,
        schedule: None,
        content: Content::new(Vec::new(alloc))?,
    })
}

/// Adds the record of that place to aggregation 1, and reports what is answered.
fn add_record(office: &mut Machine, place: u32, out: &mut Vec<u8>) -> Option<()> {
    let alloc = *out.allocator();
    let name = format!(in alloc; "r{place}").ok()?;
    let act = addition(alloc, Day::read("2024-01-02")?, name.as_str())?;
    perform(office, &act, out)
}

/// Adds so many records to aggregation 1, and reports what is answered to the last.
fn add_records(office: &mut Machine, count: u32, out: &mut Vec<u8>) -> Option<()> {
    for place in 0..count {
        out.clear();
        add_record(office, place, out)?;
    }
    Some(())
}

/// What is reported of the thing of that number, or so many records are added.
fn report_thing(office: &mut Machine, word: &str, number: u32, out: &mut Vec<u8>) -> Option<()> {
    match word {
        "add-records" => add_records(office, number, out),
        "certificate" => report_certificate(office, number, out),
        "record" => report_record(office, number, out),
        "record-ended-as-3" => report_ended(office, number, out),
        _ => None,
    }
}

/// What an office answers to an act.
fn report_act(office: &mut Machine, word: &str, text: &str, out: &mut Vec<u8>) -> Option<()> {
    let act = act_of(*out.allocator(), word, text)?;
    perform(office, &act, out)
}

/// What is reported of an office as a whole, or what it answers to an act.
fn report_office(office: &mut Machine, word: &str, text: &str, out: &mut Vec<u8>) -> Option<()> {
    match word {
        "spent" => report_spent(office, out),
        "next" => push_next(office.next_in_run(), out),
        "next-counted" => report_counted(office, out),
        "today" => out.extend_from_slice(&office.day().text()).ok(),
        "last-entry" => report_last_entry(office, false, out),
        "last-entry-without-hold" => report_last_entry(office, true, out),
        "due" => report_due(office, Day::read(text)?, out),
        _ => report_act(office, word, text, out),
    }
}

pub(crate) fn report(
    office: &mut Machine,
    word: &str,
    asked: &[u8],
    out: &mut Vec<u8>,
) -> Option<()> {
    let text = str::from_utf8(asked).ok()?;
    match text.parse::<u32>() {
        Ok(number) => report_thing(office, word, number, out),
        Err(_) => report_office(office, word, text, out),
    }
}
