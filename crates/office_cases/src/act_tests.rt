//! Acts and lists of acts as people write them, and which fault is answered to a bad one.
use crate::answering::push_refused;
use crate::written::push;
use office_days::Day;
use office_json::{ListFault, ReadFault, read_act, read_acts};
use office_records::{Code, RecordNo, Target, Text};
use office_rules::Act;
use serde_json::Value;
use std::io::Write;

/// An act that is read is reported by its members where it places a hold, adds a record, takes an
/// aggregation off a hold, reclassifies or records an event, and else as `an act`.
pub(crate) const ACTS: &str = r#"
    # each kind
    act {"act":"add-schedule","day":"2024-01-02","code":"D1","trigger":"added","unit":"years","count":1,"offset":"none","action":"destroy"} = an act
    act {"act":"add-class","day":"2024-01-02","code":"FIN","title":"Finance","schedule":"D1"} = an act
    act {"act":"set-class-schedule","day":"2024-01-02","class":"FIN","schedule":"D1"} = an act
    act {"act":"add-aggregation","day":"2024-01-02","ref":"A","title":"Files","parent":null,"class":"FIN"} = an act
    act {"act":"add-aggregation","day":"2024-01-02","ref":"A/1","title":"Files","parent":1} = an act
    act {"act":"close-aggregation","day":"2024-01-02","aggregation":4294967295} = an act
    act {"act":"add-record","day":"2024-01-02","ref":"r1","title":"r1","originated":"2024-01-01","aggregation":1,"content":""} = 2024-01-02 add-record r1, r1, in 1, class -, schedule -, of 2024-01-01:\s
    act {"act":"set-record-schedule","day":"2024-01-02","record":1} = an act
    act {"act":"reclassify","day":"2024-01-02","target":"record:1","class":null} = 2024-01-02 reclassify Record(1), class -
    act {"act":"place-hold","day":"2024-01-02","code":"H1","reason":"a lawsuit","by":"the court"} = 2024-01-02 place-hold H1, a lawsuit, the court
    act {"act":"hold-on","day":"2024-01-02","hold":"H1","target":"class:FIN"} = an act
    act {"act":"hold-off","day":"2024-01-02","hold":"H1","target":"aggregation:10"} = 2024-01-02 hold-off H1, aggregation 10
    act {"act":"lift-hold","day":"2024-01-02","hold":"H1"} = an act
    act {"act":"confirm","day":"2024-01-02","record":1,"action":"transfer","by":"an archivist"} = an act
    act {"act":"review","day":"2024-01-02","record":1,"schedule":"D1","by":"an archivist"} = an act
    act {"act":"receipt","day":"2024-01-02","record":1,"digest":"ba7816bf8f01cfea414140de5dae2223b00361a396177a9cb410ff61f20015ad","by":"an archive"} = an act
    act {"act":"event","day":"2024-03-01","record":1,"occurred":"2024-02-29","by":"the court"} = 2024-03-01 event 1, the court, of 2024-02-29
    act {"act":"open-run","day":"2024-01-02","by":"an archivist"} = an act
    act {"act":"run-step"} = an act

    # each member goes to its place
    act {"by":"the court","reason":"a lawsuit","code":"H1","day":"2024-01-02","act":"place-hold"} = 2024-01-02 place-hold H1, a lawsuit, the court
    act {"act":"add-record","day":"2024-01-02","ref":"r1","title":"Offer","originated":"2023-12-31","aggregation":7,"schedule":"D1","content":"YWJj"} = 2024-01-02 add-record r1, Offer, in 7, class -, schedule D1, of 2023-12-31: abc
    act {"act":"reclassify","day":"2024-01-02","target":"record:4294967295"} = 2024-01-02 reclassify Record(4294967295), class -
    act {"by":"a tenant","occurred":"0001-01-01","record":4294967295,"day":"2999-12-31","act":"event"} = 2999-12-31 event 4294967295, a tenant, of 0001-01-01

    # no object, and no word of an act
    act 1 = refused 2
    act [] = refused 2
    act null = refused 2
    act {} = refused 2
    act {"act":1} = refused 2
    act {"act":"Run-Step"} = refused 2
    # a strange member, a missing one, and one that may not be null
    act {"act":"run-step","day":"2024-01-02"} = refused 2
    act {"act":"lift-hold","day":"2024-01-02","hold":"H1","by":"the court"} = refused 2
    act {"act":"lift-hold","hold":"H1"} = refused 2
    act {"act":"lift-hold","day":"2024-01-02","hold":null} = refused 2
    act {"act":"set-record-schedule","day":"2024-01-02","record":null} = refused 2
    act {"act":"receipt","day":"2024-01-02","record":1,"digest":null,"by":"an archive"} = refused 2
    act {"act":"event","day":"2024-03-01","record":1,"occurred":"2024-02-29"} = refused 2
    act {"act":"event","day":"2024-03-01","record":1,"occurred":"2024-02-29","by":null} = refused 2
    act {"act":"event","day":"2024-03-01","record":1,"by":"the court"} = refused 2
    act {"act":"event","day":"2024-03-01","record":1,"occurred":null,"by":"the court"} = refused 2
    act {"act":"event","day":"2024-03-01","occurred":"2024-02-29","by":"the court"} = refused 2
    act {"act":"event","day":"2024-03-01","record":1,"occurred":"2024-02-29","by":"the court","schedule":"D1"} = refused 2
    # values of another type
    act {"act":"lift-hold","day":20240102,"hold":"H1"} = refused 2
    act {"act":"close-aggregation","day":"2024-01-02","aggregation":"1"} = refused 2
    act {"act":"set-record-schedule","day":"2024-01-02","record":1,"schedule":0} = refused 2
    act {"act":"set-record-schedule","day":"2024-01-02","record":1,"schedule":false} = refused 2
    # texts that are not of their form; a digest has 64 digits, in lower case
    act {"act":"lift-hold","day":"2024-02-30","hold":"H1"} = refused 2
    act {"act":"lift-hold","day":"2023-02-29","hold":"H1"} = refused 2
    act {"act":"lift-hold","day":"2024-2-01","hold":"H1"} = refused 2
    act {"act":"lift-hold","day":"3000-01-01","hold":"H1"} = refused 2
    act {"act":"lift-hold","day":"0000-12-31","hold":"H1"} = refused 2
    act {"act":"event","day":"2024-03-01","record":1,"occurred":"2024-02-30","by":"the court"} = refused 2
    act {"act":"lift-hold","day":"2024-01-02","hold":"H 1"} = refused 2
    act {"act":"open-run","day":"2024-01-02","by":""} = refused 2
    act {"act":"open-run","day":"2024-01-02","by":"a\\nb"} = refused 2
    act {"act":"confirm","day":"2024-01-02","record":1,"action":"burn","by":"an archivist"} = refused 2
    act {"act":"receipt","day":"2024-01-02","record":1,"digest":"bA7816bf8f01cfea414140de5dae2223b00361a396177a9cb410ff61f20015ad","by":"an archive"} = refused 2
    act {"act":"receipt","day":"2024-01-02","record":1,"digest":"a7816bf8f01cfea414140de5dae2223b00361a396177a9cb410ff61f20015ad","by":"an archive"} = refused 2
    # a text before a number out of its range
    act {"act":"confirm","day":"2024-01-02","record":0,"action":"burn","by":"an archivist"} = refused 2
    act {"act":"add-schedule","day":"2024-01-02","code":"D1","trigger":"added","unit":"ages","count":-1,"offset":"none","action":"destroy"} = refused 2
    act {"act":"close-aggregation","day":"2024-01-02","aggregation":0,"by":"an archivist"} = refused 2
    act {"act":"event","day":"2024-03-01","record":0,"occurred":"x","by":"the court"} = refused 2
    # numbers out of their range
    act {"act":"close-aggregation","day":"2024-01-02","aggregation":0} = refused 3
    act {"act":"close-aggregation","day":"2024-01-02","aggregation":4294967296} = refused 3
    act {"act":"close-aggregation","day":"2024-01-02","aggregation":-1} = refused 3
    act {"act":"close-aggregation","day":"2024-01-02","aggregation":1.0} = refused 3
    act {"act":"close-aggregation","day":"2024-01-02","aggregation":1e2} = refused 3
    act {"act":"add-aggregation","day":"2024-01-02","ref":"A","title":"Files","parent":0} = refused 3
    act {"act":"add-schedule","day":"2024-01-02","code":"D1","trigger":"added","unit":"years","count":501,"offset":"none","action":"destroy"} = refused 3
    act {"act":"add-schedule","day":"2024-01-02","code":"D1","trigger":"added","unit":"days","count":4294967296,"offset":"none","action":"destroy"} = refused 3
    act {"act":"add-schedule","day":"2024-01-02","code":"D1","trigger":"added","unit":"days","count":-1,"offset":"none","action":"destroy"} = refused 3
    act {"act":"event","day":"2024-03-01","record":0,"occurred":"2024-02-29","by":"the court"} = refused 3
    act {"act":"event","day":"2024-03-01","record":4294967296,"occurred":"2024-02-29","by":"the court"} = refused 3
    act {"act":"receipt","day":"2024-01-02","record":0,"digest":"ba7816bf8f01cfea414140de5dae2223b00361a396177a9cb410ff61f20015ad","by":"an archive"} = refused 3

    # targets have exactly their forms
    act {"act":"hold-off","day":"2024-01-02","hold":"H1","target":"class:FIN"} = an act
    act {"act":"hold-off","day":"2024-01-02","hold":"H1","target":"aggregation:1"} = 2024-01-02 hold-off H1, aggregation 1
    act {"act":"hold-off","day":"2024-01-02","hold":"H1","target":"record:4294967295"} = an act
    act {"act":"hold-on","day":"2024-01-02","hold":"H1","target":"class:FIN"} = an act
    act {"act":"hold-on","day":"2024-01-02","hold":"H1","target":"aggregation:1"} = an act
    act {"act":"hold-on","day":"2024-01-02","hold":"H1","target":"record:4294967295"} = an act
    act {"act":"hold-on","day":"2024-01-02","hold":"H1","target":"aggregation:0"} = refused 3
    act {"act":"hold-on","day":"2024-01-02","hold":"H1","target":"record:4294967296"} = refused 3
    act {"act":"hold-on","day":"2024-01-02","hold":"H1","target":"record:99999999999999999999999"} = refused 3
    act {"act":"hold-on","day":"2024-01-02","hold":"H1","target":"aggregation:00"} = refused 2
    act {"act":"hold-on","day":"2024-01-02","hold":"H1","target":"record:01"} = refused 2
    act {"act":"hold-on","day":"2024-01-02","hold":"H1","target":"record:+1"} = refused 2
    act {"act":"hold-on","day":"2024-01-02","hold":"H1","target":"record:"} = refused 2
    act {"act":"hold-on","day":"2024-01-02","hold":"H1","target":"record: 1"} = refused 2
    act {"act":"hold-on","day":"2024-01-02","hold":"H1","target":"Record:1"} = refused 2
    act {"act":"hold-on","day":"2024-01-02","hold":"H1","target":"class:"} = refused 2
    act {"act":"hold-on","day":"2024-01-02","hold":"H1","target":"class:A B"} = refused 2
    act {"act":"hold-on","day":"2024-01-02","hold":"H1","target":"hold:H1"} = refused 2
    act {"act":"hold-on","day":"2024-01-02","hold":"H1","target":""} = refused 2
"#;

/// Each row is the content of a new record, whose other members are good.
pub(crate) const CONTENTS: &str = r"
    content nothing = 2024-01-02 add-record r, r, in 1, class -, schedule -, of 2024-01-02:\s
    content YQ== = 2024-01-02 add-record r, r, in 1, class -, schedule -, of 2024-01-02:\sa
    content YWI= = 2024-01-02 add-record r, r, in 1, class -, schedule -, of 2024-01-02:\sab
    content YWJj = 2024-01-02 add-record r, r, in 1, class -, schedule -, of 2024-01-02:\sabc
    # without padding, with too much of it, with bits left over, spaced, and in the alphabet for URLs
    content YQ = refused 2
    content YWJj==== = refused 2
    content YR== = refused 2
    content YW Jj = refused 2
    content _-8= = refused 2
    content \= = refused 2
    # at most 262,144 bytes; 87,381 groups of four are 262,143
    content YWJj x 87381 + YQ== = 2024-01-02 add-record r, r, in 1, class -, schedule -, of 2024-01-02:\s + abc x 87381 + a
    content YWJj x 87381 + YWI= = refused 3
    content YWJj x 87381 + YWJj = refused 3
    content YWJj x 87381 + YW = refused 2
";

/// How many acts a text has, or the fault; a bad act is reported by its place, from 0.
pub(crate) const LISTS: &str = r#"
    list [] = 0 acts
    list \s[ {"act":"open-run","day":"2024-01-02","by":"an archivist"},\n{"act":"run-step"} ]\n = 2 acts
    list nothing = NotJson
    list {} = NotJson
    list null = NotJson
    list 1 = NotJson
    list {"act":"run-step"} = NotJson
    list [ = NotJson
    list [1,] = NotJson
    list [] [] = NotJson
    list [1e400] = NotJson
    list ["\f] = NotJson
    list [7] = BadAct(0, BadText)
    list [{"act":"run-step"},{"act":"open-run","day":"2024-01-02","by":"an archivist"},{"act":"lift-hold","day":"2024-01-02"},1] = BadAct(2, BadText)
    list [{"act":"close-aggregation","day":"2024-01-02","aggregation":0}] = BadAct(0, BadNumber)
"#;

/// The text of an optional code.
fn code_text(code: Option<&Code>) -> &str {
    match code {
        Some(code) => code.text(),
        None => "-",
    }
}

/// Appends a day.
pub(crate) fn push_day(out: &mut Vec<u8>, day: Day) -> Option<()> {
    out.extend_from_slice(&day.text()).ok()
}

/// A hold by its members.
fn report_hold(out: &mut Vec<u8>, code: &Code, reason: &Text, by: &Text) -> Option<()> {
    write!(
        out,
        " place-hold {}, {}, {}",
        code.text(),
        reason.text(),
        by.text()
    )
    .ok()
}

/// An own class and schedule.
fn report_plan(out: &mut Vec<u8>, class: Option<&Code>, schedule: Option<&Code>) -> Option<()> {
    let class = code_text(class);
    let schedule = code_text(schedule);
    write!(out, ", class {class}, schedule {schedule}, of ").ok()
}

/// An act that adds a record, by its members.
fn report_addition(act: &Act, out: &mut Vec<u8>) -> Option<()> {
    let Act::AddRecord {
        day,
        ref_text,
        title,
        originated,
        aggregation,
        class,
        schedule,
        content,
    } = act
    else {
        return None;
    };
    push_day(out, *day)?;
    let (ref_text, title) = (ref_text.text(), title.text());
    write!(out, " add-record {ref_text}, {title}, in {aggregation}").ok()?;
    report_plan(out, class.as_ref(), schedule.as_ref())?;
    push_day(out, *originated)?;
    push(out, ": ")?;
    out.extend_from_slice(content.bytes()).ok()
}

/// An event by its members.
fn report_event(out: &mut Vec<u8>, record_no: RecordNo, occurred: Day, by: &Text) -> Option<()> {
    write!(out, " event {record_no}, {}, of ", by.text()).ok()?;
    push_day(out, occurred)
}

/// An act by its members, where its kind is reported so.
fn report_act(act: &Act, out: &mut Vec<u8>) -> Option<()> {
    match act {
        Act::PlaceHold {
            day,
            code,
            reason,
            by,
        } => push_day(out, *day).and(report_hold(out, code, reason, by)),
        Act::AddRecord { .. } => report_addition(act, out),
        Act::HoldOff {
            day,
            hold,
            target: Target::Aggregation(number),
        } => push_day(out, *day).and(write!(
            out,
            " hold-off {}, aggregation {number}",
            hold.text()
        ).ok()),
        Act::Reclassify { day, target, class } => push_day(out, *day).and(write!(
            out,
            " reclassify {target:?}, class {}",
            code_text(class.as_ref())
        )
        .ok()),
        Act::Event {
            day,
            record_no,
            occurred,
            by,
        } => push_day(out, *day).and(report_event(out, *record_no, *occurred, by)),
        _ => push(out, "an act"),
    }
}

/// A fault of reading; none for lack of memory.
fn report_fault(fault: ReadFault, out: &mut Vec<u8>) -> Option<()> {
    match fault {
        ReadFault::Refused(refusal) => push_refused(out, refusal),
        ReadFault::Memory => None,
    }
}

/// The act that a value asks for, or its refusal.
fn report_asked(value: &Value, out: &mut Vec<u8>) -> Option<()> {
    match read_act(*out.allocator(), value) {
        Ok(act) => report_act(&act, out),
        Err(fault) => report_fault(fault, out),
    }
}

/// The act that a text of JSON asks for, or its refusal.
fn report_json(text: &str, out: &mut Vec<u8>) -> Option<()> {
    match Value::from_str(*out.allocator(), text) {
        Ok(value) => report_asked(&value, out),
        Err(_) => None,
    }
}

/// A new record of that content, or its refusal.
fn report_content(content: &str, out: &mut Vec<u8>) -> Option<()> {
    let text = format!(in *out.allocator();
        "{{\"act\":\"add-record\",\"day\":\"2024-01-02\",\"ref\":\"r\",\"title\":\"r\",\"originated\":\"2024-01-02\",\"aggregation\":1,\"content\":\"{content}\"}}"
    );
    match text {
        Ok(text) => report_json(text.as_str(), out),
        Err(_) => None,
    }
}

/// How many acts the bytes of an array have, or the fault; none for lack of memory.
fn report_list(asked: &[u8], out: &mut Vec<u8>) -> Option<()> {
    match read_acts(*out.allocator(), asked) {
        Ok(acts) => write!(out, "{} acts", acts.len()).ok(),
        Err(ListFault::Memory) => None,
        Err(fault) => write!(out, "{fault:?}").ok(),
    }
}

pub(crate) fn report(word: &str, asked: &[u8], out: &mut Vec<u8>) -> Option<()> {
    match word {
        "act" => report_json(str::from_utf8(asked).ok()?, out),
        "content" => report_content(str::from_utf8(asked).ok()?, out),
        "list" => report_list(asked, out),
        _ => None,
    }
}
