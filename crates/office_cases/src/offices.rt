//! One office in memory, to which acts are given row by row.
//!
//! An act is given in short, its day first, as `2024-01-02 hold-on H-2 record:1`, or as its JSON
//! after the word `act`. What is short is written out by its form and read as any other act; a
//! title is the ref, and a reason and the name of who acts are always the same.
ghost use Rattle.office_rules.specs.Acts.{CanBeMade};

use crate::answering::push_answer;
use crate::rows::word;
use office_json::read_act;
use office_machine::Machine;
use office_rules::{Act, Change, Decision};
use serde_json::Value;
use std::alloc::Global;

/// The form of an act, by its word: `$0` is the day, `$1` the act's word, and `$2` and so on what
/// follows.
fn form_of(name: &str) -> &'static str {
    match name {
        "add-schedule" => {
            r#"{"act":"$1","day":"$0","code":"$2","trigger":"$3","unit":"$4","count":$5,"offset":"$6","action":"$7"}"#
        }
        "add-class" => { r#"{"act":"$1","day":"$0","code":"$2","title":"$2","schedule":"$3"}"# }
        "set-class-schedule" => { r#"{"act":"$1","day":"$0","class":"$2","schedule":"$3"}"# }
        "add-root" => {
            r#"{"act":"add-aggregation","day":"$0","ref":"$2","title":"$2","class":"$3"}"#
        }
        "add-child" => {
            r#"{"act":"add-aggregation","day":"$0","ref":"$2","title":"$2","parent":$3}"#
        }
        "close-aggregation" => { r#"{"act":"$1","day":"$0","aggregation":$2}"# }
        "add-record" => {
            r#"{"act":"$1","day":"$0","ref":"$2","title":"$2","originated":"2024-01-02","aggregation":$3,"content":"$4"}"#
        }
        "add-empty-record" => {
            r#"{"act":"add-record","day":"$0","ref":"$2","title":"$2","originated":"2024-01-02","aggregation":$3,"content":""}"#
        }
        "set-record-schedule" => { r#"{"act":"$1","day":"$0","record":$2,"schedule":"$3"}"# }
        "place-hold" => {
            r#"{"act":"$1","day":"$0","code":"$2","reason":"court","by":"registrar"}"#
        }
        "hold-on" => { r#"{"act":"$1","day":"$0","hold":"$2","target":"$3"}"# }
        "hold-off" => { r#"{"act":"$1","day":"$0","hold":"$2","target":"$3"}"# }
        "lift-hold" => { r#"{"act":"$1","day":"$0","hold":"$2"}"# }
        "confirm" => { r#"{"act":"$1","day":"$0","record":$2,"action":"$3","by":"registrar"}"# }
        "event" => { r#"{"act":"$1","day":"$0","record":$2,"occurred":"$3","by":"registrar"}"# }
        "open-run" => { r#"{"act":"$1","day":"$0","by":"registrar"}"# }
        "run-step" => { r#"{"act":"$1"}"# }
        "reclassify" => { r#"{"act":"$1","day":"$0","target":"$2","class":"$3"}"# }
        _ => "",
    }
}

/// The word for a place of a form; what is no place stays as it is.
fn word_at<'a>(place: &'a str, day: &'a str, ask: &'a str) -> &'a str {
    match place {
        "0" => day,
        "1" => word(ask, 0),
        "2" => word(ask, 1),
        "3" => word(ask, 2),
        "4" => word(ask, 3),
        "5" => word(ask, 4),
        "6" => word(ask, 5),
        "7" => word(ask, 6),
        _ => place,
    }
}

/// Writes out an act that is reported in short.
fn write_out(form: &str, day: &str, ask: &str, text: &mut String) -> Option<()> {
    for piece in form.split("$") {
        let (place, rest) = piece.split_at_checked(1)?;
        text.push_str(word_at(place, day, ask)).ok()?;
        text.push_str(rest).ok()?;
    }
    Some(())
}

/// The act that a text of JSON asks for.
fn read(alloc: Global, text: &str) -> Option<Act> {
    let value = Value::from_str(alloc, text).ok()?;
    read_act(alloc, &value).ok()
}

/// The act that a row reports by its first word and what follows.
pub(crate) fn act_of(alloc: Global, first: &str, rest: &str) -> Option<Act> {
    if first == "act" {
        return read(alloc, rest);
    }
    let mut text = String::new(alloc);
    write_out(form_of(word(rest, 0)), first, rest, &mut text)?;
    read(alloc, text.as_str())
}

/// Makes a change, and reports its answer.
fn make(office: &mut Machine, change: Change, out: &mut Vec<u8>) -> Option<()>
    requires { CanBeMade office.old change }
{
    let answer = change.answer;
    match office.apply(change) {
        Ok(()) => push_answer(out, answer),
        Err(_) => None,
    }
}

/// Reports what the office answers to an act, which is done where it is accepted.
pub(crate) fn perform(office: &mut Machine, act: &Act, out: &mut Vec<u8>) -> Option<()> {
    match office.decide(act) {
        Ok(Decision::Stay(answer)) => push_answer(out, answer),
        Ok(Decision::Go(change)) => make(office, change, out),
        Err(_) => None,
    }
}
