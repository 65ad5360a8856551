//! What holds cover, and why acts on them are refused.
use crate::answering::push_refused;
use crate::offices::{act_of, perform};
use crate::written::push;
use office_days::Day;
use office_holds::Holds;
use office_machine::Machine;
use office_records::{Classified, Code, Target, Text};
use office_rules::Act;
use office_tree::Tree;
use std::alloc::Global;
use std::io::Write;

/// Two classes with an aggregation of each, records 1 and 3 in the first and record 2 in the
/// second, and record 4 in an aggregation in the first.
pub(crate) const TREE: &str = "
    2024-01-02 add-schedule D1 added years 1 none destroy = Done
    2024-01-02 add-class FIN D1 = Done
    2024-01-02 add-class LEG D1 = Done
    2024-01-02 add-root A FIN = Number(1)
    2024-01-02 add-root B LEG = Number(2)
    2024-01-02 add-child C 1 = Number(3)
    2024-01-02 add-empty-record r1 1 = Number(1)
    2024-01-02 add-empty-record r2 2 = Number(2)
    2024-01-02 add-empty-record r3 1 = Number(3)
    2024-01-02 add-empty-record r4 3 = Number(4)
";

/// A record is held until each hold on it is lifted, and the least of them is reported.
pub(crate) const LIFTED: &str = "
    2024-01-02 place-hold H-2 = Done
    2024-01-02 hold-on H-2 record:1 = Done
    2024-01-02 place-hold H-10 = Done
    2024-01-02 hold-on H-10 record:1 = Done
    2024-01-02 place-hold Z = Done
    2024-01-02 hold-on Z record:1 = Done
    2024-01-02 place-hold a = Done
    2024-01-02 hold-on a record:1 = Done
    covering-record-1 = H-10
    held = 1;
    2024-01-03 lift-hold H-10 = Done
    covering-record-1 = H-2
    held = 1;
    2024-01-03 lift-hold H-2 = Done
    covering-record-1 = Z
    held = 1;
    2024-01-03 lift-hold Z = Done
    covering-record-1 = a
    held = 1;
    2024-01-03 lift-hold a = Done
    covering-record-1 = none
    held = nothing
";

/// A hold covers what is of a class or in an aggregation.
pub(crate) const COVERED: &str = "
    2024-01-02 place-hold H-1 = Done
    2024-01-02 hold-on H-1 class:FIN = Done
    held = 1;3;4;
    2024-01-02 hold-off H-1 class:FIN = Done
    held = nothing
    2024-01-02 place-hold H-2 = Done
    2024-01-02 hold-on H-2 aggregation:3 = Done
    held = 4;
    2024-01-02 place-hold H-3 = Done
    2024-01-02 hold-on H-3 aggregation:1 = Done
    held = 1;3;4;
";

/// A lifted hold stays and takes no target.
pub(crate) const STAYING: &str = "
    2024-01-02 hold-on H-1 record:1 = refused 5
    2024-01-03 lift-hold H-1 = refused 5
    2024-01-02 place-hold H-1 = Done
    2024-01-02 hold-on H-1 record:1 = Done
    2024-01-02 hold-on H-1 record:1 = refused 4
    2024-01-02 hold-off H-1 record:2 = refused 5
    2024-01-02 hold-on H-1 record:2 = Done
    2024-01-02 hold-off H-1 record:2 = Done
    2024-01-03 lift-hold H-1 = Done
    2024-01-02 place-hold H-1 = refused 4
    2024-01-02 hold-on H-1 record:1 = refused 4
    2024-01-02 hold-on H-1 record:2 = refused 12
    2024-01-02 hold-off H-1 record:1 = refused 12
    2024-01-03 lift-hold H-1 = refused 12
";

/// A held class is not left.
pub(crate) const LEAVING: &str = r#"
    2024-01-02 place-hold H-1 = Done
    2024-01-02 hold-on H-1 class:FIN = Done
    2024-01-02 reclassify record:1 LEG = refused 11
    2024-01-02 reclassify aggregation:1 LEG = refused 11
    2024-01-02 reclassify record:1 FIN = not refused
    act {"act":"reclassify","day":"2024-01-02","target":"record:1","class":null} = not refused
    2024-01-02 reclassify record:2 FIN = not refused
    2024-01-03 lift-hold H-1 = Done
    2024-01-02 reclassify record:1 LEG = not refused
"#;

fn place(
    holds: &mut Holds,
    day: Day,
    code: Code,
    reason: Text,
    by: Text,
    out: &mut Vec<u8>,
) -> Option<()> {
    if let Some(refusal) = holds.check_place(&code) {
        return push_refused(out, refusal);
    }
    match holds.place(code, day, reason, by) {
        Ok(()) => push(out, "Done"),
        Err(_) => None,
    }
}

fn place_copied(
    holds: &mut Holds,
    day: Day,
    code: &Code,
    reason: &Text,
    by: &Text,
    out: &mut Vec<u8>,
) -> Option<()> {
    let alloc = *out.allocator();
    let code = code.copy(alloc).ok()?;
    let reason = reason.copy(alloc).ok()?;
    let by = by.copy(alloc).ok()?;
    place(holds, day, code, reason, by, out)
}

fn cover(holds: &mut Holds, code: &Code, target: &Target, out: &mut Vec<u8>) -> Option<()> {
    if let Some(refusal) = holds.check_cover(code, target) {
        return push_refused(out, refusal);
    }
    let target = target.copy(*out.allocator()).ok()?;
    match holds.cover(code, target) {
        Ok(()) => push(out, "Done"),
        Err(_) => None,
    }
}

fn uncover(holds: &mut Holds, code: &Code, target: &Target, out: &mut Vec<u8>) -> Option<()> {
    if let Some(refusal) = holds.check_uncover(code, target) {
        return push_refused(out, refusal);
    }
    holds.uncover(code, target);
    push(out, "Done")
}

fn lift(holds: &mut Holds, day: Day, code: &Code, out: &mut Vec<u8>) -> Option<()> {
    if let Some(refusal) = holds.check_lift(code) {
        return push_refused(out, refusal);
    }
    holds.lift(code, day);
    push(out, "Done")
}

/// Whether the holds refuse another class.
fn reclassify(
    tree: &Tree,
    holds: &Holds,
    target: Classified,
    class: Option<&Code>,
    out: &mut Vec<u8>,
) -> Option<()> {
    match holds.check_reclassify(tree, target, class) {
        Some(refusal) => push_refused(out, refusal),
        None => push(out, "not refused"),
    }
}

/// What holds answer to an act on them, and the office that has their tree to any other.
fn report_act(office: &mut Machine, holds: &mut Holds, act: &Act, out: &mut Vec<u8>) -> Option<()> {
    match act {
        Act::PlaceHold {
            day,
            code,
            reason,
            by,
        } => place_copied(holds, *day, code, reason, by, out),
        Act::HoldOn { hold, target, .. } => cover(holds, hold, target, out),
        Act::HoldOff { hold, target, .. } => uncover(holds, hold, target, out),
        Act::LiftHold { day, hold } => lift(holds, *day, hold, out),
        Act::Reclassify { target, class, .. } => {
            reclassify(office.tree(), holds, *target, class.as_ref(), out)
        }
        _ => perform(office, act, out),
    }
}

/// The records that are held.
fn report_held(tree: &Tree, holds: &Holds, out: &mut Vec<u8>) -> Option<()> {
    for record_no in 1..5 {
        if tree.has_record(record_no) && holds.held(tree, record_no) {
            write!(out, "{record_no};").ok()?;
        }
    }
    Some(())
}

/// The least hold that covers record 1.
fn report_covering(tree: &Tree, holds: &Holds, out: &mut Vec<u8>) -> Option<()> {
    if !tree.has_record(1) {
        return None;
    }
    match holds.covering(tree, 1) {
        Some(code) => push(out, code.text()),
        None => push(out, "none"),
    }
}

/// What is reported to holds or asked of them, over the tree of an office.
pub(crate) fn report(
    office: &mut Machine,
    holds: &mut Holds,
    word: &str,
    asked: &[u8],
    out: &mut Vec<u8>,
) -> Option<()> {
    let text = str::from_utf8(asked).ok()?;
    match word {
        "held" => report_held(office.tree(), holds, out),
        "covering-record-1" => report_covering(office.tree(), holds, out),
        _ => report_act(office, holds, &act_of(*out.allocator(), word, text)?, out),
    }
}
