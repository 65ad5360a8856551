//! The public calls of the crates below the tables, each with the arguments that other programs
//! give it: a change of one is seen here.
use office_base::Refusal;
use office_days::{ConfirmDays, Day, Deadline, DueDay, Offset, Period, Unit, deadline, due_day};
use office_holds::Holds;
use office_proof::{Entry, Outcome, certificate_text, digest_of, entry_line};
use office_records::{
    Action, AggNo, Class, Classified, Code, Record, RecordNo, Schedule, Target, Text, Trigger,
};
use office_tree::Tree;
use std::alloc::Global;

pub(crate) fn code(alloc: Global, name: &str) -> Option<Code> {
    Code::read(alloc, name).ok()?
}

pub(crate) fn text(alloc: Global, words: &str) -> Option<Text> {
    Text::read(alloc, words).ok()?
}

/// `office_days`: the calendar, due days and deadlines.
pub(crate) fn days() -> Option<Day> {
    let day: Day = Day::of_number(i64::from(Day::read("2024-01-02")?.number()))?;
    let period: Period = Period::new(Unit::read("years")?, 1)?;
    let due: DueDay = due_day(day, period, Offset::read("none")?);
    let last: Deadline = deadline(due, ConfirmDays::new(30)?);
    let numbers: [i32; 2] = [due.number(), last.number()];
    let texts: [[u8; 10]; 3] = [day.text(), due.text(), last.text()];
    let again = DueDay::of_number(i64::from(numbers[0]))?;
    if again.reached(day) || last.passed(day) || texts[0] == texts[2] || period.count() != 1 {
        return None;
    }
    Some(day)
}

pub(crate) fn schedule() -> Option<Schedule> {
    Some(Schedule {
        trigger: Trigger::read("added")?,
        period: Period::new(Unit::Years, 1)?,
        offset: Offset::read("none")?,
        action: Action::read("destroy")?,
    })
}

/// The head of a record that is asked to be added to the first aggregation.
fn head(alloc: Global, day: Day) -> Option<Record> {
    Some(Record {
        ref_text: text(alloc, "r1")?,
        title: text(alloc, "r1")?,
        originated: day,
        added: day,
        aggregation: 1,
        class: None,
        schedule: None,
        length: 3,
        digest: digest_of("abc".as_bytes()),
        review: None,
        confirmation: None,
        receipt: None,
    })
}

fn add_schedule(alloc: Global, tree: &mut Tree) -> Option<()> {
    let (name, schedule) = (code(alloc, "D1")?, schedule()?);
    if tree.check_add_schedule(&name).is_none() {
        tree.apply_add_schedule(name, schedule).ok()?;
    }
    Some(())
}

fn add_class(alloc: Global, tree: &mut Tree) -> Option<()> {
    let name = code(alloc, "FIN")?;
    let class = Class {
        title: text(alloc, "Finance")?,
        schedule: code(alloc, "D1")?,
    };
    if tree.check_add_class(&name, &class.schedule).is_none() {
        tree.apply_add_class(name, class).ok()?;
    }
    Some(())
}

fn add_aggregation(alloc: Global, tree: &mut Tree) -> Option<()> {
    let (ref_text, title) = (text(alloc, "A")?, text(alloc, "A")?);
    let class = code(alloc, "FIN");
    if tree
        .check_add_aggregation(&ref_text, None, class.as_ref())
        .is_none()
    {
        tree.apply_add_aggregation(ref_text, title, None, class)
            .ok()?;
    }
    Some(())
}

fn add_record(alloc: Global, tree: &mut Tree, day: Day) -> Option<()> {
    let head = head(alloc, day)?;
    if tree
        .check_add_record(
            &head.ref_text,
            head.aggregation,
            head.class.as_ref(),
            head.schedule.as_ref(),
        )
        .is_none()
    {
        tree.apply_add_record(head).ok()?;
    }
    Some(())
}

fn set_class_schedule(alloc: Global, tree: &mut Tree) -> Option<()> {
    let (class, plan) = (code(alloc, "FIN")?, code(alloc, "D1")?);
    if tree.check_set_class_schedule(&class, &plan).is_none() {
        tree.apply_set_class_schedule(&class, plan).ok()?;
    }
    Some(())
}

fn set_record_schedule(alloc: Global, tree: &mut Tree) -> Option<()> {
    let plan = code(alloc, "D1");
    if tree.check_set_record_schedule(1, plan.as_ref()).is_none() {
        tree.apply_set_record_schedule(1, plan).ok()?;
    }
    Some(())
}

fn reclassify(alloc: Global, tree: &mut Tree) -> Option<()> {
    let (what, class) = (Classified::Record(1), code(alloc, "FIN"));
    if tree.check_reclassify(what, class.as_ref()).is_none() {
        tree.apply_reclassify(what, class).ok()?;
    }
    Some(())
}

fn confirm(alloc: Global, tree: &mut Tree, day: Day) -> Option<()> {
    let by = text(alloc, "registrar")?;
    if tree.check_confirm(day, 1, Action::Destroy).is_none() {
        tree.apply_confirm(day, 1, Action::Destroy, by).ok()?;
    }
    Some(())
}

fn review(alloc: Global, tree: &mut Tree, day: Day) -> Option<()> {
    let (plan, by) = (code(alloc, "D1"), text(alloc, "registrar")?);
    if tree.check_review(day, 1, plan.as_ref()).is_none() {
        tree.apply_review(day, 1, plan, by).ok()?;
    }
    Some(())
}

fn receipt(alloc: Global, tree: &mut Tree, day: Day) -> Option<()> {
    let (digest, by): ([u8; 32], Text) = (digest_of("abc".as_bytes()), text(alloc, "registrar")?);
    if tree.check_receipt(1, digest).is_none() {
        tree.apply_receipt(day, 1, digest, by).ok()?;
    }
    Some(())
}

fn event(alloc: Global, tree: &mut Tree, day: Day) -> Option<()> {
    let by = text(alloc, "registrar")?;
    if tree.check_event(day, 1, day).is_none() {
        tree.apply_event(day, 1, day, by).ok()?;
    }
    Some(())
}

fn close_aggregation(tree: &mut Tree, day: Day) -> Option<()> {
    if tree.check_close_aggregation(1).is_none() {
        tree.apply_close_aggregation(1, day).ok()?;
    }
    Some(())
}

/// Whether the classes of a record and an aggregation, and their places, are as they were given.
fn are_placed(tree: &Tree, record_no: RecordNo, aggregation: AggNo) -> bool {
    if !tree.has_record(record_no) || !tree.has_aggregation(aggregation) {
        return false;
    }
    let codes: [&Code; 3] = [
        tree.class_of(record_no),
        tree.aggregation_class_of(aggregation),
        tree.plan_of(record_no),
    ];
    let depths: [usize; 2] = [
        tree.above(record_no).len(),
        tree.aggregations_above(aggregation).len(),
    ];
    codes[0] == codes[1] && codes[0] != codes[2] && depths == [1, 0]
}

/// The due day of the first record.
fn due_of_first(tree: &Tree) -> Option<DueDay> {
    if !tree.has_record(1) || !tree.has_aggregation(1) || tree.spent(1) {
        return None;
    }
    let start: Option<Day> = tree.start_of(1);
    start.and(tree.due_of(1))
}

fn place(alloc: Global, holds: &mut Holds, day: Day) -> Option<()> {
    let name = code(alloc, "H-1")?;
    let (reason, by) = (text(alloc, "court")?, text(alloc, "registrar")?);
    if holds.check_place(&name).is_none() {
        holds.place(name, day, reason, by).ok()?;
    }
    Some(())
}

fn cover(alloc: Global, holds: &mut Holds) -> Option<()> {
    let (name, target) = (code(alloc, "H-1")?, Target::Record(1));
    if holds.check_cover(&name, &target).is_none() {
        holds.cover(&name, target).ok()?;
    }
    Some(())
}

fn uncover(alloc: Global, holds: &mut Holds) -> Option<()> {
    let (name, target) = (code(alloc, "H-1")?, Target::Record(1));
    if holds.check_uncover(&name, &target).is_none() {
        holds.uncover(&name, &target);
    }
    Some(())
}

fn lift(alloc: Global, holds: &mut Holds, day: Day) -> Option<()> {
    let name = code(alloc, "H-1")?;
    if holds.check_lift(&name).is_none() {
        holds.lift(&name, day);
    }
    Some(())
}

/// Whether the first record is held, by a hold that is named, and may be reclassified all the same.
fn is_held(alloc: Global, holds: &Holds, tree: &Tree) -> bool {
    if !tree.has_record(1) {
        return false;
    }
    let class = code(alloc, "FIN");
    let refusal: Option<Refusal> = holds.check_reclassify(
        tree,
        Classified::Record(1),
        class.as_ref(),
    );
    let covering: Option<&Code> = holds.covering(tree, 1);
    holds.held(tree, 1) && covering.is_some() && refusal.is_none()
}

/// The entry of a record that a run destroyed.
fn destroyed(alloc: Global, due: DueDay) -> Option<Entry> {
    Some(Entry {
        run: 1,
        record_no: 1,
        outcome: Outcome::read("destroyed")?,
        class: code(alloc, "FIN")?,
        schedule: code(alloc, "D1")?,
        due,
        confirmed_by: text(alloc, "registrar")?,
        hold: None,
    })
}

/// `office_proof`: the line of an entry.
fn line(alloc: Global, entry: &Entry, day: Day) -> Option<String> {
    let head = head(alloc, day)?;
    entry_line(alloc, entry, &head).ok()
}

/// `office_proof`: a certificate with that entry.
fn body(alloc: Global, tree: &Tree, entry: &Entry, day: Day) -> Option<String> {
    let by = text(alloc, "registrar")?;
    certificate_text(alloc, tree, 1, day, &by, &[entry], &[]).ok()
}

/// `office_proof`: a certificate has the line of its entry.
fn certificate(alloc: Global, tree: &Tree, due: DueDay, day: Day) -> Option<()> {
    let entry = destroyed(alloc, due)?;
    let line: String = line(alloc, &entry, day)?;
    let body: String = body(alloc, tree, &entry, day)?;
    body.contains(line.as_str()).then_some(())
}

/// `office_tree`: the acts by which a tree grows, and those on what is in effect.
fn filed(alloc: Global, tree: &mut Tree, day: Day) -> Option<DueDay> {
    add_schedule(alloc, tree)?;
    add_class(alloc, tree)?;
    add_aggregation(alloc, tree)?;
    add_record(alloc, tree, day)?;
    set_class_schedule(alloc, tree)?;
    set_record_schedule(alloc, tree)?;
    reclassify(alloc, tree)?;
    are_placed(tree, 1, 1).then_some(())?;
    due_of_first(tree)
}

/// `office_holds`: its four acts, and what is asked of holds over a tree.
fn held(alloc: Global, tree: &Tree, day: Day) -> Option<()> {
    let mut holds = Holds::new(alloc);
    place(alloc, &mut holds, day)?;
    cover(alloc, &mut holds)?;
    is_held(alloc, &holds, tree).then_some(())?;
    uncover(alloc, &mut holds)?;
    lift(alloc, &mut holds, day)
}

/// `office_tree`: the acts on a record that is due, sent or waits for its event.
fn decided(alloc: Global, tree: &mut Tree, day: Day) -> Option<()> {
    confirm(alloc, tree, day)?;
    review(alloc, tree, day)?;
    receipt(alloc, tree, day)?;
    event(alloc, tree, day)?;
    close_aggregation(tree, day)
}

/// The calls on holds over a tree, and of certificates.
fn over(alloc: Global, tree: &Tree, due: DueDay, day: Day) -> Option<()> {
    held(alloc, tree, day)?;
    certificate(alloc, tree, due, day)
}

/// The calls on a tree, on holds over it, and of certificates.
pub(crate) fn parts(alloc: Global) -> Option<()> {
    let day = days()?;
    let mut tree = Tree::new(alloc);
    let due = filed(alloc, &mut tree, day)?;
    over(alloc, &tree, due, day)?;
    decided(alloc, &mut tree, day)
}
