//! What a line of a plan file does to the tree.
ghost use Rattle.std.specs.Prelude.{◌≡◌, IfOk};
ghost use Rattle.std.specs.Fmt.{decimal};
ghost use Rattle.office_records.specs.Conditions.{conditions_of_add_aggregation, conditions_of_add_class, conditions_of_add_record, conditions_of_add_schedule, conditions_of_close_aggregation, conditions_of_event, first_of};
ghost use Rattle.office_records.specs.Effects.{added_aggregation, added_class, added_record, added_schedule, closed_aggregation, with_event};
ghost use Rattle.office_plan.specs.PlanFile.{done_or_refused, line_done, line_taken, next_aggregation, next_record, planned_head, read_and_done};
ghost use Rattle.office_plan.specs.PlanLines.{line_asked};

use crate::plan_line::{PlanLine, read_line};
use crate::text::text_of;
use office_base::{Memory, Refusal};
use office_days::Day;
use office_records::{AggNo, Class, Code, Record, RecordNo, Schedule, Text};
use office_tree::Tree;
use std::alloc::Global;

/// The digits of a number, as a text.
fn digits_of(alloc: Global, number: u32) -> Result<Text, Memory>
    ensures { IfOk result (λ digits. digits ≡ decimal number) }
{
    let digits = format!(in alloc; "{number}")?;
    match Text::read(alloc, digits.as_str())? {
        Some(text) => Ok(text),
        None => unreachable!(),
    }
}

/// The reference and the title of what has that number: its digits.
fn names_of(alloc: Global, number: u32) -> Result<(Text, Text), Memory>
    ensures reference { IfOk result (λ names. names.0 ≡ decimal number) }
    ensures title { IfOk result (λ names. names.1 ≡ decimal number) }
{
    let ref_text = digits_of(alloc, number)?;
    Ok((ref_text, digits_of(alloc, number)?))
}

/// A code, as a title.
fn title_of(alloc: Global, code: &Code) -> Result<Text, Memory>
    ensures { IfOk result (λ title. title ≡ code.now) }
{
    match Text::read(alloc, code.text())? {
        Some(text) => Ok(text),
        None => unreachable!(),
    }
}

fn add_schedule(tree: &mut Tree, code: Code, schedule: Schedule) -> Result<Option<Refusal>, Memory>
    ensures { IfOk result
        (λ refusal. done_or_refused (first_of (conditions_of_add_schedule tree.old code))
        (added_schedule tree.old code schedule) ≡ done_or_refused refusal tree.new) }
{
    match tree.check_add_schedule(&code) {
        Some(refusal) => Ok(Some(refusal)),
        None => tree.apply_add_schedule(code, schedule).and(Ok(None)),
    }
}

fn add_class(
    alloc: Global,
    tree: &mut Tree,
    code: Code,
    schedule: Code,
) -> Result<Option<Refusal>, Memory>
    ensures { IfOk result
        (λ refusal. done_or_refused (first_of (conditions_of_add_class tree.old code schedule))
        (added_class tree.old code (record { title = code; schedule = schedule }))
        ≡ done_or_refused refusal tree.new) }
{
    if let Some(refusal) = tree.check_add_class(&code, &schedule) {
        return Ok(Some(refusal));
    }
    let title = title_of(alloc, &code)?;
    tree.apply_add_class(code, Class { title, schedule })
        .and(Ok(None))
}

fn add_aggregation(
    alloc: Global,
    tree: &mut Tree,
    class: Option<Code>,
    parent: Option<AggNo>,
) -> Result<Option<Refusal>, Memory>
    ensures { IfOk result
        (λ refusal. done_or_refused
        (first_of (conditions_of_add_aggregation tree.old (next_aggregation tree.old) parent
        class))
        (added_aggregation tree.old (next_aggregation tree.old) (next_aggregation tree.old)
        parent class) ≡ done_or_refused refusal tree.new) }
{
    let (ref_text, title) = names_of(alloc, tree.aggregation_count() + 1)?;
    match tree.check_add_aggregation(&ref_text, parent, class.as_ref()) {
        Some(refusal) => Ok(Some(refusal)),
        None => tree
            .apply_add_aggregation(ref_text, title, parent, class)
            .and(Ok(None)),
    }
}

fn close_aggregation(
    tree: &mut Tree,
    aggregation: AggNo,
    day: Day,
) -> Result<Option<Refusal>, Memory>
    ensures { IfOk result
        (λ refusal. done_or_refused
        (first_of (conditions_of_close_aggregation tree.old aggregation))
        (closed_aggregation tree.old aggregation day) ≡ done_or_refused refusal tree.new) }
{
    match tree.check_close_aggregation(aggregation) {
        Some(refusal) => Ok(Some(refusal)),
        None => tree.apply_close_aggregation(aggregation, day).and(Ok(None)),
    }
}

/// Where a record of a plan file belongs, and its days.
#[derive(Drop)]
struct Planned {
    aggregation: AggNo,
    class: Option<Code>,
    schedule: Option<Code>,
    originated: Day,
    added: Day,
}

/// The head of a record of a plan file, with no content.
fn head_of(names: (Text, Text), planned: Planned) -> Record
    ensures { result
        ≡ record (planned_head names.0 planned.aggregation planned.class planned.schedule
        planned.originated planned.added) { title = names.1 } }
{
    let (ref_text, title) = names;
    let Planned {
        aggregation,
        class,
        schedule,
        originated,
        added,
    } = planned;
    Record {
        ref_text,
        title,
        originated,
        added,
        aggregation,
        class,
        schedule,
        length: 0,
        digest: [0; 32],
        review: None,
        confirmation: None,
        receipt: None,
    }
}

/// Why the tree refuses a record.
fn refusal_of(tree: &Tree, head: &Record) -> Option<Refusal>
    ensures { result
        ≡ first_of (conditions_of_add_record tree.now head.now.ref_text head.now.aggregation
        head.now.class head.now.schedule) }
{
    tree.check_add_record(
        &head.ref_text,
        head.aggregation,
        head.class.as_ref(),
        head.schedule.as_ref(),
    )
}

fn add_record(alloc: Global, tree: &mut Tree, planned: Planned) -> Result<Option<Refusal>, Memory>
    ensures { IfOk result
        (λ refusal. done_or_refused
        (first_of (conditions_of_add_record tree.old (next_record tree.old)
        planned.aggregation planned.class planned.schedule))
        (added_record tree.old
        (planned_head (next_record tree.old) planned.aggregation planned.class
        planned.schedule planned.originated planned.added))
        ≡ done_or_refused refusal tree.new) }
{
    let head = head_of(names_of(alloc, tree.record_count() + 1)?, planned);
    match refusal_of(tree, &head) {
        Some(refusal) => Ok(Some(refusal)),
        None => tree.apply_add_record(head).and(Ok(None)),
    }
}

/// Records an event of a record on the day on which it occurred, by the digits of the record's
/// number.
fn record_event(
    alloc: Global,
    tree: &mut Tree,
    record_no: RecordNo,
    day: Day,
) -> Result<Option<Refusal>, Memory>
    ensures { IfOk result
        (λ refusal. done_or_refused (first_of (conditions_of_event tree.old day record_no day))
        (with_event tree.old day record_no day (decimal record_no))
        ≡ done_or_refused refusal tree.new) }
{
    if let Some(refusal) = tree.check_event(day, record_no, day) {
        return Ok(Some(refusal));
    }
    let by = digits_of(alloc, record_no)?;
    tree.apply_event(day, record_no, day, by).and(Ok(None))
}

/// Does what a line asks for, or gives why the tree refuses it.
#[tactic(auto, unfolding(crate::specs::PlanFile::line_done))]
fn do_line(alloc: Global, tree: &mut Tree, line: PlanLine) -> Result<Option<Refusal>, Memory>
    ensures { IfOk result (λ refusal. line_done tree.old line ≡ done_or_refused refusal tree.new) }
{
    match line {
        PlanLine::Schedule(code, schedule) => add_schedule(tree, code, schedule),
        PlanLine::Class(code, schedule) => add_class(alloc, tree, code, schedule),
        PlanLine::Aggregation(class, parent) => add_aggregation(alloc, tree, class, parent),
        PlanLine::Close(aggregation, day) => close_aggregation(tree, aggregation, day),
        PlanLine::Record(aggregation, class, schedule, originated, added) => {
            let planned = Planned {
                aggregation,
                class,
                schedule,
                originated,
                added,
            };
            add_record(alloc, tree, planned)
        }
        PlanLine::Event(record_no, day) => record_event(alloc, tree, record_no, day),
    }
}

/// Does what a line that is text asks for, or gives why it is refused.
fn do_text(alloc: Global, tree: &mut Tree, line: &str) -> Result<Option<Refusal>, Memory>
    ensures { IfOk result
        (λ refusal. read_and_done tree.old (line_asked line.now)
        ≡ done_or_refused refusal tree.new) }
{
    match read_line(alloc, line)? {
        Ok(line) => do_line(alloc, tree, line),
        Err(refusal) => Ok(Some(refusal)),
    }
}

/// Takes a line of a plan file: does what it asks for, or gives why it is refused.
#[tactic(auto, unfolding(crate::specs::PlanFile::line_taken))]
pub fn take_line(alloc: Global, tree: &mut Tree, line: &[u8]) -> Result<Option<Refusal>, Memory>
    ensures { IfOk result
        (λ refusal. line_taken tree.old line.now ≡ done_or_refused refusal tree.new) }
{
    if line.is_empty() {
        return Ok(None);
    }
    match text_of(line) {
        Some(text) => do_text(alloc, tree, text),
        None => Ok(Some(Refusal::BadText)),
    }
}
