//! What a line of a plan file asks for.
ghost use Rattle.std.specs.Prelude.{◌≡◌, ◌<◌, ◌==◌, map, IfOk};
ghost use Rattle.office_plan.specs.PlanLines.{action_at, aggregation_line, class_line, close_line, code_at, day_at, days_at, disposal_at, event_line, is_line, keeping_at, line_asked, line_by_words, number_at, offset_at, optional_code_at, optional_number_at, period_at, place_at, record_line, schedule_at, schedule_line, trigger_at, word_at};

use crate::parts::{
    both, read_code, read_day, read_optional_code, read_optional_number, read_period,
};
use crate::plan_words::words_of;
use office_base::{Memory, Refusal, read_entity_number};
use office_days::{Day, Offset, Period};
use office_records::{Action, AggNo, Code, RecordNo, Schedule, Trigger};
use std::alloc::Global;

/// What a line of a plan file asks for.
#[derive(Drop)]
pub enum PlanLine {
    Schedule(Code, Schedule),
    Class(Code, Code),
    Aggregation(Option<Code>, Option<AggNo>),
    Close(AggNo, Day),
    Record(AggNo, Option<Code>, Option<Code>, Day, Day),
    Event(RecordNo, Day),
}

/// The word at a place, from 0; an empty one past the last.
fn word_at<'a>(words: &[&'a str], i: usize) -> &'a str
    ensures { result.now ≡ word_at (map (λ word. word.now) words.now) i }
{
    words.get(i).copied().unwrap_or("")
}

/// The code at a place.
#[tactic(auto, unfolding(crate::specs::PlanLines::code_at))]
fn code_at(alloc: Global, words: &[&str], i: usize) -> Result<Result<Code, Refusal>, Memory>
    ensures { IfOk result (λ part. part ≡ code_at (map (λ word. word.now) words.now) i) }
{
    read_code(alloc, word_at(words, i))
}

/// The code at a place, or none.
#[tactic(auto, unfolding(crate::specs::PlanLines::optional_code_at))]
fn optional_code_at(
    alloc: Global,
    words: &[&str],
    i: usize,
) -> Result<Result<Option<Code>, Refusal>, Memory>
    ensures { IfOk result (λ part. part ≡ optional_code_at (map (λ word. word.now) words.now) i) }
{
    read_optional_code(alloc, word_at(words, i))
}

/// The number of an aggregation or a record at a place.
#[tactic(auto, unfolding(crate::specs::PlanLines::number_at))]
fn number_at(words: &[&str], i: usize) -> Result<AggNo, Refusal>
    ensures { result ≡ number_at (map (λ word. word.now) words.now) i }
{
    read_entity_number(word_at(words, i))
}

/// The number of an aggregation at a place, or none.
#[tactic(auto, unfolding(crate::specs::PlanLines::optional_number_at))]
fn optional_number_at(words: &[&str], i: usize) -> Result<Option<AggNo>, Refusal>
    ensures { result ≡ optional_number_at (map (λ word. word.now) words.now) i }
{
    read_optional_number(word_at(words, i))
}

/// The day at a place.
#[tactic(auto, unfolding(crate::specs::PlanLines::day_at))]
fn day_at(words: &[&str], i: usize) -> Result<Day, Refusal>
    ensures { result ≡ day_at (map (λ word. word.now) words.now) i }
{
    read_day(word_at(words, i))
}

/// The trigger at a place.
#[tactic(auto, unfolding(crate::specs::PlanLines::trigger_at))]
fn trigger_at(words: &[&str], i: usize) -> Result<Trigger, Refusal>
    ensures { result ≡ trigger_at (map (λ word. word.now) words.now) i }
{
    Trigger::read(word_at(words, i)).ok_or(Refusal::BadText)
}

/// The period whose unit and count are at a place and at the next.
#[tactic(auto, unfolding(crate::specs::PlanLines::period_at))]
fn period_at(words: &[&str], i: usize) -> Result<Period, Refusal>
    requires { i < 8 }
    ensures { result ≡ period_at (map (λ word. word.now) words.now) i }
{
    read_period(word_at(words, i), word_at(words, i + 1))
}

/// The offset at a place.
#[tactic(auto, unfolding(crate::specs::PlanLines::offset_at))]
fn offset_at(words: &[&str], i: usize) -> Result<Offset, Refusal>
    ensures { result ≡ offset_at (map (λ word. word.now) words.now) i }
{
    Offset::read(word_at(words, i)).ok_or(Refusal::BadText)
}

/// The action at a place.
#[tactic(auto, unfolding(crate::specs::PlanLines::action_at))]
fn action_at(words: &[&str], i: usize) -> Result<Action, Refusal>
    ensures { result ≡ action_at (map (λ word. word.now) words.now) i }
{
    Action::read(word_at(words, i)).ok_or(Refusal::BadText)
}

/// The trigger and the period that begin at a place.
#[tactic(auto, unfolding(crate::specs::PlanLines::keeping_at))]
fn keeping_at(words: &[&str], i: usize) -> Result<(Trigger, Period), Refusal>
    requires { i < 4 }
    ensures { result ≡ keeping_at (map (λ word. word.now) words.now) i }
{
    both(trigger_at(words, i), period_at(words, i + 1))
}

/// The offset and the action that begin at a place.
#[tactic(auto, unfolding(crate::specs::PlanLines::disposal_at))]
fn disposal_at(words: &[&str], i: usize) -> Result<(Offset, Action), Refusal>
    requires { i < 8 }
    ensures { result ≡ disposal_at (map (λ word. word.now) words.now) i }
{
    both(offset_at(words, i), action_at(words, i + 1))
}

/// The schedule whose five words begin at a place.
#[tactic(auto, unfolding(crate::specs::PlanLines::schedule_at))]
fn schedule_at(words: &[&str], i: usize) -> Result<Schedule, Refusal>
    requires { i < 4 }
    ensures { result ≡ schedule_at (map (λ word. word.now) words.now) i }
{
    match both(keeping_at(words, i), disposal_at(words, i + 3)) {
        Ok((keeping, disposal)) => {
            let (trigger, period) = keeping;
            let (offset, action) = disposal;
            Ok(Schedule {
                trigger,
                period,
                offset,
                action,
            })
        }
        Err(refusal) => Err(refusal),
    }
}

#[tactic(auto, unfolding(crate::specs::PlanLines::schedule_line))]
fn schedule_line(alloc: Global, words: &[&str]) -> Result<Result<PlanLine, Refusal>, Memory>
    ensures { IfOk result (λ line. line ≡ schedule_line (map (λ word. word.now) words.now)) }
{
    let code = code_at(alloc, words, 1)?;
    match both(code, schedule_at(words, 2)) {
        Ok((code, schedule)) => Ok(Ok(PlanLine::Schedule(code, schedule))),
        Err(refusal) => Ok(Err(refusal)),
    }
}

#[tactic(auto, unfolding(crate::specs::PlanLines::class_line))]
fn class_line(alloc: Global, words: &[&str]) -> Result<Result<PlanLine, Refusal>, Memory>
    ensures { IfOk result (λ line. line ≡ class_line (map (λ word. word.now) words.now)) }
{
    let code = code_at(alloc, words, 1)?;
    let schedule = code_at(alloc, words, 2)?;
    match both(code, schedule) {
        Ok((code, schedule)) => Ok(Ok(PlanLine::Class(code, schedule))),
        Err(refusal) => Ok(Err(refusal)),
    }
}

#[tactic(auto, unfolding(crate::specs::PlanLines::aggregation_line))]
fn aggregation_line(alloc: Global, words: &[&str]) -> Result<Result<PlanLine, Refusal>, Memory>
    ensures { IfOk result (λ line. line ≡ aggregation_line (map (λ word. word.now) words.now)) }
{
    let class = optional_code_at(alloc, words, 1)?;
    match both(class, optional_number_at(words, 2)) {
        Ok((class, parent)) => Ok(Ok(PlanLine::Aggregation(class, parent))),
        Err(refusal) => Ok(Err(refusal)),
    }
}

#[tactic(auto, unfolding(crate::specs::PlanLines::close_line))]
fn close_line(words: &[&str]) -> Result<PlanLine, Refusal>
    ensures { result ≡ close_line (map (λ word. word.now) words.now) }
{
    match both(number_at(words, 1), day_at(words, 2)) {
        Ok((number, day)) => Ok(PlanLine::Close(number, day)),
        Err(refusal) => Err(refusal),
    }
}

/// Where a record belongs: its aggregation, and its own class and schedule, from a place on.
#[tactic(auto, unfolding(crate::specs::PlanLines::place_at))]
fn place_at(
    alloc: Global,
    words: &[&str],
    i: usize,
) -> Result<Result<(AggNo, (Option<Code>, Option<Code>)), Refusal>, Memory>
    requires { i < 8 }
    ensures { IfOk result (λ part. part ≡ place_at (map (λ word. word.now) words.now) i) }
{
    let class = optional_code_at(alloc, words, i + 1)?;
    let schedule = optional_code_at(alloc, words, i + 2)?;
    Ok(both(number_at(words, i), both(class, schedule)))
}

/// The days at a place and at the next.
#[tactic(auto, unfolding(crate::specs::PlanLines::days_at))]
fn days_at(words: &[&str], i: usize) -> Result<(Day, Day), Refusal>
    requires { i < 8 }
    ensures { result ≡ days_at (map (λ word. word.now) words.now) i }
{
    both(day_at(words, i), day_at(words, i + 1))
}

#[tactic(auto, unfolding(crate::specs::PlanLines::record_line))]
fn record_line(alloc: Global, words: &[&str]) -> Result<Result<PlanLine, Refusal>, Memory>
    ensures { IfOk result (λ line. line ≡ record_line (map (λ word. word.now) words.now)) }
{
    let place = place_at(alloc, words, 1)?;
    match both(place, days_at(words, 4)) {
        Ok((place, days)) => {
            let (number, (class, schedule)) = place;
            let (originated, added) = days;
            Ok(Ok(PlanLine::Record(number, class, schedule, originated, added)))
        }
        Err(refusal) => Ok(Err(refusal)),
    }
}

#[tactic(auto, unfolding(crate::specs::PlanLines::event_line))]
fn event_line(words: &[&str]) -> Result<PlanLine, Refusal>
    ensures { result ≡ event_line (map (λ word. word.now) words.now) }
{
    match both(number_at(words, 1), day_at(words, 2)) {
        Ok((number, day)) => Ok(PlanLine::Event(number, day)),
        Err(refusal) => Err(refusal),
    }
}

/// Whether a line begins with that word and has so many.
#[tactic(auto, unfolding(crate::specs::PlanLines::is_line))]
fn is_line(words: &[&str], kind: &str, count: usize) -> bool
    ensures { result ≡ is_line kind.now count (map (λ word. word.now) words.now) }
{
    word_at(words, 0) == kind && words.len() == count
}

/// What the words of a line ask for.
#[tactic(auto, unfolding(crate::specs::PlanLines::line_by_words))]
fn line_by_words(alloc: Global, words: &[&str]) -> Result<Result<PlanLine, Refusal>, Memory>
    ensures { IfOk result (λ line. line ≡ line_by_words (map (λ word. word.now) words.now)) }
{
    if is_line(words, "schedule", 7) {
        return schedule_line(alloc, words);
    }
    if is_line(words, "class", 3) {
        return class_line(alloc, words);
    }
    if is_line(words, "aggregation", 3) {
        return aggregation_line(alloc, words);
    }
    if is_line(words, "close", 3) {
        return Ok(close_line(words));
    }
    if is_line(words, "record", 6) {
        return record_line(alloc, words);
    }
    if is_line(words, "event", 3) {
        return Ok(event_line(words));
    }
    Ok(Err(Refusal::BadText))
}

/// What a line of a plan file asks for, or why it is refused: `BadText` where a word is not of its
/// form or the line is of none of the six forms, else `BadNumber` where a number is out of range.
#[tactic(auto, unfolding(crate::specs::PlanLines::line_asked))]
pub fn read_line(alloc: Global, line: &str) -> Result<Result<PlanLine, Refusal>, Memory>
    ensures { IfOk result (λ read. read ≡ line_asked line.now) }
{
    let words = words_of(alloc, line)?;
    line_by_words(alloc, words.as_slice())
}
