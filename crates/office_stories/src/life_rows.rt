//! What a row says of a life: what is asked in each stint, and how it is answered.
use crate::acts::{acts_of, lines_of};
use crate::failures::failure;
use crate::repeating::number;
use office_life::Task;
use std::alloc::Global;
use std::test::Fail;

/// What a row says of a life.
#[derive(Clone, Copy)]
pub(crate) struct Row<'a> {
    /// What is asked in each stint, and how it is answered if no disk stops.
    pub(crate) stints: &'a str,
    /// How often each disk stops it at least.
    pub(crate) least: u32,
    /// After how many stints in all the database does not promise what is left, by why.
    pub(crate) unknown: &'a str,
}

/// Reads a row.
pub(crate) fn row_of(row: &str) -> Result<Row<'_>, Fail> {
    if let Some((stints, counts)) = row.split_once(", at least ")
        && let Some((least, unknown)) = counts.split_once(", ")
    {
        let least = number(least)?;
        return Ok(Row {
            stints,
            least,
            unknown,
        });
    }
    Err(failure("no such row", row))
}

/// Parts what is asked in a stint from its answers.
fn parts(stint: &str) -> Result<(&str, &str), Fail> {
    match stint.split_once(" = ") {
        Some(parts) => Ok(parts),
        None => Err(failure("no answers", stint)),
    }
}

/// Lists what is asked in each stint.
pub(crate) fn words_of<'a>(alloc: Global, stints: &'a str) -> Result<Vec<&'a str>, Fail> {
    let mut words = Vec::new(alloc);
    for stint in stints.split(" ; ") {
        let (asked, _) = parts(stint)?;
        words.push(asked)?;
    }
    Ok(words)
}

/// Makes a task of what is asked in a stint.
fn task_of(alloc: Global, words: &str) -> Result<Task, Fail> {
    match words {
        "resume" => Ok(Task::Resumption),
        "nothing" => Ok(Task::Acts(Vec::new(alloc))),
        _ => Ok(Task::Acts(acts_of(alloc, words)?)),
    }
}

/// Makes a task of what is asked in each stint.
pub(crate) fn tasks_of(alloc: Global, words: &[&str]) -> Result<Vec<Task>, Fail> {
    let mut tasks = Vec::new(alloc);
    for asked in words {
        tasks.push(task_of(alloc, asked)?)?;
    }
    Ok(tasks)
}

/// Appends the answers of a stint, a line for each.
fn push_answers(alloc: Global, text: &mut String, stint: &str) -> Result<(), Fail> {
    let (asked, answers) = parts(stint)?;
    if asked == "nothing" {
        return Ok(());
    }
    text.push_str(lines_of(alloc, answers)?.as_str())?;
    Ok(text.push('\n')?)
}

/// Lists the answers of all stints, a line for each.
pub(crate) fn answers_of(alloc: Global, stints: &str) -> Result<String, Fail> {
    let mut text = String::new(alloc);
    for stint in stints.split(" ; ") {
        push_answers(alloc, &mut text, stint)?;
    }
    Ok(text)
}
