//! What is asked of an office while a disk stops, at each of its calls in turn.
use crate::acts::{is_act, lines_of};
use crate::disks::{Image, Stop};
use crate::errands::{Errand, done};
use crate::failures::{failure, must};
use crate::repeating::{copies, number};
use std::alloc::Global;
use std::test::Fail;

/// What is asked at once, and to what it leads where no disk stops.
#[derive(Drop)]
struct Trial<'a> {
    /// Acts between ` & `, something that is read, or `resume`.
    words: &'a str,
    /// How it is answered, a line for each.
    answers: String,
    /// The same, asked one after another; of a run its steps.
    steps: Vec<String>,
    /// What the tables hold before the steps, and after each of them.
    states: Vec<String>,
    /// Whether each resumption of the run is stopped once more.
    is_stopped_again: bool,
}

/// What the tables hold, once the office is opened.
fn state_of(alloc: Global, image: &mut Image) -> Result<String, Fail> {
    done(alloc, image, Stop::never(), Errand::Tables)
}

/// What the tables hold before the steps, and after each of them.
fn states_of(alloc: Global, image: &Image, steps: &[String]) -> Result<Vec<String>, Fail> {
    let mut left = image.copy(alloc)?;
    let mut states = Vec::new(alloc);
    states.push(state_of(alloc, &mut left)?)?;
    for step in steps {
        done(
            alloc,
            &mut left,
            Stop::never(),
            Errand::Asks(&[step.as_str()]),
        )?;
        states.push(state_of(alloc, &mut left)?)?;
    }
    Ok(states)
}

/// What is asked at once, and then what a poisoned desk answers with fault 32: readings, and an act
/// that is refused at every other desk.
fn asks_of(words: &str) -> [&str; 9] {
    [
        words,
        "record 1",
        "ended 1",
        "content 1",
        "certificate 1",
        "due-list 2025-01-02",
        "overdue-list 2025-02-02 30",
        "entries",
        "2000-01-01 lift-hold NONE",
    ]
}

/// The answers before a fault.
fn answers_before(reported: &str) -> &str {
    let Some((before, _)) = reported.split_once("fault") else {
        return reported;
    };
    match before.rsplit_once('\n') {
        Some((answers, _)) => answers,
        None => "",
    }
}

/// The answers before a fault must be those that are given where no disk stops.
fn report_answers(trial: &Trial<'_>, reported: &str) -> Result<(), Fail> {
    let answers = answers_before(reported);
    for (answer, wanted) in answers.lines().zip(trial.answers.as_str().lines()) {
        must(answer == wanted, trial.words, reported)?;
    }
    Ok(())
}

/// The first fault must be 31, and all that is asked afterwards must be answered with fault 32.
fn report_poisoned(reported: &str) -> Result<(), Fail> {
    let Some((_, after)) = reported.split_once("fault") else {
        return Ok(());
    };
    let Some((fault, later)) = after.split_once('\n') else {
        return must(after.contains("31"), "no stop of the store", reported);
    };
    must(fault.contains("31"), "no stop of the store", reported)?;
    for line in later.lines() {
        let is_poisoned = line.contains("fault") && line.contains("32");
        must(is_poisoned, "a desk that was given up tells", reported)?;
    }
    Ok(())
}

/// The first and the last place among the states at which the tables may be: that after all
/// answered acts or the next one, that before the acts where the office was not opened, and of a
/// run any.
fn places_after(trial: &Trial<'_>, reported: &str) -> (usize, usize) {
    let all = trial.states.len().saturating_sub(1);
    let answered = answers_before(reported).lines().count();
    if !reported.contains('\n') {
        return (0, 0);
    }
    if answered >= trial.answers.as_str().lines().count() {
        return (all, all);
    }
    if trial.words == "resume" {
        return (0, all);
    }
    (answered, answered.saturating_add(1))
}

/// The place among the states at which the tables are, where the office is opened again.
fn place_of(
    alloc: Global,
    image: &mut Image,
    trial: &Trial<'_>,
    places: (usize, usize),
) -> Result<usize, Fail> {
    let state = state_of(alloc, image)?;
    for (place, it) in trial.states.iter().enumerate() {
        if places.0 <= place && place <= places.1 && it.as_str() == state.as_str() {
            return Ok(place);
        }
    }
    Err(Fail::new(format_args!("{}: another state", trial.words)))
}

/// The run is resumed once more while the disk stops, from that place among its states on. Gives
/// the place to which it comes.
fn stop_again(
    alloc: Global,
    image: &mut Image,
    trial: &Trial<'_>,
    stop: Stop,
    place: usize,
) -> Result<usize, Fail> {
    if !trial.is_stopped_again {
        return Ok(place);
    }
    let reported = done(alloc, image, stop, Errand::Asks(&["resume"]))?;
    report_poisoned(reported.as_str())?;
    place_of(alloc, image, trial, (place, trial.states.len()))
}

/// The acts from that place on must be answered as they are where no disk stops; a run is resumed
/// to its end.
fn do_rest(alloc: Global, image: &mut Image, trial: &Trial<'_>, place: usize) -> Result<(), Fail> {
    if trial.words == "resume" {
        done(alloc, image, Stop::never(), Errand::Asks(&["resume"]))?;
        return Ok(());
    }
    let mut asks = Vec::new(alloc);
    for step in trial.steps.iter().skip(place) {
        asks.push(step.as_str())?;
    }
    let reported = done(alloc, image, Stop::never(), Errand::Asks(asks.as_slice()))?;
    let wanted = trial.answers.as_str().lines().skip(place);
    for (line, wanted) in reported.as_str().lines().zip(wanted) {
        must(line == wanted, trial.words, reported.as_str())?;
    }
    must(
        reported.as_str().lines().count() == asks.len(),
        trial.words,
        reported.as_str(),
    )
}

/// The tables must be at the last of the states.
fn report_end(alloc: Global, image: &mut Image, trial: &Trial<'_>) -> Result<(), Fail> {
    let all = trial.states.len().saturating_sub(1);
    place_of(alloc, image, trial, (all, all))?;
    Ok(())
}

/// All is asked while a disk stops so, and the office is then brought to its end: whether nothing
/// stopped.
fn is_done_before(
    alloc: Global,
    image: &Image,
    trial: &Trial<'_>,
    stop: Stop,
) -> Result<bool, Fail> {
    let mut left = image.copy(alloc)?;
    let reported = done(alloc, &mut left, stop, Errand::Asks(&asks_of(trial.words)))?;
    let reported = reported.as_str();
    report_poisoned(reported)?;
    report_answers(trial, reported)?;
    let place = place_of(alloc, &mut left, trial, places_after(trial, reported))?;
    let place = stop_again(alloc, &mut left, trial, stop, place)?;
    do_rest(alloc, &mut left, trial, place)?;
    report_end(alloc, &mut left, trial)?;
    Ok(!reported.contains("fault"))
}

/// How often the disk stops all that is asked, after each number of its calls in turn, until
/// nothing stops.
fn count_of_stops(
    alloc: Global,
    image: &Image,
    trial: &Trial<'_>,
    disk: &str,
) -> Result<u64, Fail> {
    for calls in 0..10_000 {
        if is_done_before(alloc, image, trial, Stop::of(disk, calls)?)? {
            return Ok(calls);
        }
    }
    Err(failure("never done", trial.words))
}

/// Each disk must stop it at least so often.
fn report_counts(alloc: Global, image: &Image, trial: &Trial<'_>, least: &str) -> Result<(), Fail> {
    let least = number(least)? as u64;
    for disk in ["log", "db"] {
        let count = count_of_stops(alloc, image, trial, disk)?;
        let reported = format!(in alloc; "{count} stops of {disk}")?;
        must(count >= least, trial.words, reported.as_str())?;
    }
    Ok(())
}

/// The parts of a row: what is asked, how it is answered, and how often a disk stops it at least.
fn parts(row: &str) -> Result<(&str, &str, &str), Fail> {
    if let Some((rest, least)) = row.split_once(", at least ")
        && let Some((words, answers)) = rest.split_once(" = ")
    {
        return Ok((words, answers, least));
    }
    Err(failure("no such row", row))
}

/// What is asked one after another.
fn steps_of(alloc: Global, words: &str) -> Result<Vec<String>, Fail> {
    let mut steps = Vec::new(alloc);
    for step in words.split(" & ") {
        steps.push(String::from_str(alloc, step)?)?;
    }
    Ok(steps)
}

/// Acts, or something that is read, are asked while each disk stops in turn, and then without a
/// stop.
pub(crate) fn report_asked(alloc: Global, image: &mut Image, row: &str) -> Result<(), Fail> {
    let (words, answers, least) = parts(row)?;
    let steps = steps_of(alloc, words)?;
    let states = states_of(alloc, image, steps.as_slice())?;
    let answers = if is_act(words) {
        lines_of(alloc, answers)?
    } else {
        String::from_str(alloc, answers)?
    };
    let trial = Trial {
        words,
        answers,
        steps,
        states,
        is_stopped_again: false,
    };
    report_counts(alloc, image, &trial, least)?;
    done(alloc, image, Stop::never(), Errand::Asks(&[words]))?;
    Ok(())
}

/// The open run is resumed while each disk stops in turn, as a row says: `by 11 steps = closed 1,
/// at least 25`, or `by 11 steps again = ..` where each resumption is stopped again.
pub(crate) fn report_resumed(alloc: Global, image: &Image, row: &str) -> Result<(), Fail> {
    let (words, answers, least) = parts(row)?;
    let Some((count, rest)) = words.split_once(" steps") else {
        return Err(failure("no number of steps", row));
    };
    let list = count.replace(alloc, "by", "1 to")?;
    let steps = copies(alloc, "2000-01-01 run-step", list.as_str())?;
    let states = states_of(alloc, image, steps.as_slice())?;
    let trial = Trial {
        words: "resume",
        answers: lines_of(alloc, answers)?,
        steps,
        states,
        is_stopped_again: rest == " again",
    };
    report_counts(alloc, image, &trial, least)
}
