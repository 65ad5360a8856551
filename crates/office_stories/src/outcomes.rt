//! What the stints of a life may have done, by what they report, and to what that leads if no disk
//! stops.
use crate::acts::answer_text;
use crate::disks::{Image, Stop};
use crate::errands::{Errand, done};
use office_life::StintEnd;
use office_rules::Answer;
use std::alloc::Global;
use std::test::Fail;

/// Acts and resumptions, one after another, and to what they lead if no disk stops.
#[derive(Drop)]
struct Outcome {
    /// What is asked, a line for each.
    asks: String,
    /// How it is answered, a line for each.
    answers: String,
    /// What the tables hold then.
    tables: String,
}

/// The outcomes that are known, from the same files on.
#[derive(Drop)]
pub(crate) struct Outcomes<'a> {
    image: &'a Image,
    known: Vec<Outcome>,
}

/// What a stint may have done, by what it reports.
#[derive(Drop)]
struct Account {
    /// It did what one of these asks, a line for each.
    choices: Vec<String>,
    /// The answers that it reports, a line for each.
    answers: String,
    /// Whether these are the answers to all that it did.
    is_whole: bool,
}

/// The steps of a run of four records, and that which closes it.
const STEPS: &str =
    "2000-01-01 run-step & 2000-01-01 run-step & 2000-01-01 run-step & 2000-01-01 run-step & 2000-01-01 run-step";

/// How many these are.
const MOST_STEPS: usize = 5;

/// Asks an office line by line. Gives the answers.
fn asked(alloc: Global, image: &mut Image, asks: &str) -> Result<String, Fail> {
    let mut lines = Vec::new(alloc);
    for line in asks.lines() {
        lines.push(line)?;
    }
    done(alloc, image, Stop::never(), Errand::Asks(lines.as_slice()))
}

/// Asks an office line by line. Gives the outcome.
fn outcome_of(alloc: Global, image: &mut Image, asks: &str) -> Result<Outcome, Fail> {
    let answers = asked(alloc, image, asks)?;
    let tables = done(alloc, image, Stop::never(), Errand::Tables)?;
    let asks = String::from_str(alloc, asks)?;
    Ok(Outcome {
        asks,
        answers,
        tables,
    })
}

impl<'a> Outcomes<'a> {
    /// Begins with no outcome, from these files on.
    pub(crate) fn new(alloc: Global, image: &'a Image) -> Outcomes<'a> {
        Outcomes {
            image,
            known: Vec::new(alloc),
        }
    }

    /// Finds the outcome of what is asked.
    fn find(&self, asks: &str) -> Option<&Outcome> {
        for outcome in self.known.iter() {
            if outcome.asks.as_str() == asks {
                return Some(outcome);
            }
        }
        None
    }

    /// Finds out the outcome of what is asked, if it is not known.
    fn learn(&mut self, alloc: Global, asks: &str) -> Result<(), Fail> {
        if self.find(asks).is_some() {
            return Ok(());
        }
        let mut copy = self.image.copy(alloc)?;
        let outcome = outcome_of(alloc, &mut copy, asks)?;
        Ok(self.known.push(outcome)?)
    }

    /// Tells whether one of these leads to such tables.
    pub(crate) fn lead_to(&self, all_asks: &[String], tables: &str) -> bool {
        for asks in all_asks {
            if let Some(outcome) = self.find(asks.as_str())
                && outcome.tables.as_str() == tables
            {
                return true;
            }
        }
        false
    }

    /// Tells whether a stint of that account leads from the first to the second.
    fn is_next(&self, first: &str, second: &str, account: &Account) -> bool {
        match (self.find(first), self.find(second)) {
            (Some(before), Some(after)) => are_answers(before, after, account),
            _ => false,
        }
    }

    /// Tells whether one of these leads to the same tables.
    fn is_reached(&self, all_asks: &[String], asks: &str) -> bool {
        match self.find(asks) {
            Some(outcome) => self.lead_to(all_asks, outcome.tables.as_str()),
            None => false,
        }
    }

    /// Adds what was asked before and in a stint, if that agrees with its account and leads to
    /// tables to which none of the others leads.
    fn add(
        &mut self,
        alloc: Global,
        all_asks: &mut Vec<String>,
        before: &str,
        choice: &str,
        account: &Account,
    ) -> Result<(), Fail> {
        let after = format!(in alloc; "{before}{choice}")?;
        self.learn(alloc, after.as_str())?;
        if self.is_next(before, after.as_str(), account)
            && !self.is_reached(all_asks.as_slice(), after.as_str())
        {
            all_asks.push(after)?;
        }
        Ok(())
    }

    /// Adds what may have been asked by the end of a stint, after what was asked before it.
    fn add_all(
        &mut self,
        alloc: Global,
        all_asks: &mut Vec<String>,
        before: &str,
        account: &Account,
    ) -> Result<(), Fail> {
        for choice in account.choices.iter() {
            self.add(alloc, all_asks, before, choice.as_str(), account)?;
        }
        Ok(())
    }

    /// Gives what may have been asked before any stint: nothing.
    pub(crate) fn begin(&mut self, alloc: Global) -> Result<Vec<String>, Fail> {
        self.learn(alloc, "")?;
        let mut all_asks = Vec::new(alloc);
        all_asks.push(String::new(alloc))?;
        Ok(all_asks)
    }

    /// Gives what may have been asked by the end of a stint of that account.
    fn all_after(
        &mut self,
        alloc: Global,
        all_before: &[String],
        account: &Account,
    ) -> Result<Vec<String>, Fail> {
        let mut all_asks = Vec::new(alloc);
        for before in all_before {
            self.add_all(alloc, &mut all_asks, before.as_str(), account)?;
        }
        Ok(all_asks)
    }

    /// Gives what may have been asked by the end of a stint, from what may have been asked before.
    pub(crate) fn go_on(
        &mut self,
        alloc: Global,
        all_before: &[String],
        words: &str,
        end: &StintEnd,
    ) -> Result<Vec<String>, Fail> {
        let account = account_of(alloc, words, end)?;
        self.all_after(alloc, all_before, &account)
    }
}

/// Tells whether a stint reports the answers that come after those to what was asked before: all of
/// them, or the first of them if it was stopped.
fn are_answers(before: &Outcome, after: &Outcome, account: &Account) -> bool {
    let reported = account.answers.as_str();
    match after.answers.as_str().strip_prefix(before.answers.as_str()) {
        Some(answers) if account.is_whole => answers == reported,
        Some(answers) => answers.starts_with(reported),
        None => false,
    }
}

/// Lists the first so many acts of what words ask for, a line for each.
fn first_of(alloc: Global, words: &str, count: usize) -> Result<String, Fail> {
    let mut asks = String::new(alloc);
    for ask in words.split(" & ").take(count) {
        if ask != "nothing" {
            asks.push_str(ask)?;
            asks.push('\n')?;
        }
    }
    Ok(asks)
}

/// Does so for each number from the least to the most.
fn firsts_of(alloc: Global, words: &str, least: usize, most: usize) -> Result<Vec<String>, Fail> {
    let mut choices = Vec::new(alloc);
    for count in least..=most {
        choices.push(first_of(alloc, words, count)?)?;
    }
    Ok(choices)
}

/// Lists what a stint may have done of what words ask for: all of it, or what it answered and at
/// most one act more, or any steps of a run.
fn choices_of(alloc: Global, words: &str, end: &StintEnd) -> Result<Vec<String>, Fail> {
    let all = words.split(" & ").count();
    match end {
        StintEnd::FilesShut(_) | StintEnd::OfficeShut(_) => firsts_of(alloc, words, 0, 0),
        StintEnd::Done(_) | StintEnd::Resumed(_) => firsts_of(alloc, words, all, all),
        StintEnd::Stopped(found, _) => {
            let answered = found.len();
            firsts_of(alloc, words, answered, answered.saturating_add(1))
        }
        StintEnd::Interrupted(_) => firsts_of(alloc, STEPS, 0, MOST_STEPS),
    }
}

/// Appends an answer, and the end of its line.
fn push_answer(alloc: Global, text: &mut String, answer: &Answer) -> Result<(), Fail> {
    text.push_str(answer_text(alloc, answer)?.as_str())?;
    Ok(text.push('\n')?)
}

/// Appends answers, a line for each.
fn push_answers(alloc: Global, text: &mut String, answers: &[Answer]) -> Result<(), Fail> {
    for answer in answers {
        push_answer(alloc, text, answer)?;
    }
    Ok(())
}

/// Appends the answers that a stint reports, a line for each.
pub(crate) fn push_end(alloc: Global, text: &mut String, end: &StintEnd) -> Result<(), Fail> {
    match end {
        StintEnd::Done(found) | StintEnd::Stopped(found, _) => {
            push_answers(alloc, text, found.as_slice())
        }
        StintEnd::Resumed(answer) => push_answer(alloc, text, answer),
        StintEnd::FilesShut(_) | StintEnd::OfficeShut(_) | StintEnd::Interrupted(_) => Ok(()),
    }
}

/// Tells whether nothing stopped a stint before all was done.
pub(crate) fn is_whole(end: &StintEnd) -> bool {
    matches!(end, StintEnd::Done(_) | StintEnd::Resumed(_))
}

/// Makes the account of a stint, by how it ended.
fn account_of(alloc: Global, words: &str, end: &StintEnd) -> Result<Account, Fail> {
    let choices = choices_of(alloc, words, end)?;
    let mut answers = String::new(alloc);
    push_end(alloc, &mut answers, end)?;
    Ok(Account {
        choices,
        answers,
        is_whole: is_whole(end),
    })
}
