//! A statement of the settings.
ghost use Rattle.std.specs.Prelude.{◌≡◌, ◌∷◌, map};
ghost use Rattle.office_settings.specs.Statements.{journal_line, keep_line, limit_line, mark_line, rule_line, site_line, statement_of, zone_line};
ghost use Rattle.office_settings.specs.Views.{line_of, read};

use crate::Wrong;
use crate::addresses::{is_site, is_zone};
use crate::keywords::{are_acts, is_on_or_off};
use crate::numbers::only_number;
use crate::roles::{name_line, role_line};
use crate::tokens::is;

/// What a role may do or read, and for which classes: without any, for everything.
#[derive(Clone, Copy)]
pub struct RoleLine<'a> {
    pub role: &'a [u8],
    pub things: &'a [&'a [u8]],
    pub classes: &'a [&'a [u8]],
}

/// Which roles a name has, and for which classes: without any, for everything.
#[derive(Clone, Copy)]
pub struct IsLine<'a> {
    pub name: &'a [u8],
    pub roles: &'a [&'a [u8]],
    pub classes: &'a [&'a [u8]],
}

/// What a name signs: the words of a text, which a space parts.
#[derive(Clone, Copy)]
pub struct SignsLine<'a> {
    pub name: &'a [u8],
    pub text: &'a [&'a [u8]],
}

/// A statement. Its texts are words of the line, each of its form.
#[derive(Clone, Copy)]
pub enum Statement<'a> {
    /// A role may do acts.
    May(RoleLine<'a>),
    /// A role reads things: only what a run sent to an archive, or not only.
    Reads(RoleLine<'a>, bool),
    /// A name has roles.
    Is(IsLine<'a>),
    /// Every other name has roles; the name is `*`.
    Others(IsLine<'a>),
    /// A name signs a text.
    Signs(SignsLine<'a>),
    /// A rule of four eyes is on.
    Rule(&'a [u8]),
    /// `changer-does-not-open` is on, for that number of days.
    Changer(u64),
    /// These acts need a reason.
    ReasonFor(&'a [&'a [u8]]),
    /// How many requests a name may have at once.
    Requests(u64),
    /// How many long lists a name may have at once.
    Lists(u64),
    /// How many bytes of the journal the refused requests of a name may take on a day.
    JournalBytes(u64),
    /// How many days the contents of filed records stay beside the journal.
    ContentDays(u64),
    /// How many megabytes of the disk filings leave free.
    FreeMegabytes(u64),
    /// Reports whether the journal has a line for each reading that was answered.
    JournalsReadings(bool),
    /// The address of the site.
    Site(&'a [u8]),
    /// The time zone of the office.
    Zone(&'a [u8]),
    /// The mark above all other statements.
    Begin,
    /// The mark below all other statements.
    End,
}

/// Reads what follows the word `rule`: its first word, and the rest.
#[tactic(auto, unfolding(crate::specs::Statements::rule_line))]
fn rule_kind<'a>(token: &'a [u8], rest: &'a [&'a [u8]]) -> Result<Statement<'a>, Wrong>
    ensures { read result ≡ rule_line (token.now ∷ map (λ w. w.now) rest.now) }
{
    if is(token, "changer-does-not-open") {
        return match only_number(1, 3_650, rest) {
            Some(days) => Ok(Statement::Changer(days)),
            None => Err(Wrong::Number),
        };
    }
    if is(token, "reason-for") {
        if rest.is_empty() || !are_acts(rest) {
            return Err(Wrong::Act);
        }
        return Ok(Statement::ReasonFor(rest));
    }
    if is_on_or_off(token) && rest.is_empty() {
        return Ok(Statement::Rule(token));
    }
    Err(Wrong::Rule)
}

/// Reads a line `rule`.
#[tactic(auto, unfolding(crate::specs::Statements::rule_line))]
fn rule_line<'a>(tokens: &'a [&'a [u8]]) -> Result<Statement<'a>, Wrong>
    ensures { read result ≡ rule_line (map (λ w. w.now) tokens.now) }
{
    match tokens {
        [] => Err(Wrong::Rule),
        [token, rest @ ..] => rule_kind(token, rest),
    }
}

/// Reads what follows the word `limit`: its first word, and the rest.
#[tactic(auto, unfolding(crate::specs::Statements::limit_line))]
fn limit_kind<'a>(token: &'a [u8], rest: &'a [&'a [u8]]) -> Result<Statement<'a>, Wrong>
    ensures { read result ≡ limit_line (token.now ∷ map (λ w. w.now) rest.now) }
{
    if is(token, "requests") {
        return match only_number(1, 1_000, rest) {
            Some(count) => Ok(Statement::Requests(count)),
            None => Err(Wrong::Number),
        };
    }
    if is(token, "lists") {
        return match only_number(1, 100, rest) {
            Some(count) => Ok(Statement::Lists(count)),
            None => Err(Wrong::Number),
        };
    }
    if is(token, "journal-bytes") {
        return match only_number(10_000, 1_000_000_000_000, rest) {
            Some(count) => Ok(Statement::JournalBytes(count)),
            None => Err(Wrong::Number),
        };
    }
    Err(Wrong::Limit)
}

/// Reads a line `limit`.
#[tactic(auto, unfolding(crate::specs::Statements::limit_line))]
fn limit_line<'a>(tokens: &'a [&'a [u8]]) -> Result<Statement<'a>, Wrong>
    ensures { read result ≡ limit_line (map (λ w. w.now) tokens.now) }
{
    match tokens {
        [] => Err(Wrong::Limit),
        [token, rest @ ..] => limit_kind(token, rest),
    }
}

/// Reads what follows the word `keep`: its first word, and the rest.
#[tactic(auto, unfolding(crate::specs::Statements::keep_line))]
fn keep_kind<'a>(token: &'a [u8], rest: &'a [&'a [u8]]) -> Result<Statement<'a>, Wrong>
    ensures { read result ≡ keep_line (token.now ∷ map (λ w. w.now) rest.now) }
{
    if is(token, "contents") {
        return match only_number(0, 366, rest) {
            Some(days) => Ok(Statement::ContentDays(days)),
            None => Err(Wrong::Number),
        };
    }
    if is(token, "free") {
        return match only_number(0, 1_000_000, rest) {
            Some(count) => Ok(Statement::FreeMegabytes(count)),
            None => Err(Wrong::Number),
        };
    }
    Err(Wrong::Keep)
}

/// Reads a line `keep`.
#[tactic(auto, unfolding(crate::specs::Statements::keep_line))]
fn keep_line<'a>(tokens: &'a [&'a [u8]]) -> Result<Statement<'a>, Wrong>
    ensures { read result ≡ keep_line (map (λ w. w.now) tokens.now) }
{
    match tokens {
        [] => Err(Wrong::Keep),
        [token, rest @ ..] => keep_kind(token, rest),
    }
}

#[tactic(auto, unfolding(crate::specs::Statements::journal_line))]
fn journal_line<'a>(tokens: &'a [&'a [u8]]) -> Result<Statement<'a>, Wrong>
    ensures { read result ≡ journal_line (map (λ w. w.now) tokens.now) }
{
    match tokens {
        [] => Err(Wrong::Journal),
        [token] => {
            if is(token, "readings") {
                Ok(Statement::JournalsReadings(true))
            } else if is(token, "acts") {
                Ok(Statement::JournalsReadings(false))
            } else {
                Err(Wrong::Journal)
            }
        }
        [_, _, ..] => Err(Wrong::Journal),
    }
}

#[tactic(auto, unfolding(crate::specs::Statements::zone_line))]
fn zone_line<'a>(tokens: &'a [&'a [u8]]) -> Result<Statement<'a>, Wrong>
    ensures { read result ≡ zone_line (map (λ w. w.now) tokens.now) }
{
    match tokens {
        [] => Err(Wrong::Zone),
        [token] => {
            if is_zone(token) {
                Ok(Statement::Zone(token))
            } else {
                Err(Wrong::Zone)
            }
        }
        [_, _, ..] => Err(Wrong::Zone),
    }
}

#[tactic(auto, unfolding(crate::specs::Statements::site_line))]
fn site_line<'a>(tokens: &'a [&'a [u8]]) -> Result<Statement<'a>, Wrong>
    ensures { read result ≡ site_line (map (λ w. w.now) tokens.now) }
{
    match tokens {
        [] => Err(Wrong::Site),
        [token] => {
            if is_site(token) {
                Ok(Statement::Site(token))
            } else {
                Err(Wrong::Site)
            }
        }
        [_, _, ..] => Err(Wrong::Site),
    }
}

/// Reads what follows the word of a mark: nothing.
fn mark_line<'a>(mark: Statement<'a>, rest: &[&[u8]]) -> Result<Statement<'a>, Wrong>
    ensures { read result ≡ mark_line (line_of mark.entry) (map (λ w. w.now) rest.now) }
{
    if !rest.is_empty() {
        return Err(Wrong::Mark);
    }
    Ok(mark)
}

/// Reads the first word of a line, and the rest.
#[tactic(auto, unfolding(crate::specs::Statements::statement_of))]
fn kind_line<'a>(token: &[u8], rest: &'a [&'a [u8]]) -> Result<Statement<'a>, Wrong>
    ensures { read result ≡ statement_of (token.now ∷ map (λ w. w.now) rest.now) }
{
    if is(token, "role") {
        role_line(rest)
    } else if is(token, "name") {
        name_line(rest)
    } else if is(token, "rule") {
        rule_line(rest)
    } else if is(token, "limit") {
        limit_line(rest)
    } else if is(token, "keep") {
        keep_line(rest)
    } else if is(token, "journal") {
        journal_line(rest)
    } else if is(token, "site") {
        site_line(rest)
    } else if is(token, "zone") {
        zone_line(rest)
    } else if is(token, "begin") {
        mark_line(Statement::Begin, rest)
    } else if is(token, "end") {
        mark_line(Statement::End, rest)
    } else {
        Err(Wrong::Beginning)
    }
}

impl<'a> Statement<'a> {
    /// Reads the words of a line as a statement; the error is the first reason why they are none.
    /// It takes no memory.
    #[tactic(auto, unfolding(crate::specs::Statements::statement_of))]
    pub fn read(tokens: &'a [&'a [u8]]) -> Result<Statement<'a>, Wrong>
        ensures { read result ≡ statement_of (map (λ w. w.now) tokens.now) }
    {
        match tokens {
            [] => Err(Wrong::Beginning),
            [token, rest @ ..] => kind_line(token, rest),
        }
    }
}
