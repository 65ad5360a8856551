//! Cases worked out by hand, each a row of text: what is asked, ` = `, and what must come of it.
//!
//! Rows are in their subject's file and begin with the word of what they ask: `due`, `plan`,
//! `digest`, `disk`, .. A line that begins with `#` is a remark. What follows is written as text in
//! which `\r`, `\n`, `\t`, `\s`, `\0`, `\1` and `\f` are a carriage return, a line feed, a tab, a
//! space and the bytes 0, 1 and 255, and a backslash before any other character is that character.
//! It may come in pieces with ` + ` between them, of which each may end in ` x N` where it comes N
//! times; `nothing` is no byte. Words are between spaces, or between bars where one of them is
//! empty or has a space in it. A row whose answer is another, or which is not of this language, is
//! named by the test that fails, with its line in its text.
//!
//! In `hold_tests` and `office_tests` rows follow one another, as a story: acts, each on its day,
//! with what is answered, and what the office reports in between.
#![tactic(auto)]

#[cfg(test)]
mod act_tests;
#[cfg(test)]
mod answer_tests;
#[cfg(test)]
mod answering;
#[cfg(test)]
mod calls;
#[cfg(test)]
mod case_tests;
#[cfg(test)]
mod due_tests;
#[cfg(test)]
mod evidence_tests;
#[cfg(test)]
mod hold_tests;
#[cfg(test)]
mod machine_calls;
#[cfg(test)]
mod office_tests;
#[cfg(test)]
mod offices;
#[cfg(test)]
mod plan_tests;
#[cfg(test)]
mod proof_tests;
#[cfg(test)]
mod reply_tests;
#[cfg(test)]
mod request_tests;
#[cfg(test)]
mod rows;
#[cfg(test)]
mod streams;
#[cfg(test)]
mod word_tests;
#[cfg(test)]
mod written;
