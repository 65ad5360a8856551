//! Stories of an office, worked out by hand and written in rows that a records manager can read.
//!
//! A **story** begins with its title, `# A held class is not left`, and each begins with no office
//! at all. Its **parts** begin with the place where they happen, and their rows follow, one a line.
//! After each part the machine crashes, and the next part opens the office anew from what is left
//! of its two files.
//!
//! | Place | A row of it |
//! |---|---|
//! | `## at the desk` | an act with its answer, or what is read |
//! | `## at the desk of the base office` | the same, after the acts of the base office (`office`) |
//! | `## at the desk of the busy office` | the same, after the acts of the busy office too (`office`) |
//! | `## clients in pieces of 7` | a request of HTTP, which comes in pieces of 7 bytes, with its whole answer |
//! | `## by the program` | words of the program, and `STATUS;OUTPUT;LINE ON STANDARD ERROR`; then the bytes after which its text or its output fails, ` while read up to 7`, ` while written up to 7`; an output `*` is any |
//! | `## in the tables` | statements of SQL that change the tables |
//! | `## in the tables of version 1` | the same, after the eleven tables of version 1 are made (`old_office`) |
//! | `## in the tables of the old base office` | the same, after the base office is made in these |
//! | `## in the tables of an earlier program` | the same, after other tables, indexes and a view are made that need no office (`others`) |
//! | `## in the tables of a later program` | the same, after others are made, and views over `records`, which has to be there |
//! | `## the bytes of a file` | what is in the pages of the database file (`pages`): `2 14 0a0b` at place 14 of page 2, `3 like 2`; the `digest` of the whole, and `3 digest` with that of page 3 |
//! | `## read from the tables` | a statement of SQL, ` is ` and the values that it gives, `none` or `refused`; no office is opened before |
//! | `## tried on the tables` | `opened after` or `fault 33 after` statements, each on a copy of the office as it is; what is refused keeps its rows |
//! | `## counts of the tables` | how many rows the tables have, from schedules to certificates |
//! | `## taken over by memory` | `with 16 rows`: with memory for fewer the office is not taken over, and its tables stay |
//! | `## closed` | none: the database is closed, and its log goes back into its file |
//! | `## asked while a disk stops` | acts with their answers, or what is read, and how often a disk stops it at least |
//! | `## resumed while a disk stops` | `by 11 steps = closed 1, at least 25`; `steps again` where each resumption is stopped once more |
//! | `## lived while disks stop` | stints between ` ; `, each acts with their answers, `resume` or `nothing = none`; how often each disk stops them at least, and after how many stints the database does not promise what is left, by why |
//! | `## opened while a disk stops` | `at least 8`: a file of version 1 is opened, and how often a disk stops it at least; each stop leaves all of version 1, or all of version 2 |
//!
//! What else than its thirteen tables a file has, each row of another table and each text of an
//! index or a view, is after each part what it was before it, but for rows in the tables and bytes
//! of a file (`rests`). What a stop leaves is compared with all of it too, and with what the views
//! answer.
//!
//! An act is a day, its word, its words, ` = ` and the answer, as `2025-01-02 confirm 1 destroy =
//! refused 15`; `phrases` has them all; acts that are asked at once are joined by ` & `, and so do
//! their answers. A title is the ref or the code, a reason is `court`, it is always the registrar
//! who acts, a record is originated on 2024-01-02, and a class, a schedule or a content written `-`
//! is none. An act may be written in JSON too. `resume` takes up the open run.
//!
//! What is read is given by `is` (the whole text), `has` (a part of it) or `bytes` (its length):
//! `record 1 has "held":"H-2"`, `content 1 is "abc"`, `content 1 is none`, `certificate 1 bytes
//! 501`, `due-list 2025-01-02 is [3, 1, 2]`, `overdue-list 2025-02-02 30 is [2, 3]`, `entries is
//! run 1 record 1 destroyed;`, and of the entry that ended a record `ended 1 is none`.
//!
//! A request is `GET /records/1`, or with its length and body `POST /acts 20 [{"act":"run-step"}]`;
//! one that begins with `bytes` is sent as it is, and of `first 12 of` another its first bytes
//! alone. An answer is its status, type, length and body, `404 Not Found, application/json, 16:
//! {"error":"path"}`, or begins with `bytes` too, of `in all` so many bytes. `nothing` is no byte.
//! A client that is `lost` has no answer, and one that is `lost after` so many bytes gets only
//! these. `\n`, `\r`, `\t`, `\x00`, `\x7f` and in what is sent or read `\xff` are written for the
//! bytes that they name. What is sent as it is, and a body that is awaited, may be pieces between ` + `, each
//! of them so often as it says: `GET / + a x 8000 + HTTP/1.1`.
//!
//! ` for each <n> of 1 2 7` or ` for each <n> of 1 to 1000` after a row or a title repeats it. A
//! row that is not so is named by the failure.
#![tactic(auto)]

#[cfg(test)]
mod acts;
#[cfg(test)]
mod archive_stories;
#[cfg(test)]
mod calls;
#[cfg(test)]
mod clients;
#[cfg(test)]
mod content_stories;
#[cfg(test)]
mod damage_stories;
#[cfg(test)]
mod disks;
#[cfg(test)]
mod errands;
#[cfg(test)]
mod event_stories;
#[cfg(test)]
mod exits;
#[cfg(test)]
mod failures;
#[cfg(test)]
mod filing_stories;
#[cfg(test)]
mod hold_stories;
#[cfg(test)]
mod hostile_stories;
#[cfg(test)]
mod intakes;
#[cfg(test)]
mod life_rows;
#[cfg(test)]
mod life_stories;
#[cfg(test)]
mod limit_stories;
#[cfg(test)]
mod lives;
#[cfg(test)]
mod lost_stories;
#[cfg(test)]
mod migrations;
#[cfg(test)]
mod office;
#[cfg(test)]
mod old_file_stories;
#[cfg(test)]
mod old_office;
#[cfg(test)]
mod other_stories;
#[cfg(test)]
mod others;
#[cfg(test)]
mod outcomes;
#[cfg(test)]
mod overdue_stories;
#[cfg(test)]
mod pages;
#[cfg(test)]
mod peer;
#[cfg(test)]
mod phrases;
#[cfg(test)]
mod program;
#[cfg(test)]
mod program_stories;
#[cfg(test)]
mod readings;
#[cfg(test)]
mod repeating;
#[cfg(test)]
mod reporting;
#[cfg(test)]
mod request_stories;
#[cfg(test)]
mod requests;
#[cfg(test)]
mod rests;
#[cfg(test)]
mod rows;
#[cfg(test)]
mod run_stories;
#[cfg(test)]
mod selections;
#[cfg(test)]
mod socket_stories;
#[cfg(test)]
mod sockets;
#[cfg(test)]
mod stop_stories;
#[cfg(test)]
mod stops;
#[cfg(test)]
mod table_stories;
#[cfg(test)]
mod tables;
#[cfg(test)]
mod tests;
#[cfg(test)]
mod version_stories;
