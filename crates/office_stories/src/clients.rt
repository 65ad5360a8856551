//! Clients that are served one after another at a desk.
use crate::failures::failure;
use crate::peer::{Document, Pieces};
use crate::requests::{Exchange, exchange_of};
use office_base::Io;
use office_desk::Desk;
use office_wire::{Routes, serve_one, serve_with};
use sqlite::Alter;
use std::alloc::Global;
use std::test::Fail;

/// The status that an answer has in its first line, or 0 where nothing is written.
fn status_of(answer: &str) -> u16 {
    match answer.get(9..12) {
        Some(digits) => digits.parse().unwrap_or(0),
        None => 0,
    }
}

/// What serving a client must come to.
fn ending_of(it: &Exchange) -> Result<u16, Io> {
    if it.is_lost || it.room < it.answer.len() {
        return Err(Io);
    }
    Ok(status_of(it.answer.as_str()))
}

/// Whether a client is answered so, as far as it takes the answer; its bytes come in pieces of at
/// most so many.
fn is_answered<S: Alter>(
    alloc: Global,
    routes: &Routes,
    desk: &mut Desk<S>,
    it: &Exchange,
    most: usize,
) -> bool {
    let mut reader = Pieces {
        bytes: it.sent.as_slice(),
        most,
        fails: it.is_lost,
    };
    let mut document = Document {
        awaited: it.answer.as_bytes(),
        room: it.room,
        differs: false,
    };
    let status = if most == 1 {
        serve_one(alloc, desk, &mut reader, &mut document)
    } else {
        serve_with(alloc, routes, desk, &mut reader, &mut document)
    };
    status == ending_of(it)
        && !document.differs
        && (document.room == 0 || document.awaited.is_empty())
}

/// A client must be answered as the row says, whose bytes come in pieces of at most so many.
pub(crate) fn report_client<S: Alter>(
    alloc: Global,
    desk: &mut Desk<S>,
    row: &str,
    most: usize,
) -> Result<(), Fail> {
    let it = exchange_of(alloc, row)?;
    let routes = Routes::new(alloc)?;
    if is_answered(alloc, &routes, desk, &it, most) {
        return Ok(());
    }
    Err(failure("not answered so", row))
}
