//! The public calls of the store, the desk, the wire and the program, each with the arguments that
//! other programs give it: a change of one is seen here.
use crate::failures::must;
use crate::peer::Pieces;
use office_base::{Memory, Refusal};
use office_days::{ConfirmDays, Day};
use office_desk::Desk;
use office_machine::{Act, Answer, Builder, Change, Decision, Machine, RecordView, Tables};
use office_program::{Io, Order, PlanStop, due_to, plan_to, run_on};
use office_proof::Entry;
use office_records::{RecordNo, Text};
use office_store::Store;
use office_wire::{
    RequestList, Routes, SentAnswer, Service, Serving, answer_value, export_due, export_entries,
    export_overdue, import_records, read_act, serve_one, serve_session,
};
use serde_json::Value;
use sqlite::{Connection, MemStore};
use std::alloc::Global;
use std::test::Fail;

/// A connection on which no transaction is under way.
fn idle(conn: Connection<MemStore>) -> Result<Connection<MemStore>, Fail> {
    if conn.is_autocommit() {
        return Ok(conn);
    }
    Err(Fail::new("a transaction is under way"))
}

/// A reader of these bytes.
fn pieces(text: &str) -> Pieces<'_> {
    Pieces {
        bytes: text.as_bytes(),
        most: 7,
        fails: false,
    }
}

/// `office_store`: an office is made.
fn created(mut conn: Connection<MemStore>) -> Result<Store<MemStore>, Fail> {
    let is_there: bool = Store::found(&mut conn)?;
    if is_there || !conn.is_autocommit() {
        return Err(Fail::new("an office is there"));
    }
    match Store::create(conn) {
        Ok(store) => Ok(store),
        Err(_) => Err(Fail::new("not made")),
    }
}

/// What a new office decides of an act.
fn decided(alloc: Global, act: &Act) -> Result<Decision, Memory> {
    Machine::new(alloc).decide(act)
}

/// `office_store`: a change is saved.
fn kept(alloc: Global, store: &mut Store<MemStore>, change: &Change) -> Result<(), Fail> {
    Ok(store.save(alloc, change)?)
}

/// The change that an act makes in a new office is saved.
fn saved(alloc: Global, store: &mut Store<MemStore>, act: &Act) -> Result<(), Fail> {
    match decided(alloc, act)? {
        Decision::Go(change) => kept(alloc, store, &change),
        _ => Ok(()),
    }
}

/// A run is opened.
fn run_opened(alloc: Global, store: &mut Store<MemStore>, day: Day) -> Result<(), Fail> {
    let by = Text::read(alloc, "registrar")?.ok_or("no name")?;
    let act = Act::OpenRun { day, by };
    saved(alloc, store, &act)
}

/// `office_store`: tables of the version before are migrated, and a content is read.
fn read(store: &mut Store<MemStore>) -> Result<(), Fail> {
    store.migrate()?;
    let content: Option<Vec<u8>> = store.content(1)?;
    if store.version() == 2 && content.is_none() {
        return Ok(());
    }
    Err(Fail::new("not saved"))
}

/// `office_store`: an office is taken over, its rows at once.
fn adopted(alloc: Global, conn: Connection<MemStore>) -> Result<Connection<MemStore>, Fail> {
    if !conn.is_autocommit() {
        return Err(Fail::new("a transaction is under way"));
    }
    match Store::adopt(alloc, conn) {
        Ok((store, tables)) => {
            let tables: Tables = tables;
            if tables.runs.len() == 1 {
                return Ok(store.release());
            }
            Err(Fail::new("another office"))
        }
        Err(_) => Err(Fail::new("not taken over")),
    }
}

/// `office_store`: the same, its rows one after another.
fn adopted_into(alloc: Global, conn: Connection<MemStore>) -> Result<Connection<MemStore>, Fail> {
    if !conn.is_autocommit() {
        return Err(Fail::new("a transaction is under way"));
    }
    let mut builder = Builder::new(alloc);
    match Store::adopt_into(alloc, conn, &mut builder) {
        Ok(store) => Ok(store.release()),
        Err(_) => Err(Fail::new("not taken over row by row")),
    }
}

/// `office_wire`: an act is read from JSON.
fn act_read(alloc: Global) -> Result<Act, Fail> {
    let value: Value = Value::from_slice(alloc, "{\"act\":\"run-step\"}".as_bytes())?;
    Ok(read_act(alloc, &value)?)
}

/// `office_desk`: a list of acts.
fn performed(
    desk: &mut Desk<MemStore>,
    acts: &[Act],
    answers: &mut Vec<Answer>,
) -> Result<(), Fail> {
    Ok(desk.perform_all(acts, answers)?)
}

/// The same, of which there is one.
fn step_performed(
    alloc: Global,
    desk: &mut Desk<MemStore>,
    answers: &mut Vec<Answer>,
) -> Result<(), Fail> {
    let acts = [act_read(alloc)?];
    performed(desk, &acts, answers)
}

/// `office_wire`: answers as JSON.
fn answered(alloc: Global, answers: &[Answer]) -> Result<(), Fail> {
    for answer in answers {
        let _value: Value = answer_value(alloc, answer)?;
    }
    Ok(())
}

/// `office_desk`: a run is resumed, of which there is none.
fn resumed(desk: &mut Desk<MemStore>) -> Result<(), Fail> {
    match desk.resume()? {
        Answer::Refused(Refusal::NoRun) => Ok(()),
        _ => Err(Fail::new("a run is open")),
    }
}

/// `office_desk`: what is read of a record.
fn record(desk: &mut Desk<MemStore>) -> Result<(), Fail> {
    let view: Option<RecordView> = desk.record(1)?;
    match view {
        Some(_) => Err(Fail::new("another office is read")),
        None => Ok(()),
    }
}

/// `office_desk`: how a record ended.
fn ending(desk: &mut Desk<MemStore>) -> Result<(), Fail> {
    let entry: Option<Entry> = desk.entry_of(1)?;
    match entry {
        Some(_) => Err(Fail::new("an entry is read")),
        None => Ok(()),
    }
}

/// `office_desk`: a record's content.
fn content(desk: &mut Desk<MemStore>) -> Result<(), Fail> {
    let bytes: Option<Vec<u8>> = desk.content(1)?;
    match bytes {
        Some(_) => Err(Fail::new("a content is read")),
        None => Ok(()),
    }
}

/// `office_desk`: the certificate of the run.
fn certificate(desk: &mut Desk<MemStore>) -> Result<(), Fail> {
    let body: Option<String> = desk.certificate(1)?;
    match body {
        Some(_) => Ok(()),
        None => Err(Fail::new("no certificate is read")),
    }
}

/// `office_desk`: the due list of a day.
fn due(desk: &mut Desk<MemStore>, day: Day) -> Result<(), Fail> {
    let list: Vec<RecordNo> = desk.due_list(day)?;
    if list.is_empty() {
        return Ok(());
    }
    Err(Fail::new("a due day is read"))
}

/// `office_desk`: the overdue list of a day.
fn overdue(desk: &mut Desk<MemStore>, day: Day, days: ConfirmDays) -> Result<(), Fail> {
    let list: Vec<RecordNo> = desk.overdue_list(day, days)?;
    if list.is_empty() {
        return Ok(());
    }
    Err(Fail::new("a deadline is read"))
}

/// `office_desk`: the entries of all runs.
fn entries(desk: &mut Desk<MemStore>) -> Result<(), Fail> {
    let list: Vec<Entry> = desk.entries()?;
    if list.is_empty() {
        return Ok(());
    }
    Err(Fail::new("an entry is read"))
}

/// `office_wire`: a request is answered.
fn served(alloc: Global, desk: &mut Desk<MemStore>) -> Result<(), Fail> {
    let mut out = Vec::new(alloc);
    let mut reader = pieces("GET /records/1 HTTP/1.1\r\nHost: h\r\n\r\n");
    let status: u16 = serve_one(alloc, desk, &mut reader, &mut out)?;
    if status == 404 {
        return Ok(());
    }
    Err(Fail::new("answered otherwise"))
}

/// Serves the requests of a list, and awaits one more than there are.
fn session_served(
    alloc: Global,
    desk: &mut Desk<MemStore>,
    list: &mut RequestList<'_>,
) -> Result<Service, Fail> {
    let routes = Routes::new(alloc)?;
    let serving = Serving {
        alloc,
        routes: &routes,
    };
    Ok(serve_session(serving, list, 4, desk))
}

/// Tells whether an answer of this status that begins so went out on a connection.
fn is_sent(it: &SentAnswer, status: u16, beginning: &str) -> bool {
    it.status == Ok(status) && it.bytes.as_slice().starts_with(beginning.as_bytes())
}

/// Checks that three connections have their answers, one of them none, and that the fourth failed.
fn report_session(service: Service, sent: &[SentAnswer]) -> Result<(), Fail> {
    let are_sent = match sent {
        [first, second, third] => {
            is_sent(first, 404, "HTTP/1.1 404 ")
                && is_sent(second, 0, "")
                && is_sent(third, 200, "HTTP/1.1 200 ")
        }
        _ => false,
    };
    let has_ended = service.connections == 4 && service.has_failed && !service.is_poisoned;
    must(are_sent && has_ended, "a session", "served otherwise")
}

/// `office_wire`: a session of requests in memory.
fn session(alloc: Global, desk: &mut Desk<MemStore>) -> Result<(), Fail> {
    let requests: [&[u8]; 3] = [
        "GET /records/1 HTTP/1.1\r\nHost: h\r\n\r\n".as_bytes(),
        "".as_bytes(),
        "GET /due/2024-01-02 HTTP/1.1\r\nHost: h\r\n\r\n".as_bytes(),
    ];
    let mut list = RequestList::new(alloc, &requests)?;
    let service = session_served(alloc, desk, &mut list)?;
    report_session(service, list.into_answers().as_slice())
}

/// `office_wire`: rows are imported, of which there are none.
fn imported(alloc: Global, desk: &mut Desk<MemStore>, day: Day) -> Result<(), Fail> {
    let mut out = Vec::new(alloc);
    let mut reader = pieces("ref,title,originated,aggregation,class,schedule,content\n");
    let refused: u64 = import_records(alloc, desk, day, &mut reader, &mut out)?;
    if refused == 0 {
        return Ok(());
    }
    Err(Fail::new("refused"))
}

/// `office_wire`: the due register is exported.
fn due_exported(alloc: Global, desk: &mut Desk<MemStore>, day: Day) -> Result<(), Fail> {
    let mut out = Vec::new(alloc);
    Ok(export_due(alloc, desk, day, &mut out)?)
}

/// `office_wire`: the overdue register is exported.
fn overdue_exported(
    alloc: Global,
    desk: &mut Desk<MemStore>,
    day: Day,
    days: ConfirmDays,
) -> Result<(), Fail> {
    let mut out = Vec::new(alloc);
    Ok(export_overdue(alloc, desk, day, days, &mut out)?)
}

/// `office_wire`: the register of entries is exported.
fn entries_exported(alloc: Global, desk: &mut Desk<MemStore>) -> Result<(), Fail> {
    let mut out = Vec::new(alloc);
    Ok(export_entries(alloc, desk, &mut out)?)
}

/// The program: a due day and a plan, without an office. Its words are read in the cases.
fn computed(alloc: Global) -> Result<(), Fail> {
    let mut out = Vec::new(alloc);
    let refusal: Result<Option<Refusal>, Io> = due_to(
        "years",
        "7",
        "from-month-4",
        "2017-06-30",
        &mut out,
    );
    let mut plan = pieces("schedule D1 added years 1 none destroy\n");
    let refused: Result<Option<(u64, Refusal)>, PlanStop> = plan_to(alloc, &mut plan, &mut out);
    if refusal == Ok(None) && refused.is_ok() && out.as_slice() == "2025-04-01\n".as_bytes() {
        return Ok(());
    }
    Err(Fail::new("written otherwise"))
}

/// The program: a command over a connection.
fn program(alloc: Global, conn: Connection<MemStore>) -> Result<(), Fail> {
    if !conn.is_autocommit() {
        return Err(Fail::new("a transaction is under way"));
    }
    let order = Order::Init { file: "office.db" };
    let (mut out, mut err) = (Vec::new(alloc), Vec::new(alloc));
    let mut input = pieces("");
    let (status, _): (u8, Connection<MemStore>) = run_on(
        alloc, conn, &order, &mut input, &mut out, &mut err,
    );
    let is_so = status == 0 && out.as_slice() == "version 2\n".as_bytes();
    must(is_so, "init", "another status")
}

/// The calls of the desk that act.
fn acts(alloc: Global, desk: &mut Desk<MemStore>) -> Result<(), Fail> {
    let mut answers: Vec<Answer> = Vec::new(alloc);
    step_performed(alloc, desk, &mut answers)?;
    answered(alloc, answers.as_slice())?;
    resumed(desk)
}

/// The calls of the desk that read.
fn readings(desk: &mut Desk<MemStore>, day: Day, days: ConfirmDays) -> Result<(), Fail> {
    record(desk)?;
    ending(desk)?;
    content(desk)?;
    certificate(desk)?;
    due(desk, day)?;
    overdue(desk, day, days)?;
    entries(desk)
}

/// The calls of the wire.
fn wire(alloc: Global, desk: &mut Desk<MemStore>, day: Day, days: ConfirmDays) -> Result<(), Fail> {
    served(alloc, desk)?;
    session(alloc, desk)?;
    imported(alloc, desk, day)?;
    due_exported(alloc, desk, day)?;
    overdue_exported(alloc, desk, day, days)?;
    entries_exported(alloc, desk)
}

/// A run is opened in an office, from which is then read.
fn used(alloc: Global, store: &mut Store<MemStore>, day: Day) -> Result<(), Fail> {
    run_opened(alloc, store, day)?;
    read(store)
}

/// An office with a run that is open.
fn office(alloc: Global, day: Day) -> Result<Store<MemStore>, Fail> {
    let mut store = created(idle(Connection::open_in_memory(alloc)?)?)?;
    used(alloc, &mut store, day)?;
    Ok(store)
}

/// A connection to it, taken over twice.
fn taken_over(alloc: Global, day: Day) -> Result<Connection<MemStore>, Fail> {
    adopted_into(alloc, adopted(alloc, office(alloc, day)?.release())?)
}

/// `office_desk`: a desk is opened.
fn opened(alloc: Global, conn: Connection<MemStore>) -> Result<Desk<MemStore>, Fail> {
    if !conn.is_autocommit() {
        return Err(Fail::new("a transaction is under way"));
    }
    match Desk::open(alloc, conn) {
        Ok(desk) => Ok(desk),
        Err(_) => Err(Fail::new("not opened")),
    }
}

/// The calls at a desk.
fn at_desk(
    alloc: Global,
    desk: &mut Desk<MemStore>,
    day: Day,
    days: ConfirmDays,
) -> Result<(), Fail> {
    acts(alloc, desk)?;
    readings(desk, day, days)?;
    wire(alloc, desk, day, days)
}

/// The same, and the desk is closed.
fn closed(
    alloc: Global,
    mut desk: Desk<MemStore>,
    day: Day,
    days: ConfirmDays,
) -> Result<Connection<MemStore>, Fail> {
    at_desk(alloc, &mut desk, day, days)?;
    Ok(desk.close())
}

/// The calls, one after another.
pub(crate) fn call(alloc: Global) -> Result<(), Fail> {
    let (Some(day), Some(days)) = (Day::read("2024-01-02"), ConfirmDays::new(30)) else {
        return Err(Fail::new("no day"));
    };
    computed(alloc)?;
    let desk = opened(alloc, taken_over(alloc, day)?)?;
    program(alloc, closed(alloc, desk, day, days)?)
}
