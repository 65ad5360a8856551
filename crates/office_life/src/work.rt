//! The office behind a connection is opened, and does what is asked of it.
ghost use Rattle.std.specs.Prelude.{◌≡◌, false};
ghost use Rattle.sqlite.specs.Held.{state};
ghost use Rattle.sqlite.specs.State.{HasCleanDisk};
ghost use Rattle.office_rules.specs.State.{State};
ghost use Rattle.office_desk.specs.Leaving.{IsAt};
ghost use Rattle.office_life.specs.Life.{DidActs, DidSteps, Leads, LeadsBy};
ghost use Rattle.office_life.specs.Standing.{LeavesAt, RestsAt};
ghost use Rattle.office_life.specs.Told.{WereOpened};

use crate::reports::{StintEnd, Task};
use office_desk::Desk;
use office_rules::Act;
use office_rules::laws::soundness::law_of_soundness;
use office_store::laws::law_of_one_database;
use sqlite::{Alter, Connection};
use std::alloc::Global;

/// Does acts at a desk, and closes it.
fn act_on<S: Alter>(alloc: Global, mut desk: Desk<S>, acts: &[Act]) -> (StintEnd, Connection<S>)
    ensures opened { WereOpened result.0 }
    ensures clean { HasCleanDisk (state S.Store result.1) → HasCleanDisk (state S.Store desk.connection) }
    ensures left { HasCleanDisk (state S.Store result.1) → (s : State) → IsAt S.Store s desk
        → LeavesAt (LeadsBy (DidActs acts.now result.0) s) (state S.Store result.1) }
{
    law_of_soundness();
    let mut answers = Vec::new(alloc);
    match desk.perform_all(acts, &mut answers) {
        Ok(()) => (StintEnd::Done(answers), desk.close()),
        Err(fault) => (StintEnd::Stopped(answers, fault), desk.close()),
    }
}

/// Resumes the open run at a desk, and closes it.
fn resume_on<S: Alter>(mut desk: Desk<S>) -> (StintEnd, Connection<S>)
    ensures opened { WereOpened result.0 }
    ensures clean { HasCleanDisk (state S.Store result.1) → HasCleanDisk (state S.Store desk.connection) }
    ensures left { HasCleanDisk (state S.Store result.1) → (s : State) → IsAt S.Store s desk
        → LeavesAt (LeadsBy (DidSteps result.0) s) (state S.Store result.1) }
{
    law_of_soundness();
    law_of_one_database();
    match desk.resume() {
        Ok(answer) => (StintEnd::Resumed(answer), desk.close()),
        Err(fault) => (StintEnd::Interrupted(fault), desk.close()),
    }
}

/// Does at a desk what is asked, and closes it.
fn work_on<S: Alter>(alloc: Global, desk: Desk<S>, task: &Task) -> (StintEnd, Connection<S>)
    ensures opened { WereOpened result.0 }
    ensures clean { HasCleanDisk (state S.Store result.1) → HasCleanDisk (state S.Store desk.connection) }
    ensures left { HasCleanDisk (state S.Store result.1) → (s : State) → IsAt S.Store s desk
        → LeavesAt (Leads task.now result.0 s) (state S.Store result.1) }
{
    match task {
        Task::Acts(acts) => act_on(alloc, desk, acts.as_slice()),
        Task::Resumption => resume_on(desk),
    }
}

/// Opens the office behind a connection, and does what is asked.
pub(crate) fn work_at<S: Alter>(
    alloc: Global,
    conn: Connection<S>,
    task: &Task,
) -> (StintEnd, Connection<S>)
    requires { conn.in_transaction ≡ false }
    ensures opened { WereOpened result.0 }
    ensures left { HasCleanDisk (state S.Store result.1) → (s : State)
        → RestsAt (state S.Store conn) s
        → LeavesAt (Leads task.now result.0 s) (state S.Store result.1) }
{
    law_of_soundness();
    law_of_one_database();
    match Desk::open(alloc, conn) {
        Ok(desk) => work_on(alloc, desk, task),
        Err((fault, conn)) => (StintEnd::OfficeShut(fault), conn),
    }
}
