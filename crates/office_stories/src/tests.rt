//! Every story is carried out.
use crate::archive_stories::ARCHIVE;
use crate::calls::call;
use crate::content_stories::CONTENTS;
use crate::damage_stories::{BASE_DAMAGE, BUSY_DAMAGE};
use crate::event_stories::{EVENTS, STOPPED_EVENTS};
use crate::exits::report_exits;
use crate::filing_stories::FILING;
use crate::hold_stories::HOLDS;
use crate::hostile_stories::{ELSEWHERE, HOSTILE};
use crate::life_stories::{LIVES_OF_ACTS, LIVES_OF_MIGRATIONS, LIVES_OF_RUNS};
use crate::limit_stories::LIMITS;
use crate::lost_stories::{LOST, UNHEARD};
use crate::old_file_stories::OLD_FILE;
use crate::other_stories::{OTHER_FILE, OTHERS, STOPPED_ACTS, STOPPED_BEGINNINGS};
use crate::overdue_stories::{LOST_OVERDUE, OVERDUE};
use crate::program_stories::{LOST_LINES, PROGRAM};
use crate::reporting::report;
use crate::request_stories::REQUESTS;
use crate::run_stories::RUNS;
use crate::socket_stories::{FAILED, IN_TURN, POISONED};
use crate::sockets::meet;
use crate::stop_stories::{
    STOPPED_DISPOSING, STOPPED_FILING, STOPPED_HOLDING, STOPPED_LONG_RUN, STOPPED_SHORT_RUN,
};
use crate::table_stories::TABLES;
use crate::version_stories::{REFUSED, STOPPED_OPENING, TAKEN_OVER};
use std::test::Fail;

#[test]
fn an_office_is_as_its_stories_report(rt: HostRuntime) -> Result<(), Fail> {
    for stories in [FILING, HOLDS, RUNS, CONTENTS, TABLES, EVENTS, OVERDUE] {
        report(rt.alloc(), stories)?;
    }
    Ok(())
}

#[test]
fn calls_take_what_other_programs_give(rt: HostRuntime) -> Result<(), Fail> {
    call(rt.alloc())
}

#[test]
fn an_office_has_limits(rt: HostRuntime) -> Result<(), Fail> {
    report(rt.alloc(), LIMITS)
}

#[test]
fn requests_are_answered(rt: HostRuntime) -> Result<(), Fail> {
    report(rt.alloc(), REQUESTS)
}

#[test]
fn hostile_requests_are_answered(rt: HostRuntime) -> Result<(), Fail> {
    report(rt.alloc(), HOSTILE)?;
    report(rt.alloc(), ELSEWHERE)
}

#[test]
fn clients_are_lost(rt: HostRuntime) -> Result<(), Fail> {
    report(rt.alloc(), LOST)?;
    report(rt.alloc(), UNHEARD)
}

#[test]
fn damaged_tables_are_reported(rt: HostRuntime) -> Result<(), Fail> {
    report(rt.alloc(), BASE_DAMAGE)
}

#[test]
fn damaged_tables_of_runs_are_reported(rt: HostRuntime) -> Result<(), Fail> {
    report(rt.alloc(), BUSY_DAMAGE)
}

#[test]
fn the_program_reports_what_it_did(rt: HostRuntime) -> Result<(), Fail> {
    report(rt.alloc(), PROGRAM)?;
    report_exits(rt.alloc())
}

#[test]
fn lines_to_the_program_are_lost(rt: HostRuntime) -> Result<(), Fail> {
    report(rt.alloc(), LOST_LINES)?;
    report(rt.alloc(), LOST_OVERDUE)
}

#[test]
fn a_city_archive_has_its_story(rt: HostRuntime) -> Result<(), Fail> {
    report(rt.alloc(), ARCHIVE)
}

#[test]
fn filing_is_stopped(rt: HostRuntime) -> Result<(), Fail> {
    report(rt.alloc(), STOPPED_FILING)?;
    report(rt.alloc(), STOPPED_EVENTS)
}

#[test]
fn holding_is_stopped(rt: HostRuntime) -> Result<(), Fail> {
    report(rt.alloc(), STOPPED_HOLDING)
}

#[test]
fn disposing_is_stopped(rt: HostRuntime) -> Result<(), Fail> {
    report(rt.alloc(), STOPPED_DISPOSING)
}

#[test]
fn a_short_run_is_stopped(rt: HostRuntime) -> Result<(), Fail> {
    report(rt.alloc(), STOPPED_SHORT_RUN)
}

#[test]
fn a_long_run_is_stopped(rt: HostRuntime) -> Result<(), Fail> {
    report(rt.alloc(), STOPPED_LONG_RUN)
}

#[test]
fn clients_meet_at_a_socket(rt: HostRuntime) -> Result<(), Fail> {
    for meeting in [IN_TURN, FAILED, POISONED] {
        meet(&rt, &meeting)?;
    }
    Ok(())
}

#[test]
fn files_of_version_1_are_taken_over(rt: HostRuntime) -> Result<(), Fail> {
    for stories in [TAKEN_OVER, REFUSED, OLD_FILE] {
        report(rt.alloc(), stories)?;
    }
    Ok(())
}

#[test]
fn what_else_a_file_has_stays(rt: HostRuntime) -> Result<(), Fail> {
    report(rt.alloc(), OTHERS)?;
    report(rt.alloc(), OTHER_FILE)
}

#[test]
fn beginnings_beside_other_tables_are_stopped(rt: HostRuntime) -> Result<(), Fail> {
    report(rt.alloc(), STOPPED_BEGINNINGS)
}

#[test]
fn acts_beside_other_tables_are_stopped(rt: HostRuntime) -> Result<(), Fail> {
    report(rt.alloc(), STOPPED_ACTS)
}

#[test]
fn the_opening_of_version_1_is_stopped(rt: HostRuntime) -> Result<(), Fail> {
    report(rt.alloc(), STOPPED_OPENING)
}

#[test]
fn lives_of_acts_are_stopped(rt: HostRuntime) -> Result<(), Fail> {
    report(rt.alloc(), LIVES_OF_ACTS)
}

#[test]
fn lives_of_runs_are_stopped(rt: HostRuntime) -> Result<(), Fail> {
    report(rt.alloc(), LIVES_OF_RUNS)
}

#[test]
fn lives_of_migrations_are_stopped(rt: HostRuntime) -> Result<(), Fail> {
    report(rt.alloc(), LIVES_OF_MIGRATIONS)
}
