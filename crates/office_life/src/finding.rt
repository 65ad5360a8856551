//! The office in two files is found.
ghost use Rattle.std.specs.Prelude.{◌≡◌, IfErr, IfOk, IsTrue, false};
ghost use Rattle.sqlite.specs.Files.{file_state, image_of, over_files};
ghost use Rattle.office_rules.specs.State.{State};
ghost use Rattle.office_desk.specs.Leaving.{IsAt};
ghost use Rattle.office_life.specs.Opening.{AreNotRefused, IsNotRefused, StopsFinding};
ghost use Rattle.office_life.specs.Standing.{NeverLies, RestsAt, Stage, StandsAt};

use crate::opening::open;
use office_desk::Desk;
use office_store::Fault;
use office_store::laws::law_of_one_database;
use sqlite::{Connection, Error, FileStore, Files, Leftover};
use sqlite_disk::Disk;
use std::alloc::Global;

/// Why no office was found in two files, with what is left of them.
pub enum FindStop<D: Disk> {
    /// The files were not opened.
    Files(Error, Leftover<D>),
    /// The office in them was not opened.
    Office(Fault, Connection<FileStore<D>>),
}

// It is written out, so that a caller does not prove again how each part is dropped.
impl<D: Disk + Drop> Drop for FindStop<D> {
    fn drop(self) {
        match self {
            FindStop::Files(_error, _rest) => {}
            FindStop::Office(_fault, _conn) => {}
        }
    }
}

/// Opens the office behind a connection.
fn found_at<D: Disk + Drop>(
    alloc: Global,
    conn: Connection<FileStore<D>>,
) -> Result<Desk<FileStore<D>>, FindStop<D>>
    requires { conn.in_transaction ≡ false }
    ensures found { NeverLies D.Disk → IfOk result (λ desk. (s : State)
        → RestsAt (file_state conn) s → IsAt over_files s desk) }
    ensures why { NeverLies D.Disk → IfErr result (λ stop. (files : Files D) (s : State)
        → RestsAt (file_state conn) s → StopsFinding files s stop) }
{
    law_of_one_database();
    match Desk::open(alloc, conn) {
        Ok(desk) => Ok(desk),
        Err((fault, conn)) => Err(FindStop::Office(fault, conn)),
    }
}

/// Opens the office in two files. It is at the state for which the files stood. If its certificates
/// are texts, the opening fails only for lack of memory, at a limit of the format, or since a call
/// of the disk or of the database failed: the files are never refused as no database, as damaged or
/// as of another version.
pub fn find<D: Disk + Drop>(
    alloc: Global,
    files: Files<D>,
) -> Result<Desk<FileStore<D>>, FindStop<D>>
    requires log { IsTrue (D.Disk.is_usable files.log) }
    requires db { IsTrue (D.Disk.is_usable files.db) }
    ensures found { NeverLies D.Disk → IfOk result (λ desk. (stage : Stage) (s : State)
        → StandsAt stage (image_of D.Disk files) s → IsAt over_files s desk) }
    ensures why { NeverLies D.Disk → IfErr result (λ stop. (stage : Stage) (s : State)
        → StandsAt stage (image_of D.Disk files) s → StopsFinding files s stop) }
{
    match open(alloc, files) {
        Ok(conn) => found_at(alloc, conn),
        Err((error, rest)) => Err(FindStop::Files(error, rest)),
    }
}

/// Files that stand for an office are not refused, and neither is the office in them: the database
/// and the desk fail to open them only for lack of memory, at a limit, or since a call failed.
pub fn law_of_openings<D: Disk>()
    ensures files { AreNotRefused D.Disk }
    ensures office { IsNotRefused D.Disk }
{}
