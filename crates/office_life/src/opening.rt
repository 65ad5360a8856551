//! The two files of an office are opened.
ghost use Rattle.std.specs.Prelude.{◌≡◌, ◌⊎◌, IfErr, IfOk, IsTrue, false};
ghost use Rattle.sqlite_trees.specs.Tree.{Trees};
ghost use Rattle.sqlite_wal.specs.Files.{outcomes};
ghost use Rattle.sqlite_wal.specs.Recovery.{Image};
ghost use Rattle.sqlite.specs.Files.{file_state, image_of};
ghost use Rattle.sqlite.specs.Held.{state};
ghost use Rattle.office_rules.specs.State.{State};
ghost use Rattle.office_life.specs.Opening.{AreUnopened};
ghost use Rattle.office_life.specs.Standing.{IsKnownAt, NeverLies, RestsAt, Stage, StandsAt, outcomes_left, remains_of, stage_after};

use crate::reports::Remains;
use sqlite::{Alter, Connection, Error, FileStore, Files, Leftover, Options};
use sqlite_disk::Disk;
use std::alloc::Global;

/// How many pages are kept in memory.
const PAGES: usize = 256;

/// A connection that is open has its last commit, and a crash leaves just that.
fn law_of_the_last_commit<S: Alter>(conn: &Connection<S>)
    ensures only { IsTrue (state S.Store conn.now).is_open → (db : Trees)
        → (state S.Store conn.now).may_leave db → db ≡ (state S.Store conn.now).committed.trees }
    ensures stays { IsTrue (state S.Store conn.now).is_open
        → (state S.Store conn.now).may_leave (state S.Store conn.now).committed.trees }
{
    conn.schema();
}

/// Names what is known of files that were not opened.
pub fn remains_by<D: Disk>(rest: &Leftover<D>) -> Remains
    ensures { result ≡ remains_of rest.now }
{
    match rest {
        Leftover::Files(_) => Remains::Same,
        Leftover::Unopened(_) => Remains::Begun,
        Leftover::Store(_) => Remains::Unread,
    }
}

/// Opens the two files of an office, or returns the error and what is left of them. Files that
/// stand for an office are not refused: memory ran out, a call of the disk failed, or a limit was
/// met.
pub fn open<D: Disk + Drop>(
    alloc: Global,
    files: Files<D>,
) -> Result<Connection<FileStore<D>>, (Error, Leftover<D>)>
    requires log { IsTrue (D.Disk.is_usable files.log) }
    requires db { IsTrue (D.Disk.is_usable files.db) }
    ensures idle { IfOk result (λ conn. conn.in_transaction ≡ false) }
    ensures found { NeverLies D.Disk → IfOk result (λ conn. (stage : Stage) (s : State)
        → StandsAt stage (image_of D.Disk files) s → RestsAt (file_state conn) s) }
    ensures stopped { NeverLies D.Disk → IfErr result (λ e. AreUnopened files e.1 e.0) }
    ensures spared { NeverLies D.Disk → IfErr result (λ e. (stage : Stage)
        → IsKnownAt stage (remains_of e.1) → (image : Image) → outcomes_left e.1 image
        → outcomes D.Disk files.log files.db image ⊎ ((s : State)
        → StandsAt stage (image_of D.Disk files) s
        → ∥ StandsAt (stage_after stage (remains_of e.1)) image s ∥₁)) }
{
    let mut options = Options::new(1);
    options.cache_pages = PAGES;
    let conn = Connection::open_files(alloc, files, options)?;
    law_of_the_last_commit(&conn);
    Ok(conn)
}
