//! The two files of an office are closed.
ghost use Rattle.std.specs.Prelude.{◌≡◌, IfErr, IfOk, IsTrue, false};
ghost use Rattle.sqlite_store.specs.FileStore.{recovers, view};
ghost use Rattle.sqlite_trees.specs.Tree.{Trees};
ghost use Rattle.sqlite_wal.specs.Files.{outcomes};
ghost use Rattle.sqlite_wal.specs.Recovery.{Image};
ghost use Rattle.sqlite.specs.Files.{file_state};
ghost use Rattle.sqlite.specs.State.{HasCleanDisk};
ghost use Rattle.office_life.specs.Standing.{NeverLies, outcomes_left};
ghost use Rattle.office_life.specs.Tables.{ContainTables};
ghost use Rattle.office_life.specs.Told.{AreClosed, IsShut};

use crate::reports::Remains;
use sqlite::{Connection, FileStore, Files, Leftover};
use sqlite_disk::Disk;
use sqlite_trees::store::Store;

/// Copies the log into the database file, if the store is open. Returns false if that shut the
/// store.
fn copy<D: Disk>(store: &mut FileStore<D>) -> bool
    ensures shut { NeverLies D.Disk → result ≡ false → IsShut store.old store.new }
    ensures fewer { (db : Trees) → recovers store.new db → recovers store.old db }
    ensures numbered { NeverLies D.Disk → IsTrue result
        → IsTrue (view store.old).is_numbered → IsTrue (view store.new).is_numbered }
{
    if store.is_broken() {
        return true;
    }
    match store.checkpoint() {
        Ok(()) => true,
        Err(_) => !store.is_broken(),
    }
}

/// Closes a connection, and returns its files; or the store over them, if the closing failed and
/// shut it.
fn files_of<D: Disk + Drop>(conn: Connection<FileStore<D>>) -> Result<Files<D>, FileStore<D>>
    ensures clean { NeverLies D.Disk → HasCleanDisk (file_state conn) }
    ensures shut { NeverLies D.Disk → IfErr result (λ store. IsShut conn.store store) }
    ensures tables { NeverLies D.Disk → IfOk result (λ files. (image : Image)
        → outcomes D.Disk files.log files.db image
        → ∥ ((db : Trees) × (file_state conn).may_leave db × ContainTables image db) ∥₁) }
{
    let mut store = conn.into_store();
    if copy(&mut store) {
        Ok(store.close())
    } else {
        Err(store)
    }
}

/// Closes a connection, whatever became of it. Returns what is known of its files, and what is left
/// of them: the two files, or the store that the closing shut.
pub fn close<D: Disk + Drop>(conn: Connection<FileStore<D>>) -> (Remains, Leftover<D>)
    ensures clean { NeverLies D.Disk → HasCleanDisk (file_state conn) }
    ensures closed { NeverLies D.Disk
        → AreClosed (λ store. store ≡ conn.store) result.0 result.1 }
    ensures tables { NeverLies D.Disk → result.0 ≡ Remains.Held → (image : Image)
        → outcomes_left result.1 image
        → ∥ ((db : Trees) × (file_state conn).may_leave db × ContainTables image db) ∥₁ }
{
    match files_of(conn) {
        Ok(files) => (Remains::Held, Leftover::Files(files)),
        Err(store) => (Remains::Shut, Leftover::Store(store)),
    }
}
