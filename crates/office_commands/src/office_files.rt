//! The file of an office, by what the database returned as it opened it: a command is run on the
//! office in it, and it is closed.
ghost use Rattle.std.specs.Prelude.{◌≡◌, ℕ, Err, IfErr, IfSome, IsTrue, List, Some};
ghost use Rattle.sqlite_std_file.specs.File.{IsFresh};
ghost use Rattle.sqlite_trees.specs.Tree.{Trees};
ghost use Rattle.sqlite_wal.specs.Files.{image_at};
ghost use Rattle.sqlite.specs.Files.{file_state};
ghost use Rattle.sqlite.specs.Held.{state};
ghost use Rattle.office_command_line.specs.Orders.{apply, command};
ghost use Rattle.office_commands.specs.Calling.{Exits};
ghost use Rattle.office_commands.specs.Files.{AppliesInFiles, IsLeftOf, IsLeftShielded, RunsInFiles};
ghost use Rattle.office_commands.specs.OpenResult.{IsOpenResult};
ghost use Rattle.office_commands.specs.Tables.{SparesTables};
ghost use Rattle.office_commands.specs.declared.office_files.FilesLeft.TheVariants as files;

use crate::apply::apply_text;
use crate::command::run_on;
use crate::exit::Exit;
use crate::exit_line::report;
use office_command_line::Order;
use office_store::Fault;
use sqlite::{Alter, Connection, Error, FileFrom, FileStore, Files, Leftover, Start};
use sqlite_disk::Disk;
use sqlite_trees::error::StoreError;
use sqlite_trees::store::Store;
use std::alloc::Global;
use std::io::{Read, Write};

/// What [`Connection::open_from`] returns: a connection to two files; or an error, and what is left
/// of them, unless the system refused them.
pub type Opened<S> = Result<
    Connection<FileStore<FileFrom<S>>>,
    (Error, Option<Leftover<FileFrom<S>>>),
>;

/// What is left of an office's two files, the database file and its log, once a command is done.
pub enum FilesLeft<D: Disk> {
    /// What the database gave back, since they were not opened; nothing if the system refused them.
    Unopened(Option<Leftover<D>>),
    /// The two files: the last commit is in the database file, whatever becomes of the log.
    Closed(Files<D>),
    /// The store over them, and why the log was not copied into the database file: both files are
    /// needed.
    Unclosed(FileStore<D>, StoreError),
}

// It is written out, so that a caller does not prove again how each part is dropped.
impl<D: Disk + Drop> Drop for FilesLeft<D> {
    fn drop(self) {
        match self {
            FilesLeft::Unopened(_left) => {}
            FilesLeft::Closed(_files) => {}
            FilesLeft::Unclosed(_store, _why) => {}
        }
    }
}

/// A connection that is open has its last commit, and a crash leaves just that.
pub(crate) fn law_of_the_last_commit<S: Alter>(conn: &Connection<S>)
    ensures only { IsTrue (state S.Store conn.now).is_open → (db : Trees)
        → (state S.Store conn.now).may_leave db → db ≡ (state S.Store conn.now).committed.trees }
    ensures stays { IsTrue (state S.Store conn.now).is_open
        → (state S.Store conn.now).may_leave (state S.Store conn.now).committed.trees }
{
    conn.schema();
}

/// Closes a connection, so that the database file alone has every commit: the calls of the kit's
/// `close_files`, one by one, so that what each says of the store is known here.
pub(crate) fn close<D: Disk + Drop>(conn: Connection<FileStore<D>>) -> FilesLeft<D>
    ensures left { IsLeftOf conn result }
    ensures shield { (file_state conn).IsShielded → IsLeftShielded result }
{
    law_of_the_last_commit(&conn);
    let mut store = conn.into_store();
    store.rollback();
    match store.checkpoint() {
        Ok(()) => FilesLeft::Closed(store.close()),
        Err(why) => FilesLeft::Unclosed(store, why),
    }
}

/// What is left of files that the database refused: they keep the tables that they held.
pub(crate) fn refuse<S: Start>(
    refused: (Error, Option<Leftover<FileFrom<S>>>),
) -> FilesLeft<FileFrom<S>>
    requires { IsOpenResult IsFresh (image_at S.Start) (Err refused) }
    ensures given { result ≡ files.Unopened refused.1 }
    ensures kept { IfSome refused.1 (SparesTables (image_at S.Start)) }
{
    FilesLeft::Unopened(refused.1)
}

/// Runs a command on the office in a file, as [`run_on`] does, over the connection with which the
/// database opened the file, and closes the file. It gives the exit status, and what is left of the
/// file, which is shut when that is dropped. If the database refused the file, as one that is no
/// database's, that is fault 31.
///
/// The database promises of its answer what is asked of `opened`, where `S` stands for what the two
/// files held, and for how a crash is read. Which file was opened no clause says.
pub fn run_opened<S: Start, R: Read, W: Write, E: Write>(
    alloc: Global,
    opened: Opened<S>,
    order: &Order<'_>,
    input: &mut R,
    out: &mut W,
    err: &mut E,
) -> (u8, FilesLeft<FileFrom<S>>)
    requires { IsOpenResult IsFresh (image_at S.Start) opened }
    // A refused file is left as the database gave it back: status 3, with nothing written.
    ensures refused { IfErr opened (λ e. (result.0 ≡ 3) × (result.1 ≡ files.Unopened e.1)
        × (W.contents out.new ≡ W.contents out.old)) }

    // Over the connection the command is run, and it is closed.
    ensures runs { Exits result.0 (RunsInFiles result.1 (image_at S.Start) opened
        (command order.now) (R.remaining input.old) (W.contents out.old) (W.contents out.new)) }
{
    match opened {
        Ok(conn) => {
            law_of_the_last_commit(&conn);
            let (status, conn) = run_on(alloc, conn, order, input, out, err);
            law_of_the_last_commit(&conn);
            (status, close(conn))
        }
        Err(refused) => {
            let exit = Exit::Fault(Fault::Store);
            let _ = report(exit, err);
            (exit.status(), refuse(refused))
        }
    }
}

/// Does the acts of a text that is in memory already on the office in a file, as `apply` does those
/// of its reader, over the connection with which the database opened the file, and closes the file,
/// as [`run_opened`] does. So the text is in memory once. It gives how that ends, which is not
/// reported yet, and what is left of the file.
pub fn apply_opened<S: Start, W: Write>(
    alloc: Global,
    opened: Opened<S>,
    text: &[u8],
    out: &mut W,
) -> (Exit, FilesLeft<FileFrom<S>>)
    requires { IsOpenResult IsFresh (image_at S.Start) opened }
    // A refused file is left as the database gave it back: fault 31, with nothing written.
    ensures refused { IfErr opened (λ e. (result.0 ≡ Exit.Fault Fault.Store)
        × (result.1 ≡ files.Unopened e.1) × (W.contents out.new ≡ W.contents out.old)) }

    // The acts of the text are done in order and their answers written; or none is done.
    ensures applies { AppliesInFiles result.1 (image_at S.Start) opened text.now
        (W.contents out.old) (W.contents out.new) result.0 }

    // So does the command `apply` whose reader has this text.
    ensures runs { (file acts : List ℕ) → RunsInFiles result.1 (image_at S.Start) opened
        (apply file acts) (Some text.now) (W.contents out.old) (W.contents out.new) result.0 }
{
    match opened {
        Ok(conn) => {
            law_of_the_last_commit(&conn);
            let (exit, conn) = apply_text(alloc, conn, text, out);
            law_of_the_last_commit(&conn);
            (exit, close(conn))
        }
        Err(refused) => (Exit::Fault(Fault::Store), refuse(refused)),
    }
}
