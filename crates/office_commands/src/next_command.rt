//! What one run of the program leaves of an office's files is what the next one opens.
ghost use Rattle.std.specs.Prelude.{IsTrue};
ghost use Rattle.sqlite_store.specs.FileStore.{view};
ghost use Rattle.sqlite_trees.specs.View.{IsClean};
ghost use Rattle.office_commands.specs.Reopening.{ClosedFilesKeepOffice, CommandLeavesOffice, CrashContainsOffice, GateLeavesOffice, ServiceLeavesOffice, WholeIsOffice};

use office_rules::laws::resumption::law_of_resumption;
use office_rules::laws::soundness::law_of_soundness;
use office_store::laws::law_of_one_database;
use sqlite::{Connection, FileStore};
use sqlite_disk::Disk;

/// Where the last commit of a connection is an office's, the files that its closing left hold that
/// office, as they read now and after any crash. So the next opening of the files finds what is
/// said here: it is [`crate::run_opened`]'s `IsOpenedFrom`, `rest`.
pub fn law_of_the_next_command<D: Disk + Drop>()
    ensures closed { ClosedFilesKeepOffice D.Disk }
{}

/// Where the process was killed while it had a connection of which a crash leaves an office
/// whatever happens, the files hold one of those offices. The connection is consumed for this: the
/// database promises that a store is numbered only of one that it gives back. A crash has what the
/// connection left, whether it was consumed or not.
pub fn law_of_a_killed_command<D: Disk + Drop>(conn: Connection<FileStore<D>>) -> FileStore<D>
    ensures crashed { IsClean (view result) → CrashContainsOffice conn }
    ensures numbered { IsClean (view result) → IsTrue (view conn.store).is_numbered }
{
    conn.into_store()
}

/// The headline from one command of the program to the next. Files that hold an office at a state,
/// and over which a command was run ([`crate::run_opened`] promises `RunsInFiles`), hold an office
/// again, at the state at which the command leaves it (`IsLeftBy`): of `apply`, after the acts whose
/// answers were written and at most one more; of `import`, after the rows whose lines were written
/// and at most one more; if either ended by `File`, as when standard output could not be written,
/// the answers or lines of what was done are those whose first bytes went out; of `resume`, after
/// some steps of the run; of each other command, at the same state.
///
/// `IsLeftBy` names the exit and the printed text too. By exit 0, `apply` did all acts of the text,
/// `import` added all rows, and `resume` closed the run whose `certificate` line it printed. If
/// `resume` ended by fault 30, the run is still open. If the office was not opened, nothing was done
/// and nothing printed, by fault 30 or 31; by 33 only if a certificate in the office is no text, and
/// by 34 never (`StopsOffice`). A service
/// ([`crate::serve_opened`] promises `ServesInFiles`) leaves it after some acts (`IsServedTo`). A
/// gate ([`crate::gate_opened`] promises `GatesInFiles`) leaves it where it came by what was
/// permitted alone (`IsGatedTo`): each act was permitted to the name that signed in, in the office in
/// which the act was done.
/// It is so where the command ended and the files were closed, as they read now and after any crash,
/// and where they could not be closed, after any crash; of a store that the failed closing shut it
/// is so only if that is numbered, which the database does not say. Files that were not opened hold
/// the office that they held, where each page had its sum, if the file has sums (`StaysOffice`).
/// Of a command that was killed, and so has no end, it says nothing: what that leaves is
/// [`law_of_a_killed_command`]'s.
///
/// What is concluded of the files is what is asked of them, and more (`whole`), so the law holds
/// for any number of commands after one another. `text` is what the reader of ACTS or CSV has, where
/// it reports that; the other commands read nothing.
pub fn law_of_each_command<D: Disk + Drop>()
    ensures command { CommandLeavesOffice D.Disk }
    ensures service { ServiceLeavesOffice D.Disk }
    ensures gate { GateLeavesOffice D.Disk }
    ensures whole { WholeIsOffice }
{
    law_of_one_database();
    law_of_soundness();
    law_of_resumption();
}
