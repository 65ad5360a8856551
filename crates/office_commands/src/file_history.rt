//! Any number of runs of the program over an office's files, from no file on.
ghost use Rattle.office_commands.specs.FileHistory.{FilesFollow, KilledRunsLead, ReportsContents, RunsLead};

use office_desk::fates::law_of_fates;
use office_rules::laws::resumption::law_of_resumption;
use office_rules::laws::soundness::law_of_soundness;
use office_store::laws::law_of_one_database;
use sqlite_disk::Disk;

/// What [`crate::law_of_each_command`] says of one run over files that hold an office, from no file
/// on. Files that stood for an office at a state (`StandsAt`; no file stands for the empty one), and
/// over which a command or a service was run, stand for the state at which that leaves the office
/// (`IsLeftAt`). The next run finds what the one before left, as it reads or after a crash. `killed`
/// is about a run that was killed while it had a connection.
///
/// Outside of it are a file that the system refused to open, an opening that stopped while it read
/// the tables, a second one that stopped while it made a new file, and a closing that failed and
/// shut a store that is not known to be numbered.
pub fn law_of_each_run<D: Disk + Drop>()
    ensures ran { RunsLead D.Disk }
    ensures killed { KilledRunsLead D.Disk }
{
    law_of_one_database();
    law_of_soundness();
    law_of_resumption();
}

/// The headline for any number of commands. Runs of the program, one after another over an office's
/// files, lead from the state for which the files stood, which may be no file yet, to one for which
/// they stand then: each leaves the office where [`law_of_each_run`] says (`StateHistory`). The
/// disks need not be the same. From a sound state the contents are those that the acts of the runs
/// report: one is gone exactly if an act ended its record, which no hold covered.
pub fn law_of_file_histories()
    ensures follow { FilesFollow }
    ensures contents { ReportsContents }
{
    law_of_fates();
}
