//! What a run of the program that exited leaves in the file of an office, without its log.
ghost use Rattle.office_commands.specs.FileAlone.{ClosingLeavesFileAlone, CommandLeavesFileAlone};

use office_rules::laws::resumption::law_of_resumption;
use office_rules::laws::soundness::law_of_soundness;
use office_store::laws::law_of_one_database;
use sqlite_disk::Disk;

/// A command that exited by itself: the file alone contains every act. Over files that contain an
/// office at a state a command was run that exited without a fault. Then the file contains,
/// whatever becomes of the log, the office at the state at which [`crate::law_of_each_command`]
/// says that it leaves it, as the file reads and after any crash (`IsInFileAlone`). Else the files
/// could not be closed (`IsHindered`): a call of the disk failed or a limit of the format was met,
/// or memory was refused.
///
/// `closing` says so of each connection that was open as it was closed, also after a fault and of a
/// service.
pub fn law_of_a_closed_file<D: Disk + Drop>()
    ensures closing { ClosingLeavesFileAlone D.Disk }
    ensures command { CommandLeavesFileAlone D.Disk }
{
    law_of_one_database();
    law_of_soundness();
    law_of_resumption();
}
