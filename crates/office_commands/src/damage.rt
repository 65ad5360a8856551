//! Damage of an office's two files is found from their opening on.
ghost use Rattle.sqlite_disk.specs.Modelled.{calls_of, start_of};
ghost use Rattle.office_commands.specs.Damage.{CommandFindsDamage, GateFindsDamage, IsCleanOrCollided, ServiceFindsDamage};

use crate::office_files::FilesLeft;
use sqlite_disk::{Calls, Modelled, Start};

/// Over files whose calls are recorded ([`sqlite::FileFrom`] has them so): if the database took no
/// wrong answer of the disk as true until it had opened the two files, a command or a service over
/// its connection took none to its end, so that each of its promises holds; or a digest of 64 bits
/// collided, under a key that is drawn as the files are opened. For each later read is tested
/// against a digest. One that fails its test is a failed call, which is fault 31 if it is not made
/// good.
///
/// It says nothing of damage before the opening or between two runs, of which the opening finds
/// what makes the pages unsound, and nothing of bytes that no call reads again.
pub fn law_of_found_damage<C: Calls + Drop, S: Start>(left: &FilesLeft<Modelled<C, S>>)
    // No wrong answer was taken as true in files of which each read is tested.
    ensures left { IsCleanOrCollided (start_of S.Start) (λ it. C.Calls.history (calls_of it))
        left.now }

    // A command over the connection that opened them took none either, and keeps its promises.
    ensures command { CommandFindsDamage (start_of S.Start) (λ it. C.Calls.history (calls_of it))
        left.now }

    // So did a service.
    ensures service { ServiceFindsDamage (start_of S.Start) (λ it. C.Calls.history (calls_of it))
        left.now }

    // And a gate.
    ensures gate { GateFindsDamage (start_of S.Start) (λ it. C.Calls.history (calls_of it))
        left.now }
{}
