//! Why work that reads, writes and takes memory stops.
ghost use Rattle.std.specs.Prelude.{◌≡◌};

use crate::{Io, Memory};
use std::alloc::AllocError;
use std::io::{self, ErrorKind};

/// Why work was not carried out to its end; some of what it writes may have gone out.
#[derive(Clone, Copy, PartialEq, Eq, Debug)]
pub enum Stop {
    /// A reader or a writer answered an error.
    Io,
    /// An allocation was refused. An `io::Error` of the kind `OutOfMemory` counts as that, also
    /// where a reader or a writer itself answered it.
    Memory,
}

impl From<io::Error> for Stop {
    ghost use Rattle.std.specs.Prelude.{◌≡◌, ◌↔◌};
    ghost use Rattle.std.specs.IoError.{error_kind};
    ghost use Rattle.std.specs.declared.io.ErrorKind.TheVariants.{OutOfMemory};
    ghost use Rattle.office_base.specs.declared.stop.Stop.TheVariants.{Memory};

    ghost from_gives = { λ error stop. (stop ≡ Memory) ↔ (error_kind error ≡ OutOfMemory) };

    // Each error of the kind `OutOfMemory` is `Memory`, also one that a reader or a writer itself
    // answered. Each other one is `Io`.
    fn from(error: io::Error) -> Stop {
        if error.kind() == ErrorKind::OutOfMemory {
            Stop::Memory
        } else {
            Stop::Io
        }
    }
}

impl From<Memory> for Stop {
    ghost use Rattle.std.specs.Prelude.{◌≡◌};
    ghost use Rattle.office_base.specs.declared.stop.Stop.TheVariants.{Memory};

    ghost from_gives = { λ _ stop. stop ≡ Memory };

    fn from(_memory: Memory) -> Stop {
        Stop::Memory
    }
}

impl From<AllocError> for Stop {
    ghost use Rattle.std.specs.Prelude.{◌≡◌};
    ghost use Rattle.office_base.specs.declared.stop.Stop.TheVariants.{Memory};

    ghost from_gives = { λ _ stop. stop ≡ Memory };

    fn from(_error: AllocError) -> Stop {
        Stop::Memory
    }
}

impl From<Io> for Stop {
    ghost use Rattle.std.specs.Prelude.{◌≡◌};
    ghost use Rattle.office_base.specs.declared.stop.Stop.TheVariants.{Io};

    ghost from_gives = { λ _ stop. stop ≡ Io };

    fn from(_io: Io) -> Stop {
        Stop::Io
    }
}
