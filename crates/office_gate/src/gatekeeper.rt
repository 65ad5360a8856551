//! Who serves the connections of a gate.
ghost use Rattle.office_access.specs.Settings.{Settings};
ghost use Rattle.office_gate.specs.Sessions.{LeavesGated};
ghost use Rattle.office_wire.specs.Connections.{ServesAllBy};

use crate::access::{Access, SettingsText};
use crate::sessions::serve_visits;
use office_desk::Desk;
use office_wire::{ConnectionSource, Service, Serving};
use sqlite::Alter;

/// Who serves the connections of a gate, for the names that a proxy states.
pub trait Gatekeeper {
    /// The settings in force.
    ghost settings: { Self → Settings };

    /// Serves that many connections of a source, one after another, and fewer only if the desk was
    /// poisoned; one that fails counts too. What a request asks for is done only as far as the name
    /// may have it, under settings that are in force then.
    fn serve<C: ConnectionSource, S: Alter>(
        &mut self,
        serving: Serving<'_>,
        source: &mut C,
        count: u32,
        desk: &mut Desk<S>,
    ) -> Service
        ensures { ServesAllBy (LeavesGated S.Store (settings self.old)) S.Store count result desk.old
            desk.new };
}

impl<T: SettingsText> Gatekeeper for Access<T> {
    ghost settings = { λ access. access.gate.policy };

    fn serve<C: ConnectionSource, S: Alter>(
        &mut self,
        serving: Serving<'_>,
        source: &mut C,
        count: u32,
        desk: &mut Desk<S>,
    ) -> Service {
        serve_visits(serving, source, self, count, desk)
    }
}
