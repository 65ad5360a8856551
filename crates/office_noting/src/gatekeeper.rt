//! A gate that notes what it does, as the keeper of connections.
use crate::book::Watch;
use crate::sessions::{NotingGate, serve_noted_visits};
use office_desk::Desk;
use office_gate::{Gatekeeper, SettingsText};
use office_wire::{ConnectionSource, Service, Serving};
use sqlite::Alter;
use std::io::Write;

impl<T: SettingsText, W: Write, K: Watch> Gatekeeper for NotingGate<T, W, K> {
    ghost settings = { λ gate. gate.access.gate.policy };

    fn serve<C: ConnectionSource, S: Alter>(
        &mut self,
        serving: Serving<'_>,
        source: &mut C,
        count: u32,
        desk: &mut Desk<S>,
    ) -> Service {
        serve_noted_visits(serving, source, self, count, desk)
    }
}
