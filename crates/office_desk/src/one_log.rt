//! Offices that do the acts of one log, as a law that is proved: a call of it does nothing.
ghost use Rattle.office_desk.specs.OneLog.{OneLog};

use sqlite::Alter;

/// Offices at one state that do the same acts, of which each answer came, give the same answers and
/// are at one state again (`alike`). What it asks of a desk is what `Desk::perform_all` promises at
/// `Ok` if the disk is clean: its clauses `answered` and `leaves`. Acts that are done in two lists
/// have the answers and the end of the joined list (`joined`). So offices that do the entries of one
/// log in order, cut into lists as each likes, are one office.
pub fn law_of_one_log<S: Alter>()
    ensures { OneLog S.Store }
{}
