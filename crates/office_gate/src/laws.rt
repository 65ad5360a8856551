//! What serving visitors means, as laws that are proved: calls of these do nothing.
ghost use Rattle.std.specs.Prelude.{◌≡◌, List, None, Some};
ghost use Rattle.office_access.specs.Deeds.{AllPermitted};
ghost use Rattle.office_access.specs.Permits.{PermitsResumption};
ghost use Rattle.office_access.specs.declared.denial.Denial.{Denial};
ghost use Rattle.office_access.specs.Settings.{Settings};
ghost use Rattle.office_gate.specs.ByDeeds.{CameByDeeds};
ghost use Rattle.office_gate.specs.InForce.{IsInForceSince};
ghost use Rattle.office_gate.specs.Paths.{path_denial};
ghost use Rattle.office_gate.specs.Performing.{denial_in, permitted_acts_of};
ghost use Rattle.office_gate.specs.Sessions.{CameByRights};
ghost use Rattle.office_gate.specs.Visitors.{Visitor};
ghost use Rattle.office_guard.specs.Permitted.{IsDenied, deeds_of};
ghost use Rattle.office_http.specs.declared.path_request.PathRequest.TheVariants.{Resume};
ghost use Rattle.office_rules.specs.State.{Office, State};
ghost use Rattle.office_rules.specs.declared.act.Act.{Act};

/// The acts that are performed for a visitor are deeds of the name that signed in, each permitted to
/// the name in the office after those before it. If a denial is reported, the act that comes next is
/// not permitted to the name. And a run is resumed for a visitor only if that is permitted to the
/// name.
pub fn law_of_visits()
    ensures performed { (v : Visitor) (s : State) (acts : List Act)
        → AllPermitted s (deeds_of v.settings v.today v.name (permitted_acts_of v s acts)) }
    ensures denied { (v : Visitor) (s : State) (acts : List Act) (it : Denial)
        → denial_in v s acts ≡ Some it → IsDenied v.settings v.today v.name s acts }
    ensures resumed { (v : Visitor) (s : Office)
        → path_denial v s Resume ≡ None → PermitsResumption v.settings s v.name }
{}

/// If the requests of a gate led from one state to another, acts and resumptions of runs in any
/// order, deeds led there that were each done by right, under settings in force. So what
/// `law_of_signatures_by_right`, `law_of_certificates_by_right`, `law_of_two_people_by_right` and
/// `law_of_openers` say of such deeds holds of the office.
pub fn law_of_gated_offices()
    ensures { (first : Settings) (s t : State) → CameByRights (IsInForceSince first) s t
        → CameByDeeds (IsInForceSince first) s t }
{}
