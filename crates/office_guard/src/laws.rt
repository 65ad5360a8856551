//! What acts behind a keeper are, and what an office is whose acts were all done by right, as laws
//! that are proved: calls of these do nothing.
ghost use Rattle.std.specs.Prelude.{◌≡◌, ◌≢◌, ◌⊎◌, ◌<◌, ℕ, ℤ, List, ◌++◌, length, Some, slice_get, false, true};
ghost use Rattle.std.specs.FinMap.{get};
ghost use Rattle.office_access.specs.Deeds.{AllPermitted, Deed, IsSignedIn, acts_of};
ghost use Rattle.office_access.specs.Permits.{PermitsResumption};
ghost use Rattle.office_access.specs.Settings.{Settings, signs};
ghost use Rattle.office_access.specs.Signing.{signature_of};
ghost use Rattle.office_access.specs.TwoPeople.{AllKeepApart};
ghost use Rattle.office_access.specs.declared.person.SignIn.{SignIn};
ghost use Rattle.office_desk.specs.Guarded.{are_permitted};
ghost use Rattle.office_evidence.specs.History.{IsOpenedAt, before};
ghost use Rattle.office_evidence.specs.Truth.{IsTrueEntry, IsTrueLine};
ghost use Rattle.office_evidence.specs.declared.parsed.EntryLine.{EntryLine};
ghost use Rattle.office_guard.specs.ByRights.{AllByRights, AreOfTwoNames, OpenersDoNotCarryOut, steps_by};
ghost use Rattle.office_guard.specs.Permitted.{IsDenied, deeds_of, is_permitted, permitted_to};
ghost use Rattle.office_guard.specs.SignedLines.{IsSignedLine, IsSignedOpening};
ghost use Rattle.office_records.specs.Disposal.{confirmation_of};
ghost use Rattle.office_records.specs.Lists.{numbered};
ghost use Rattle.office_records.specs.declared.head.Confirmation.{Confirmation};
ghost use Rattle.office_rules.specs.Acts.{after};
ghost use Rattle.office_rules.specs.Forms.{AreWellFormed};
ghost use Rattle.office_rules.specs.Runs.{after_steps, open_run, opened_by};
ghost use Rattle.office_rules.specs.Sound.{IsSound, IsSoundOffice};
ghost use Rattle.office_rules.specs.State.{State, empty_state};
ghost use Rattle.office_rules.specs.declared.act.Act.{Act};
ghost use Rattle.office_rules.specs.declared.act.Act.TheVariants.{RunStep};
ghost use Rattle.office_rules.specs.declared.entry.Entry.{Entry};
ghost use Rattle.office_rules.specs.declared.run.Run.{Run};

/// Each act that `Desk::perform_guarded` does behind the keeper of a name was permitted to the name
/// in the office in which it was done. If there is one that is not permitted, it is denied in the
/// office after those before it, and neither it nor any behind it is done. Deeds of several
/// requests, one after another, are such deeds again.
pub fn law_of_permitted_acts()
    ensures each { (settings : Settings) (today : ℤ) (name : SignIn) (s : State) (acts : List Act)
        → AllPermitted s (deeds_of settings today name (permitted_to settings today name s acts)) }
    ensures all { (settings : Settings) (today : ℤ) (name : SignIn) (s : State) (acts : List Act)
        → are_permitted (is_permitted settings today name) s acts ≡ true
        → permitted_to settings today name s acts ≡ acts }
    ensures denied { (settings : Settings) (today : ℤ) (name : SignIn) (s : State) (acts : List Act)
        → are_permitted (is_permitted settings today name) s acts ≡ false
        → IsDenied settings today name s acts }
    ensures joined { (s : State) (deeds more : List Deed)
        → AllPermitted s deeds → AllPermitted (after s (acts_of deeds)) more
        → AllPermitted s (deeds ++ more) }
{}

/// Suppose that a new office did deeds, each permitted to its name in its state. Then whoever a line
/// of a certificate names as who confirmed the record is what a name signs that signed in, for the
/// confirmation of that record, before the step; and whoever the certificate names as who opened the
/// run is what the name signs that signed in for the opening. `IsTrueLine` and `IsOpenedAt` are
/// what `law_of_a_true_certificate` says of each line and of the opening.
pub fn law_of_signed_certificates()
    ensures lines { (deeds : List Deed) (day : ℤ) (place : ℕ) (line : EntryLine)
        → AllPermitted empty_state deeds
        → IsTrueLine empty_state (acts_of deeds) day place line → IsSignedLine deeds place line }
    ensures openings { (s : State) (deeds : List Deed) (place run : ℕ) (day : ℤ) (by : List ℕ)
        → AllPermitted s deeds → IsOpenedAt s (acts_of deeds) place run day by
        → IsSignedOpening deeds place day by }
{}

/// An act that was permitted was done by right. So are the steps of a resumption: whoever may resume
/// the open run may take each of its steps, as many as there are. `Desk::resume` does these steps
/// (`reached`; `law_of_resumption` has where they end). Deeds of several requests, one after
/// another, are such deeds again.
pub fn law_of_acts_by_right()
    ensures permitted { (s : State) (deeds : List Deed)
        → AllPermitted s deeds → AllByRights s deeds }
    ensures resumed { (settings : Settings) (today : ℤ) (name : SignIn) (s : State) (n : ℕ)
        → PermitsResumption settings s.office name
        → AllByRights s (steps_by settings today name n) }
    ensures reached { (settings : Settings) (today : ℤ) (name : SignIn) (s : State) (n : ℕ)
        → after s (acts_of (steps_by settings today name n)) ≡ after_steps s n }
    ensures joined { (s : State) (deeds more : List Deed)
        → AllByRights s deeds → AllByRights (after s (acts_of deeds)) more
        → AllByRights s (deeds ++ more) }
{}

/// `law_of_signatures`, also if runs were resumed: whoever an act states did it is what the name
/// signs that signed in. And each confirmation that the office has was there before, or one of the
/// deeds gave it, on that day and for that action, and its `by` is what the deed's name signs.
pub fn law_of_signatures_by_right()
    ensures acts { (s : State) (deeds : List Deed) (place : ℕ) (deed : Deed) (by : List ℕ)
        → AllByRights s deeds → slice_get deeds place ≡ Some deed
        → signature_of deed.act ≡ Some by → signs deed.settings deed.name ≡ by }
    ensures confirmations { (s : State) (deeds : List Deed) (r : ℕ) (it : Confirmation)
        → AllByRights s deeds
        → confirmation_of (after s (acts_of deeds)).office.tree r ≡ Some it
        → (confirmation_of s.office.tree r ≡ Some it) ⊎ IsSignedIn deeds r it }
{}

/// `law_of_signed_certificates`, also if runs were resumed.
pub fn law_of_certificates_by_right()
    ensures lines { (deeds : List Deed) (day : ℤ) (place : ℕ) (line : EntryLine)
        → AllByRights empty_state deeds
        → IsTrueLine empty_state (acts_of deeds) day place line → IsSignedLine deeds place line }
    ensures openings { (s : State) (deeds : List Deed) (place run : ℕ) (day : ℤ) (by : List ℕ)
        → AllByRights s deeds → IsOpenedAt s (acts_of deeds) place run day by
        → IsSignedOpening deeds place day by }
{}

/// `law_of_two_people`, also if runs were resumed: under settings with the rule that whoever confirmed
/// does not open, no entry of a run that one of the deeds opened names the opener of that run as who
/// confirmed the record.
pub fn law_of_two_people_by_right()
    ensures { (s : State) (deeds : List Deed) (run r : ℕ) (it : Run) (e : Entry)
        → IsSoundOffice s.office → IsSoundOffice (after s (acts_of deeds)).office
        → AllByRights s deeds → AllKeepApart deeds
        → length s.office.runs < run
        → numbered (after s (acts_of deeds)).office.runs run ≡ Some it
        → get (after s (acts_of deeds)).office.entries (run, r) ≡ Some e
        → e.confirmed_by ≢ it.by }
{}

/// If each deed was done by right under settings with the rule that whoever opened a run does not
/// carry it out, no step of a run was taken, by an act or by a resumption, by a name that signs what
/// the opener of that run signed. `steps` goes by whom the office has as the opener, `openings` by
/// the deed that opened the run, and `entries` by what `law_of_true_entries` says of each entry.
pub fn law_of_openers()
    ensures steps { (s : State) (deeds : List Deed) (place run : ℕ) (deed : Deed)
        → AllByRights s deeds → OpenersDoNotCarryOut deeds
        → slice_get deeds place ≡ Some deed → deed.act ≡ RunStep
        → open_run (before s (acts_of deeds) place).office ≡ Some run
        → signs deed.settings deed.name
        ≢ opened_by (before s (acts_of deeds) place).office run }
    ensures openings { (s : State) (deeds : List Deed) (opening place run : ℕ) (day : ℤ)
        (by : List ℕ) (deed : Deed) → IsSound s → AreWellFormed (acts_of deeds)
        → AllByRights s deeds → OpenersDoNotCarryOut deeds
        → IsOpenedAt s (acts_of deeds) opening run day by → opening < place
        → slice_get deeds place ≡ Some deed → deed.act ≡ RunStep
        → open_run (before s (acts_of deeds) place).office ≡ Some run
        → signs deed.settings deed.name ≢ by }
    ensures entries { (s : State) (deeds : List Deed) (run r : ℕ) (e : Entry)
        → IsSound s → AreWellFormed (acts_of deeds)
        → AllByRights s deeds → OpenersDoNotCarryOut deeds
        → (it : IsTrueEntry s (acts_of deeds) run r e)
        → AreOfTwoNames deeds it.opening it.place }
{}
