//! That the entries of an office and the certificates of its runs are true of what the office did.
ghost use Rattle.std.specs.Prelude.{◌≡◌, ◌<◌, ℕ, List, length, Some};
ghost use Rattle.std.specs.FinMap.{get};
ghost use Rattle.office_rules.specs.Acts.{after};
ghost use Rattle.office_rules.specs.Forms.{AreWellFormed};
ghost use Rattle.office_rules.specs.Sound.{IsSound};
ghost use Rattle.office_rules.specs.State.{Office, State, empty_state};
ghost use Rattle.office_rules.specs.declared.act.Act.{Act};
ghost use Rattle.office_rules.specs.declared.entry.Entry.{Entry};
ghost use Rattle.office_evidence.specs.Truth.{IsTrueCertificate, IsTrueEntry};

/// An entry, once it is written, and the certificate of a run stay as they are over any further
/// acts from a sound state.
pub fn law_of_lasting_evidence()
    ensures entry { (s : State) (acts : List Act) (run r : ℕ) (e : Entry) → IsSound s
        → AreWellFormed acts → get s.office.entries (run, r) ≡ Some e
        → get (after s acts).office.entries (run, r) ≡ Some e }
    ensures certificate { (s : State) (acts : List Act) (run : ℕ) (text : List ℕ) → IsSound s
        → AreWellFormed acts → get s.office.certificates run ≡ Some text
        → get (after s acts).office.certificates run ≡ Some text }
{}

/// Each entry is true of the step that wrote it (`IsTrueEntry`), also while its run is open. What
/// it says is what the line of a certificate says, and it is true in the same sense
/// (`IsTrueLine`): see [`law_of_a_true_certificate`].
pub fn law_of_true_entries()
    ensures new_office { (acts : List Act) (office : Office) (run r : ℕ) (e : Entry)
        → AreWellFormed acts → office ≡ (after empty_state acts).office
        → get office.entries (run, r) ≡ Some e → IsTrueEntry empty_state acts run r e }

    // From any other sound state: the entries of the runs that were opened since.
    ensures since { (s : State) (acts : List Act) (office : Office) (run r : ℕ) (e : Entry)
        → IsSound s → AreWellFormed acts → office ≡ (after s acts).office
        → length s.office.runs < run → get office.entries (run, r) ≡ Some e
        → IsTrueEntry s acts run r e }
{}

/// The certificate of a run is true of what its office did, and complete. `IsTrueCertificate` has
/// the parts. An act opened the run and a later one closed it.
///
/// **True.** The entry lines are, one to one, the steps between (`AreTheSteps`). Each line is true
/// of its step (`IsTrueLine`): the class, the schedule and the confirmation are those that were
/// stored, what was ended was due and confirmed or received, no hold in force covered it, its
/// content is gone since, and ref, length and digest are those of the record, with which it was
/// added. No other content went (`NoOtherWent`). The lines of aggregations are those that the run
/// spent (`AreTheSpent`). The certificate stays.
///
/// **Complete.** The run came to each record, and one that was ready at that moment has its line
/// (`LeavesNoneOut`). One that was due for destruction, confirmed and not held then was destroyed.
///
/// The certificate is the one that its office keeps: `Desk::certificate` reports that text, and
/// `Desk::perform_all` says that this office is the one after the acts.
pub fn law_of_a_true_certificate()
    ensures new_office { (acts : List Act) (office : Office) (run : ℕ) (text : List ℕ)
        → AreWellFormed acts → office ≡ (after empty_state acts).office
        → get office.certificates run ≡ Some text → IsTrueCertificate empty_state acts run text }

    // From any other sound state: the certificates of the runs that were opened since.
    ensures since { (s : State) (acts : List Act) (office : Office) (run : ℕ) (text : List ℕ)
        → IsSound s → AreWellFormed acts → office ≡ (after s acts).office
        → length s.office.runs < run → get office.certificates run ≡ Some text
        → IsTrueCertificate s acts run text }
{}
