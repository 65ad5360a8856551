//! That the certificates of an office are texts.
ghost use Rattle.std.specs.Prelude.{List, ℕ, IsUtf8};
ghost use Rattle.office_rules.specs.Acts.{after};
ghost use Rattle.office_rules.specs.Forms.{AreWellFormed};
ghost use Rattle.office_rules.specs.Sound.{IsSound};
ghost use Rattle.office_rules.specs.State.{State, empty_state};
ghost use Rattle.office_rules.specs.declared.act.Act.{Act};
ghost use Rattle.office_evidence.specs.Parsed.{Certificate, IsTextOf};
ghost use Rattle.office_evidence.specs.Texts.{AreCertificatesUtf8};

/// The text of a certificate is UTF-8. Acts leave each certificate of a sound office so, and each
/// of an office that was new is UTF-8: a table of certificates reads back as it was written.
pub fn law_of_certificate_texts()
    ensures text { (c : Certificate) (text : List ℕ) → IsTextOf c text → IsUtf8 text }
    ensures kept { (s : State) (acts : List Act) → IsSound s → AreWellFormed acts
        → AreCertificatesUtf8 s.office → AreCertificatesUtf8 (after s acts).office }
    ensures new_office { (acts : List Act) → AreWellFormed acts
        → AreCertificatesUtf8 (after empty_state acts).office }
{}
