//! What a reader of a cut file gets, as a law that is proved: calls of it do nothing.
ghost use Rattle.std.specs.Prelude.{◌≡◌, ℕ, IfOk, List, Ok, Result, take, true};
ghost use Rattle.office_policy.specs.Readings.{AreSettingsOf, IsReading};
ghost use Rattle.office_policy.specs.declared.settings.Settings.{Settings};
ghost use Rattle.office_settings.specs.Files.{Entry, entries_of, has_begin, lines_in};
ghost use Rattle.office_settings.specs.declared.wrong.Fault.{Fault};

/// Suppose that a file of settings has the mark `begin`. Then [`crate::read_settings`] of each
/// beginning of its bytes, cut behind a line or within one, returns a fault, or the settings of the
/// whole file: no part of its statements is in force.
pub fn law_of_cut_settings()
    ensures { (text : List ℕ) (n : ℕ) (entries : List Entry) (read : Result Settings Fault)
        → entries_of (lines_in text) ≡ Ok entries → has_begin entries ≡ true
        → IsReading read (entries_of (lines_in (take n text)))
        → IfOk read (λ settings. AreSettingsOf entries settings) }
{}
