//! What marks around a file promise, as a law that is proved: calls of it do nothing.
ghost use Rattle.std.specs.Prelude.{◌≡◌, ℕ, List, Ok, take, true};
ghost use Rattle.office_settings.specs.Beginnings.{AreMarked, HasAllOrFault};
ghost use Rattle.office_settings.specs.Files.{Entry, entries_of, has_begin, lines_in};

/// Suppose that a file has the mark `begin`, and that its lines are settings. Then `begin` is its
/// first statement, and `end` its last one. And each beginning of its bytes, cut behind a line or
/// within one, has all its statements, or is refused: no part of them is read as settings.
pub fn law_of_cut_files()
    ensures marks { (lines : List (List ℕ)) (entries : List Entry)
        → entries_of lines ≡ Ok entries → has_begin entries ≡ true → AreMarked entries }
    ensures beginnings { (text : List ℕ) (n : ℕ) (entries : List Entry)
        → entries_of (lines_in text) ≡ Ok entries → has_begin entries ≡ true
        → HasAllOrFault entries (entries_of (lines_in (take n text))) }
{}
