//! What the definitions of certificates mean, as laws that are proved: calls of these do nothing.
ghost use Rattle.std.specs.Prelude.{◌≡◌, ℕ, Some, List, [], ◌∷◌, ◌++◌, length, take, drop, map, filter, codes, ℤ};
ghost use Rattle.std.specs.Fmt.{decimal};
ghost use Rattle.std.specs.List.{All};
ghost use Rattle.office_records.specs.Forms.{IsText, IsWellFormedRecord, IsWellFormedTree};
ghost use Rattle.office_records.specs.Lists.{numbered};
ghost use Rattle.office_records.specs.Tree.{TreeState};
ghost use Rattle.office_records.specs.declared.aggregation.Aggregation.{Aggregation};
ghost use Rattle.office_records.specs.declared.head.Record.{Record};
ghost use Rattle.office_rules.specs.Certificates.{certificate_lines, entry_words, tabbed, lines_text, date_text};
ghost use Rattle.office_rules.specs.EntryForms.{IsWellFormedEntry};
ghost use Rattle.office_proof.specs.Meanings.{IsOneLine, IsOneColumn, entry_columns, split_at};
ghost use Rattle.office_rules.specs.Outcomes.{is_ending, is_sending, is_skipping};
ghost use Rattle.office_rules.specs.declared.entry.Entry.{Entry};

/// Where the tree, the entries and the opener's name are of their forms, no title, ref or name
/// breaks a certificate: each line above the last is one line, and the line of an entry has eleven
/// words with a tab between each two, none of which has a tab or a line feed in it. So parting the
/// text at line feeds gives back the lines, and parting the line of an entry at tabs gives back its
/// words. The first six lines report the run and how many entries have each kind of outcome. Where
/// the record of each entry is there, from the seventh line on is one line for each entry, in their
/// order. After them comes how many aggregations are spent, and where each is there, one line for
/// each of them.
pub fn law_of_certificate_lines()
    ensures lines { (tree : TreeState) (run : ℕ) (day : ℤ) (by : List ℕ) (entries : List Entry)
        (spent : List ℕ) → IsWellFormedTree tree → IsText by → All IsWellFormedEntry entries
        → All IsOneLine (certificate_lines tree run day by entries spent) }
    ensures lines_parted { (tree : TreeState) (run : ℕ) (day : ℤ) (by : List ℕ)
        (entries : List Entry) (spent : List ℕ) → IsWellFormedTree tree → IsText by
        → All IsWellFormedEntry entries
        → split_at 10 (lines_text (certificate_lines tree run day by entries spent))
        ≡ certificate_lines tree run day by entries spent ++ [] ∷ [] }
    ensures columns { (e : Entry) (head : Record) → IsWellFormedEntry e → IsWellFormedRecord head
        → All IsOneColumn (entry_columns e head) }
    ensures parted { (e : Entry) (head : Record) → IsWellFormedEntry e → IsWellFormedRecord head
        → split_at 9 (entry_words e head) ≡ entry_columns e head }
    ensures joined { (e : Entry) (head : Record)
        → entry_words e head ≡ tabbed (entry_columns e head) }
    ensures head { (tree : TreeState) (run : ℕ) (day : ℤ) (by : List ℕ) (entries : List Entry)
        (spent : List ℕ)
        → take 6 (certificate_lines tree run day by entries spent)
        ≡ (codes "CERTIFICATE " ++ decimal run) ∷ (codes "DAY " ++ date_text day)
        ∷ (codes "BY " ++ by)
        ∷ (codes "ENDED " ++ decimal (length (filter (λ e. is_ending e.outcome) entries)))
        ∷ (codes "SENT " ++ decimal (length (filter (λ e. is_sending e.outcome) entries)))
        ∷ (codes "SKIPPED "
        ++ decimal (length (filter (λ e. is_skipping e.outcome) entries))) ∷ [] }
    ensures entries_listed { (tree : TreeState) (run : ℕ) (day : ℤ) (by : List ℕ)
        (entries : List Entry) (spent : List ℕ) (heads : ℕ → Record)
        → All (λ e. numbered tree.records e.record_no ≡ Some (heads e.record_no)) entries
        → take (length entries) (drop 6 (certificate_lines tree run day by entries spent))
        ≡ map (λ e. entry_words e (heads e.record_no)) entries }
    ensures spent_listed { (tree : TreeState) (run : ℕ) (day : ℤ) (by : List ℕ)
        (entries : List Entry) (spent : List ℕ) (heads : ℕ → Record)
        (aggregations : ℕ → Aggregation)
        → All (λ e. numbered tree.records e.record_no ≡ Some (heads e.record_no)) entries
        → All (λ a. numbered tree.aggregations a ≡ Some (aggregations a)) spent
        → drop (length entries) (drop 6 (certificate_lines tree run day by entries spent))
        ≡ (codes "SPENT " ++ decimal (length spent))
        ∷ map
        (λ a. tabbed (codes "AGGREGATION" ∷ decimal a ∷ (aggregations a).ref_text ∷ []))
        spent }
{}
