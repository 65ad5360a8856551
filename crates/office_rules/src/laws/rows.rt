//! The rows that represent a state, and what each write makes of them.
ghost use Rattle.std.specs.Prelude.{◌≡◌, List, length};
ghost use Rattle.office_rules.specs.Acts.{CanBeMade, IsDecidedFor, step};
ghost use Rattle.office_rules.specs.Rows.{rows_of, write_rows, all_row_writes};
ghost use Rattle.office_rules.specs.State.{State, Office, ByteMap, with_contents};
ghost use Rattle.office_rules.specs.Tables.{Represents, TableLists};
ghost use Rattle.office_rules.specs.Writes.{write, all_writes, all_office_writes, CanWrite, HasPlace, RefsAreFree};
ghost use Rattle.office_rules.specs.declared.act.Act.{Act};
ghost use Rattle.office_rules.specs.declared.change.Change.{Change};
ghost use Rattle.office_rules.specs.declared.change.Decision.TheVariants.{Go};
ghost use Rattle.office_rules.specs.declared.rows.RowWrite.{RowWrite};

/// Two different states represent different rows, where each record has a status; and tables that
/// were read, in which contents have their keys alone, represent at most one office.
pub fn law_of_one_state()
    ensures one { (s t : State) → length s.office.tree.statuses ≡ length s.office.tree.records
        → length t.office.tree.statuses ≡ length t.office.tree.records → rows_of s ≡ rows_of t
        → s ≡ t }
    ensures tables { (t : TableLists) (s u : State)
        → length s.office.tree.statuses ≡ length s.office.tree.records
        → length u.office.tree.statuses ≡ length u.office.tree.records → Represents t s
        → Represents t u → s.office ≡ u.office }
{}

/// A write of a row that has a place makes of the rows of a state those of the next; and so do the
/// writes of a change, one after another.
pub fn law_of_writes()
    ensures each { (s : State) (w : RowWrite)
        → length s.office.tree.statuses ≡ length s.office.tree.records → HasPlace s.office w
        → rows_of (write w s) ≡ write_rows w (rows_of s) }
    ensures all { (s : State) (ws : List RowWrite)
        → length s.office.tree.statuses ≡ length s.office.tree.records → CanWrite s.office ws
        → rows_of (all_writes ws s) ≡ all_row_writes ws (rows_of s) }
{}

/// A change that was decided for an act leads, done in the office or in its rows, to what the act's
/// step makes of them. At none of the writes of a change that can be made has another aggregation
/// or record the ref of the row that is put in.
pub fn law_of_changes()
    ensures office { (s : Office) (a : Act) (change : Change) (contents : ByteMap)
        → IsDecidedFor s a (Go change)
        → all_office_writes change.writes.items s ≡ (step (with_contents s contents) a).1.office }
    ensures rows { (s : Office) (a : Act) (change : Change) (contents : ByteMap)
        → length s.tree.statuses ≡ length s.tree.records → IsDecidedFor s a (Go change)
        → all_row_writes change.writes.items (rows_of (with_contents s contents))
        ≡ rows_of (step (with_contents s contents) a).1 }
    ensures refs { (s : Office) (change : Change) → CanBeMade s change
        → RefsAreFree s change.writes.items }
{}
