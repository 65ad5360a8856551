//! The statements that take a row away: a content, or a target of a hold.
ghost use Rattle.std.specs.Prelude.{◌≡◌, pos, [], ◌∷◌};
ghost use Rattle.sqlite.specs.Held.{state};
ghost use Rattle.office_sql.specs.Office.{TakesFrom};
ghost use Rattle.office_sql.specs.Schema.{contents, targets};
ghost use Rattle.office_sql.specs.Shown.{content_row, target_row};

use crate::statement::execute;
use sqlite::{Alter, Error, Transaction, params};

/// Takes the content of that record away, if it is there. Where the statement fails, what was
/// committed last is kept.
pub fn remove_content<S: Alter>(tx: &mut Transaction<'_, S>, record_no: u32) -> Result<(), Error>
    ensures same_reference { tx.new.conn.ghost_name ≡ tx.old.conn.ghost_name }
    ensures removed { TakesFrom contents ((0 ∷ []) ∷ []) (content_row (pos record_no) [])
        (state S.Store tx.old.conn.now) (state S.Store tx.new.conn.now) result }
{
    execute(
        tx,
        "DELETE FROM contents WHERE record = ?1",
        params![record_no],
    )
}

/// Takes the target off the hold, if it is there. Where the statement fails, what was committed
/// last is kept.
pub fn remove_target<S: Alter>(
    tx: &mut Transaction<'_, S>,
    hold: &str,
    kind: &str,
    target: &str,
) -> Result<(), Error>
    ensures same_reference { tx.new.conn.ghost_name ≡ tx.old.conn.ghost_name }
    ensures removed { TakesFrom targets ((0 ∷ 1 ∷ 2 ∷ []) ∷ [])
        (target_row hold.now kind.now target.now) (state S.Store tx.old.conn.now)
        (state S.Store tx.new.conn.now) result }
{
    execute(
        tx,
        "DELETE FROM targets WHERE hold = ?1 AND kind = ?2 AND target = ?3",
        params![hold, kind, target],
    )
}
