//! A change is saved in one transaction.
ghost use Rattle.std.specs.Prelude.{◌≡◌, false};
ghost use Rattle.sqlite.specs.Held.{state};
ghost use Rattle.sqlite.specs.State.{HasCleanDisk};
ghost use Rattle.office_store.specs.Written.{Saves};

use crate::encoded_write::EncodedWrite;
use crate::row_writes::write_all;
use sqlite::{Alter, Connection, Error};

/// Does the writes in one transaction: all of them or, where it fails and the connection is still
/// open, none.
pub(crate) fn save_writes<S: Alter>(
    conn: &mut Connection<S>,
    writes: &[EncodedWrite<'_>],
) -> Result<(), Error>
    requires { conn.old.in_transaction ≡ false }
    ensures saves { Saves writes.now (state S.Store conn.old) (state S.Store conn.new) result }
    ensures clean { HasCleanDisk (state S.Store conn.new) → HasCleanDisk (state S.Store conn.old) }
    ensures shield { (state S.Store conn.old).IsShielded → (state S.Store conn.new).IsShielded }
    ensures ended { conn.new.in_transaction ≡ false }
{
    let mut tx = conn.transaction();
    write_all(&mut tx, writes)?;
    tx.commit()
}
