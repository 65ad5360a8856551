//! The office that tables in memory represent.
ghost use Rattle.std.specs.Prelude.{◌≡◌, IfOk};
ghost use Rattle.office_base.specs.Rows.{OnDamaged};
ghost use Rattle.office_rules.specs.Loading.{AreTablesOf, HaveKeys};
ghost use Rattle.office_rules.specs.Sound.{IsSound};
ghost use Rattle.office_rules.specs.State.{ByteMap, with_contents};
ghost use Rattle.office_rules.specs.Tables.{RepresentNone, lists_of};

use crate::{Builder, Machine, Tables};
use office_base::Rebuild;
use std::alloc::Global;

impl Machine {
    /// The office that the tables represent, which stay as they are: their rows are copied one
    /// after another. Damaged only where there is none, Memory where there is none for the copies,
    /// or for what is derived or examined. Whatever the contents of the keys that are there are, it
    /// is sound with them.
    pub fn from_tables(alloc: Global, tables: &Tables) -> Result<Machine, Rebuild>
        ensures ok { IfOk result (λ machine. AreTablesOf (lists_of tables.now) machine) }
        ensures sound { IfOk result
            (λ machine. (contents : ByteMap) → HaveKeys contents tables.now.contents.items
            → IsSound (with_contents machine contents)) }
        ensures keys { IfOk result
            (λ machine. (contents : ByteMap) × HaveKeys contents tables.now.contents.items) }
        ensures damaged { OnDamaged result (RepresentNone (lists_of tables.now)) }
    {
        let mut builder = Builder::new(alloc);
        tables.give(alloc, &mut builder)?;
        builder.finish()
    }
}
