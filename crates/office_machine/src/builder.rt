//! The office in memory, made of rows as they come.
ghost use Rattle.std.specs.Prelude.{◌≡◌, IfOk};
ghost use Rattle.office_base.specs.Rows.{OnDamaged};
ghost use Rattle.office_rules.specs.Loading.{AreTablesOf, HaveKeys};
ghost use Rattle.office_rules.specs.Sound.{IsSound};
ghost use Rattle.office_rules.specs.State.{ByteMap, with_contents};
ghost use Rattle.office_rules.specs.Tables.{RepresentNone, no_rows};

use crate::loader::Loader;
use crate::{Intake, Machine, Row};
use office_base::Rebuild;
use std::alloc::Global;
use std::marker::Model;

/// What makes the office of its tables: it takes their rows in, one after another, and keeps each
/// where the office keeps it. Contracts see the rows that have come.
#[derive(Drop)]
pub struct Builder {
    loader: Loader,
}

impl Model for Builder {
    ghost use Rattle.std.specs.Coded.{codes};
    ghost use Rattle.std.specs.FinMap as map;
    ghost use Rattle.office_rules.specs.Tables.{TableLists};

    ghost Value = { TableLists };

    ghost coded = { Prim.hlevel (codes, map.code) };

    ghost view = { λ b. b.loader };
}

impl Builder {
    /// A builder to which no row has come.
    pub fn new(alloc: Global) -> Builder
        ensures { result ≡ no_rows }
    {
        Builder {
            loader: Loader::new(alloc),
        }
    }

    /// The office that the rows taken in so far represent; Damaged only where there is none, Memory
    /// where there is none for what is derived or examined. Whatever the contents of the keys that
    /// have come are, it is sound with them. Contents themselves are not asked for.
    pub fn finish(self) -> Result<Machine, Rebuild>
        ensures ok { IfOk result (λ machine. AreTablesOf self machine) }
        ensures sound { IfOk result
            (λ machine. (contents : ByteMap) → HaveKeys contents self.contents
            → IsSound (with_contents machine contents)) }
        ensures keys { IfOk result
            (λ machine. (contents : ByteMap) × HaveKeys contents self.contents) }
        ensures damaged { OnDamaged result (RepresentNone self) }
    {
        let office = self.loader.finish()?;
        Ok(Machine { parts: office })
    }
}

impl Intake for Builder {
    ghost content = { λ b. b };

    ghost examines = { Unit {0} };

    fn row(&mut self, row: Row) -> Result<(), Rebuild> {
        self.loader.row(row)
    }
}
