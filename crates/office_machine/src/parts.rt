//! The parts of the office in memory without the promise that they are sound together, so that
//! a change may be made write by write.
ghost use Rattle.std.specs.Prelude.{◌≡◌};
ghost use Rattle.office_rules.specs.State.{empty_office};

use crate::Run;
use crate::certificate::Certificate;
use office_days::Day;
use office_holds::Holds;
use office_records::RecordNo;
use office_rules::{Entry, RunNo};
use office_tree::Tree;
use std::alloc::Global;
use std::collections::BTreeMap;
use std::marker::Model;

/// The parts of an office in memory, sound together or not. Contracts see an `Office`.
#[derive(Drop)]
pub(crate) struct Parts {
    pub(crate) tree: Tree,
    pub(crate) holds: Holds,
    /// By number, from 1.
    pub(crate) runs: Vec<Run>,
    /// By run, then record.
    pub(crate) entries: BTreeMap<(RunNo, RecordNo), Entry>,
    /// By run.
    pub(crate) certificates: BTreeMap<RunNo, Certificate>,
    pub(crate) day: Day,
}

impl Model for Parts {
    ghost use Rattle.std.specs.Coded.{codes};
    ghost use Rattle.std.specs.FinMap as map;
    ghost use Rattle.office_rules.specs.State.{Office};

    ghost Value = { Office };

    ghost coded = { Prim.hlevel (codes, map.code) };

    ghost view = { λ p. record {
      tree = p.tree;
      holds = p.holds;
      runs = p.runs.items;
      entries = map.from_entries p.entries.entries;
      certificates = map.from_entries p.certificates.entries;
      day = p.day;
    } };
}

impl Parts {
    /// The parts of a new office.
    pub(crate) fn new(alloc: Global) -> Parts
        ensures { result ≡ empty_office }
    {
        Parts {
            tree: Tree::new(alloc),
            holds: Holds::new(alloc),
            runs: Vec::new(alloc),
            entries: BTreeMap::new(alloc),
            certificates: BTreeMap::new(alloc),
            day: Day::first(),
        }
    }
}
