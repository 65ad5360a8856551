//! The register of holds by code: whether a record is held, and by which hold.
ghost use Rattle.std.specs.Prelude.{◌≡◌, IsTrue};
ghost use Rattle.std.specs.FinMap.{empty, get};
ghost use Rattle.std.specs.Option.{option_copied};
ghost use Rattle.office_records.specs.Tree.{has_record};
ghost use Rattle.office_rules.specs.HoldForms.{FitsHoldLimits};
ghost use Rattle.office_rules.specs.Holds.{is_held, least_covering};

use crate::Hold;
use crate::counts::HoldCounts;
use crate::least_hold::first_covering;
use office_records::{Code, RecordNo};
use office_tree::Tree;
use std::alloc::Global;
use std::collections::{BTreeMap, BTreeSet};
use std::marker::Model;

/// The register of holds by their codes, in which lifted holds stay. Contracts see a `HoldMap`,
/// which has at most 1,000 holds, each with at most 1,000 targets.
#[derive(Drop)]
pub struct Holds {
    pub(crate) by_code: BTreeMap<Code, Hold>,
    /// How many holds in force have each target.
    pub(crate) counts: HoldCounts,
    /// The codes of the holds in force; a code more does no harm.
    pub(crate) in_force: BTreeSet<Code>,
    pub(crate) alloc: Global,
}

impl Model for Holds {
    ghost use Rattle.std.specs.Coded.{codes};
    ghost use Rattle.std.specs.FinMap as map;
    ghost use Rattle.std.specs.FinSet.{from_list};
    ghost use Rattle.office_rules.specs.HoldForms.{FitsHoldLimits};
    ghost use Rattle.office_holds.specs.HoldCounts.{AreCached};
    ghost use Rattle.office_rules.specs.Holds.{HoldMap};

    ghost Value = { HoldMap };

    ghost coded = { Prim.hlevel (codes, map.code) };

    ghost view = { λ h. map.from_entries h.by_code.entries };

    ghost invariant = { λ h. FitsHoldLimits (map.from_entries h.by_code.entries)
        × AreCached (map.from_entries h.by_code.entries) h.counts (from_list h.in_force.keys) };
}

impl Holds {
    /// A register with no hold in it.
    pub fn new(alloc: Global) -> Holds
        ensures { result ≡ empty }
    {
        Holds {
            by_code: BTreeMap::new(alloc),
            counts: HoldCounts::new(alloc),
            in_force: BTreeSet::new(alloc),
            alloc,
        }
    }

    /// The hold of that code, lifted or not.
    pub fn hold(&self, code: &Code) -> Option<&Hold>
        ensures { option_copied result ≡ get self.now code.now }
    {
        self.by_code.get(code)
    }

    /// Whether at least one hold covers the record, which must be there.
    pub fn held(&self, tree: &Tree, record_no: RecordNo) -> bool
        requires { IsTrue (has_record tree.now record_no) }
        ensures { result ≡ is_held self.now tree.now record_no }
    {
        let above = tree.above(record_no);
        self.counts
            .bind(record_no, &above, tree.class_of(record_no))
    }

    /// The least code, in byte order, of the holds that cover the record; `None` where it is not
    /// held. The record must be there.
    pub fn covering(&self, tree: &Tree, record_no: RecordNo) -> Option<&Code>
        requires { IsTrue (has_record tree.now record_no) }
        ensures { option_copied result ≡ least_covering self.now tree.now record_no }
    {
        let above = tree.above(record_no);
        first_covering(
            &self.by_code,
            &self.in_force,
            record_no,
            &above,
            tree.class_of(record_no),
        )
    }

    /// Makes known to proofs that the holds are within their limits: a call does nothing.
    pub fn sound(&self)
        ensures { FitsHoldLimits self.now }
    {
        let _ = &self.by_code;
    }
}
