//! The certificate of a run that closes: its entries, and the aggregations that are spent.
ghost use Rattle.std.specs.Prelude.{◌≡◌, IfOk, IsSome, map};
ghost use Rattle.std.specs.String.{string_bytes};
ghost use Rattle.office_records.specs.Lists.{numbered};
ghost use Rattle.office_rules.specs.Runs.{certificate_of, entries_of, spent_list};
ghost use Rattle.office_rules.specs.Sound.{IsSoundOffice};

use crate::marks::marks_above;
use crate::parts::Parts;
use office_base::Memory;
use office_proof::certificate_text;
use office_records::{AggNo, RecordNo};
use office_rules::{Entry, RunNo};
use office_tree::Tree;
use std::alloc::Global;

/// The aggregations, by number, that are spent and have a record below that one of the entries
/// ended.
fn spent_list(alloc: Global, tree: &Tree, entries: &[&Entry]) -> Result<Vec<AggNo>, Memory>
    ensures { IfOk result
        (λ spent. spent.items ≡ spent_list tree.now (map (λ entry. entry.now) entries.now)) }
{
    let marks = marks_above(alloc, tree, entries)?;
    let mut spent = Vec::new(alloc);
    for before in 0..tree.aggregation_count() {
        let aggregation = before + 1;
        if marks[before as usize] && tree.spent(aggregation) {
            spent.push(aggregation)?;
        }
    }
    Ok(spent)
}

impl Parts {
    /// The entries of a run, by record number.
    fn entries_of(&self, alloc: Global, run: RunNo) -> Result<Vec<&Entry>, Memory>
        requires { IsSoundOffice self.now }
        ensures { IfOk result
            (λ these. map (λ entry. entry.now) these.items ≡ entries_of self.now run) }
    {
        let mut these = Vec::new(alloc);
        for (_, entry) in self.entries.range((run, 0)..=(run, RecordNo::MAX)) {
            these.push(entry)?;
        }
        Ok(these)
    }

    /// The text of the run's certificate, as the office is.
    pub(crate) fn certificate_of(&self, alloc: Global, run: RunNo) -> Result<String, Memory>
        requires sound { IsSoundOffice self.now }
        requires there { IsSome (numbered self.now.runs run) }
        ensures { IfOk result (λ text. string_bytes text ≡ certificate_of self.now run) }
    {
        let it = self.run(run);
        let entries = self.entries_of(alloc, run)?;
        let spent = spent_list(alloc, &self.tree, &entries)?;
        certificate_text(alloc, &self.tree, run, it.day, &it.by, &entries, &spent)
    }
}
