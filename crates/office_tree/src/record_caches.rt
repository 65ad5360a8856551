//! What is derived of each record, beside the set of the candidates for a disposal run.
ghost use Rattle.std.specs.Prelude.{◌≡◌, ◌-◌, ◌<◌, ◌≤◌, ◌++◌, ◌∷◌, ℕ, [], IfSome, IfNone, OnOk, false, length, slice_set, true, vec_len, vec_capacity};
ghost use Rattle.office_tree.specs.Marks.{AreMarked, mark_at};
ghost use Rattle.office_tree.specs.declared.record_cache.RecordCache.{RecordCache};

use crate::candidates::CandidateSet;
use crate::new_rows::push_row;
use crate::record_cache::RecordCache;
use office_base::Memory;
use office_days::DueDay;
use office_records::RecordNo;
use std::alloc::Global;

/// What is cached of each record, and the set of those that are candidates for a disposal run.
#[derive(Drop)]
pub(crate) struct RecordCaches {
    pub(crate) rows: Vec<RecordCache>,
    pub(crate) candidates: CandidateSet,
    ghost marked: { AreMarked rows.items candidates },
}

/// Puts one more in, for which there is room, and which is yet to be computed.
fn push_record_cache(rows: &mut Vec<RecordCache>)
    requires { vec_len rows.old < vec_capacity rows.old }
    ensures { (it : RecordCache) × (rows.new.items ≡ rows.old.items ++ it ∷ [])
        × (it.is_candidate ≡ false) }
{
    let due: Option<DueDay> = None;
    let record_cache = RecordCache {
        plan: 0,
        due,
        is_candidate: false,
    };
    push_row(rows, record_cache);
}

impl RecordCaches {
    /// Of no records.
    pub(crate) fn new(alloc: Global) -> RecordCaches
        ensures { result.rows.items ≡ [] }
    {
        RecordCaches {
            rows: Vec::new(alloc),
            candidates: CandidateSet::new(alloc),
        }
    }

    /// Makes room for one more record.
    pub(crate) fn make_room(&mut self) -> Result<(), Memory>
        requires { length self.old.rows.items ≤ 200_000 }
        ensures rows { self.new.rows.items ≡ self.old.rows.items }
        ensures row_room { OnOk result (vec_len self.new.rows < vec_capacity self.new.rows) }
        ensures mark_room { OnOk result (vec_len self.new.rows < length self.new.candidates) }
    {
        self.rows.try_reserve(1)?;
        self.candidates
            .make_room_for(self.rows.len() as RecordNo + 1)?;
        Ok(())
    }

    /// Adds what is cached of the next record, for which there is room, and which is yet to be
    /// computed.
    pub(crate) fn push(&mut self)
        requires row_room { vec_len self.old.rows < vec_capacity self.old.rows }
        requires mark_room { vec_len self.old.rows < length self.old.candidates }
        ensures { (it : RecordCache) × (self.new.rows.items ≡ self.old.rows.items ++ it ∷ []) }
    {
        push_record_cache(&mut self.rows);
    }

    /// Puts what is cached of a record in place of what was.
    pub(crate) fn put(&mut self, record_no: RecordNo, record_cache: RecordCache)
        requires low { 0 < record_no }
        requires high { record_no ≤ length self.old.rows.items }
        ensures { self.new.rows.items ≡ slice_set self.old.rows.items (record_no - 1) record_cache }
    {
        let is_candidate = record_cache.is_candidate;
        self.rows[record_no as usize - 1] = record_cache;
        if is_candidate {
            self.candidates.insert(record_no);
        } else {
            self.candidates.remove(record_no);
        }
    }

    /// Adds what is cached of the next record.
    pub(crate) fn add(&mut self, record_cache: RecordCache) -> Result<(), Memory>
        requires { length self.old.rows.items ≤ 200_000 }
        ensures { OnOk result (self.new.rows.items ≡ self.old.rows.items ++ record_cache ∷ []) }
    {
        self.make_room()?;
        self.push();
        let record_no = self.rows.len() as RecordNo;
        self.put(record_no, record_cache);
        Ok(())
    }

    /// The least candidate above the number.
    pub(crate) fn next_candidate(&self, above: RecordNo) -> Option<RecordNo>
        ensures higher { IfSome result (λ r. above < r) }
        ensures there { IfSome result (λ r. r ≤ length self.now.rows.items) }
        ensures candidate { IfSome result (λ r. mark_at self.now.rows.items (r - 1) ≡ true) }
        ensures between { IfSome result
            (λ r. (k : ℕ) → above < k → k < r → mark_at self.now.rows.items (k - 1) ≡ false) }
        ensures none { IfNone result
            ((k : ℕ) → above < k → mark_at self.now.rows.items (k - 1) ≡ false) }
    {
        self.candidates.next_above(above)
    }
}
