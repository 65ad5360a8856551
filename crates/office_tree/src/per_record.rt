//! What is derived of each record.
ghost use Rattle.std.specs.Prelude.{◌≡◌, ◌<◌, ◌≤◌, OnOk, length, vec_len};
ghost use Rattle.office_tree.specs.ClassLists.{HaveRoom};
ghost use Rattle.office_tree.specs.Rooms.{HasRoom};

use crate::class_index::ClassIndex;
use crate::record_caches::RecordCaches;
use office_base::Memory;

/// What is derived of each record from its head and the directory.
#[derive(Drop)]
pub(crate) struct PerRecord {
    /// Each record's schedule in effect and due day, and the candidates for a run
    /// (`AreRecordCaches`).
    pub(crate) record_caches: RecordCaches,
    /// The records of each class, their own or inherited, on a list of that class (`AreListed`).
    pub(crate) class_index: ClassIndex,
}

impl PerRecord {
    /// Makes room for one more record.
    pub(crate) fn make_room(&mut self) -> Result<(), Memory>
        requires { length self.old.record_caches.rows.items ≤ 200_000 }
        ensures rows { self.new.record_caches.rows.items ≡ self.old.record_caches.rows.items }
        ensures numbers { self.new.class_index.numbers ≡ self.old.class_index.numbers }
        ensures first { self.new.class_index.class_lists.first.items
            ≡ self.old.class_index.class_lists.first.items }
        ensures class { self.new.class_index.class_lists.class.items
            ≡ self.old.class_index.class_lists.class.items }
        ensures row { OnOk result (HasRoom self.new.record_caches.rows) }
        ensures mark { OnOk result
            (vec_len self.new.record_caches.rows < length self.new.record_caches.candidates) }
        ensures lists { OnOk result
            (HaveRoom self.new.class_index.class_lists.next
            self.new.class_index.class_lists.previous self.new.class_index.class_lists.class) }
    {
        self.record_caches.make_room()?;
        self.class_index.class_lists.make_record_room()
    }
}
