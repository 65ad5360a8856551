//! The office as a policy reads it.
ghost use Rattle.std.specs.Prelude.{◌≡◌, length};
ghost use Rattle.std.specs.FinMap.{get};
ghost use Rattle.std.specs.Option.{option_copied};
ghost use Rattle.office_rules.specs.State.{Office};
ghost use Rattle.office_access.specs.Eyes.{opener_of, run_opener};

use office_records::{RecordNo, Text};
use office_rules::{Entry, RunNo};
use office_tree::Tree;

/// What a policy reads of the office in which an act is then done.
pub trait OfficeView {
    ghost office: { Self → Office };

    /// The tree with its records.
    fn tree(&self) -> &Tree
        ensures { result.now ≡ (office self.now).tree };

    /// Who opened the run that is open; `None` if none is open.
    fn opener(&self) -> Option<&Text>
        ensures { option_copied result ≡ opener_of (office self.now) };

    /// The number of runs, which is that of the last one.
    fn run_count(&self) -> RunNo
        ensures { result ≡ length (office self.now).runs };

    /// Who opened the run of that number; `None` if there is no such run.
    fn run_opener(&self, run: RunNo) -> Option<&Text>
        ensures { option_copied result ≡ run_opener (office self.now) run };

    /// The entry of that run about the record; `None` if there is none.
    fn entry(&self, run: RunNo, record_no: RecordNo) -> Option<&Entry>
        ensures { option_copied result ≡ get (office self.now).entries (run, record_no) };
}
