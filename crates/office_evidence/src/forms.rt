//! What was read is of its form, stated as functions for proofs. A call does nothing: the types see
//! to it.
ghost use Rattle.std.specs.Prelude.{◌<◌, ◌^◌, IfSome};
ghost use Rattle.std.specs.List.{All};
ghost use Rattle.office_days.specs.Limits.{IsDayNumber, IsDueNumber};
ghost use Rattle.office_records.specs.Forms.{IsCode, IsDigest, IsText};
ghost use Rattle.office_evidence.specs.Parsed.{IsHoldOf, IsWellFormedLine, IsWellFormedSpent};

use crate::{EntryLine, SpentLine};
use office_days::{Day, DueDay};
use office_records::{Code, Text};

/// A number has 32 bits.
pub(crate) fn well_formed_number(number: u32)
    ensures { number < 2 ^ 32 }
{}

/// A day is within its limits.
pub(crate) fn well_formed_day(day: Day)
    ensures { IsDayNumber day }
{
    let _ = day.number();
}

/// A due day is within its limits.
fn well_formed_due(due: DueDay)
    ensures { IsDueNumber due }
{
    let _ = due.number();
}

/// A text is of its form.
pub(crate) fn well_formed_text(text: &Text)
    ensures { IsText text.now }
{
    let _ = text.text();
}

/// A code is of its form.
pub(crate) fn well_formed_code(code: &Code)
    ensures { IsCode code.now }
{
    let _ = code.text();
}

/// Each byte is below 256.
fn well_formed_bytes(bytes: &[u8])
    ensures { All (λ b. b < 256) bytes.now }
{
    let _ = bytes.len();
}

/// A digest has 32 bytes.
fn well_formed_digest(digest: &[u8; 32])
    ensures { IsDigest digest.now }
{
    well_formed_bytes(digest);
}

impl EntryLine {
    /// The parts of an entry's line are of their forms, if its hold is that of its outcome.
    pub(crate) fn formed(&self)
        requires { IsHoldOf self.now.outcome self.now.hold }
        ensures { IsWellFormedLine self.now }
    {
        well_formed_number(self.record_no);
        well_formed_text(&self.ref_text);
        well_formed_code(&self.class);
        well_formed_code(&self.schedule);
        well_formed_due(self.due);
        well_formed_text(&self.confirmed_by);
        well_formed_number(self.length);
        well_formed_digest(&self.digest);
    }
}

impl SpentLine {
    /// The parts of a spent aggregation's line are of their forms.
    pub(crate) fn formed(&self)
        ensures { IsWellFormedSpent self.now }
    {
        well_formed_number(self.number);
        well_formed_text(&self.ref_text);
    }
}
