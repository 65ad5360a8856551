//! The texts that a write needs beside its values.
ghost use Rattle.std.specs.Prelude.{◌≡◌, IfOk};
ghost use Rattle.std.specs.String.{string_bytes};
ghost use Rattle.office_store.specs.Encoded.{target_kind, target_text};
ghost use Rattle.office_store.specs.Written.{needed_text};

use office_base::Memory;
use office_records::Target;
use office_rules::RowWrite;
use std::alloc::Global;

/// The word of a target's kind.
pub(crate) fn target_kind(target: &Target) -> &'static str
    ensures { result.now ≡ target_kind target.now }
{
    match target {
        Target::Class(_) => "class",
        Target::Aggregation(_) => "aggregation",
        Target::Record(_) => "record",
    }
}

/// The code or number of a target, as text.
fn target_text(alloc: Global, target: &Target) -> Result<String, Memory>
    ensures { IfOk result (λ text. string_bytes text ≡ target_text target.now) }
{
    match target {
        Target::Class(code) => Ok(String::from_str(alloc, code.text())?),
        Target::Aggregation(number) | Target::Record(number) => {
            Ok(format!(in alloc; "{number}")?)
        }
    }
}

/// The text that a write needs: a digest's digits, or a target's code or number.
pub(crate) fn needed_text(alloc: Global, write: &RowWrite) -> Result<String, Memory>
    ensures { IfOk result (λ text. string_bytes text ≡ needed_text write.now) }
{
    match write {
        RowWrite::Record { head, .. } => Ok(hex::encode(alloc, &head.digest)?),
        RowWrite::Target { target, .. } | RowWrite::RemoveTarget { target, .. } => {
            target_text(alloc, target)
        }
        _ => Ok(String::new(alloc)),
    }
}
