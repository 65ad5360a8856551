//! The rights of every name that the settings do not have.
ghost use Rattle.std.specs.Prelude.{◌≡◌, IfOk};
ghost use Rattle.std.specs.List.{list_any};
ghost use Rattle.std.specs.Option.{option_map};
ghost use Rattle.office_policy.specs.Granted.{held_by};
ghost use Rattle.office_policy.specs.People.{is_for_others, others_of};
ghost use Rattle.office_settings.specs.Views.{line_of};

use crate::roles::held;
use office_access::Grants;
use office_base::Memory;
use office_settings::{Entry, Statement};
use std::alloc::Global;

/// Reports whether a line gives roles to every other name.
fn is_for_others(statement: &Statement) -> bool
    ensures { result ≡ is_for_others (line_of statement.now) }
{
    match statement {
        Statement::Others(_) => true,
        _ => false,
    }
}

/// Reports whether one of the lines gives roles to every other name.
fn have_others(entries: &[Entry]) -> bool
    ensures { result ≡ list_any (λ entry. is_for_others entry.line) entries.now }
{
    entries.iter().any(|entry| is_for_others(entry.statement()))
}

/// Returns what every other name has, if a line says so.
pub(crate) fn others_of(alloc: Global, entries: &[Entry]) -> Result<Option<Grants>, Memory>
    ensures { IfOk result (λ others. option_map held_by others ≡ others_of entries.now) }
{
    if have_others(entries) {
        let others = held(alloc, entries, None)?;
        Ok(Some(others))
    } else {
        Ok(None)
    }
}
