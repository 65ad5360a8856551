//! The names that sign in.
ghost use Rattle.std.specs.Prelude.{◌≡◌, IfOk};
ghost use Rattle.std.specs.Option.{option_map};
ghost use Rattle.office_policy.specs.Granted.{text_of};
ghost use Rattle.office_policy.specs.SignIns.{sign_in_as};
ghost use Rattle.office_settings.specs.Looks.{look};

use office_access::SignIn;
use office_base::Memory;
use office_records::Text;
use office_settings::look_of;
use std::alloc::Global;

/// Makes the sign-in of a name, with its look. Returns `None` if the look is longer than a text:
/// then no name of the settings looks so, and the name has no rights.
pub fn sign_in(alloc: Global, name: &Text) -> Result<Option<SignIn>, Memory>
    ensures { IfOk result (λ sign_in. sign_in ≡ sign_in_as name.now) }
{
    let look = look_of(alloc, name.text())?;
    let name = name.copy(alloc)?;
    match Text::read(alloc, look.as_str())? {
        Some(look) => Ok(Some(SignIn { name, look })),
        None => Ok(None),
    }
}
