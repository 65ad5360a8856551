//! The registers that the program writes, and the operand that names one.
ghost use Rattle.std.specs.Prelude.{◌≡◌};
ghost use Rattle.office_command_line.specs.Orders.{register_named};

use office_days::{ConfirmDays, Day};

/// A register of the office, which is written as CSV.
#[derive(Clone, Copy)]
pub enum Register {
    /// The entries of all runs.
    Entries,
    /// What is due on a day.
    Due(Day),
    /// What is overdue on a day, so many days after the due day.
    Overdue(Day, ConfirmDays),
}

/// The register that an operand names: `entries`, or the day of the due register, as 2017-06-30.
pub(crate) fn read_register(text: &str) -> Option<Register>
    ensures { result ≡ register_named text.now }
{
    if text == "entries" {
        return Some(Register::Entries);
    }
    match Day::read(text) {
        Some(day) => Some(Register::Due(day)),
        None => None,
    }
}
