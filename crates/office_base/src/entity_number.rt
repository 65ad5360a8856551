//! Numbers of records, aggregations and runs, as people write them.
ghost use Rattle.std.specs.Prelude.{◌≡◌};
ghost use Rattle.office_base.specs.EntityNumbers.{entity_number};

use crate::numeral::read_numeral;
use crate::refusal::Refusal;

/// The number of an entity: one or more ASCII digits, from 1 to 4,294,967,295, leading zeros
/// allowed. A text that is no number is reported before a number that is none of an entity.
pub fn read_entity_number(text: &str) -> Result<u32, Refusal>
    ensures { result ≡ entity_number text.now }
{
    let number = read_numeral(text).ok_or(Refusal::BadText)?;
    match u32::try_from(number) {
        Ok(number) if number > 0 => Ok(number),
        _ => Err(Refusal::BadNumber),
    }
}
