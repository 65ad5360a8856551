//! A connection that arrives at a gate.
ghost use Rattle.std.specs.Prelude.{◌≡◌};
ghost use Rattle.office_http.specs.Proxies.{values_of};
ghost use Rattle.office_noting.specs.Arrivals.{stated_address};

use office_gate::Gate;
use office_http::FieldValue;
use office_settings::text_in;

/// The gate, and the settings that are in force there.
#[derive(Clone, Copy)]
pub struct Arrival<'a> {
    pub gate: &'a Gate,
    /// The SHA-256 of the settings of the gate.
    pub settings: [u8; 32],
}

/// Returns the address that one line states. It is empty if there is no such line, there are several,
/// or the bytes are no UTF-8.
pub(crate) fn stated_address(value: &FieldValue) -> &str
    ensures { result.now ≡ stated_address (values_of value.now) }
{
    match value {
        FieldValue::One(bytes) => match text_in(bytes.as_slice()) {
            Some(text) => text,
            None => "",
        },
        _ => "",
    }
}
