//! Who asks, by what the proxy states.
ghost use Rattle.std.specs.Prelude.{◌≡◌, IfOk};
ghost use Rattle.std.specs.Option.{option_map};
ghost use Rattle.office_gate.specs.Stated.{has_value, stated_day, stated_name, stated_text, visitor_stated};
ghost use Rattle.office_gate.specs.Visitors.{visitor_of};
ghost use Rattle.office_http.specs.Proxies.{values_of};

use office_access::{Policy, SignIn};
use office_base::Memory;
use office_days::Day;
use office_guard::Keeper;
use office_http::{FieldValue, ProxyLines};
use office_policy::sign_in;
use office_records::Text;
use office_settings::text_in;
use std::alloc::Global;

/// The settings of an office at a moment, and the secret that the office shares with its proxy.
#[derive(Drop)]
pub struct Gate {
    pub policy: Policy,
    pub token: Text,
}

/// The text that one line states; `None` if there is no such line, there are several, or the bytes
/// are no UTF-8.
fn stated_text(value: &FieldValue) -> Option<&str>
    ensures { option_map (λ t. t.now) result ≡ stated_text (values_of value.now) }
{
    match value {
        FieldValue::One(bytes) => text_in(bytes.as_slice()),
        _ => None,
    }
}

/// The name that one line states, if it is a text.
fn stated_name(alloc: Global, value: &FieldValue) -> Result<Option<SignIn>, Memory>
    ensures { IfOk result (λ name. name ≡ stated_name (values_of value.now)) }
{
    match stated_text(value) {
        Some(text) => match Text::read(alloc, text)? {
            Some(name) => sign_in(alloc, &name),
            None => Ok(None),
        },
        None => Ok(None),
    }
}

/// The day that one line states.
fn stated_day(value: &FieldValue) -> Option<Day>
    ensures { result ≡ stated_day (values_of value.now) }
{
    match stated_text(value) {
        Some(text) => Day::read(text),
        None => None,
    }
}

/// Reports whether one line states that text, byte by byte. How long this takes depends on how far
/// the two agree.
fn has_value(value: &FieldValue, text: &Text) -> bool
    ensures { result ≡ has_value text.now (values_of value.now) }
{
    match value {
        FieldValue::One(bytes) => bytes.as_slice() == text.text().as_bytes(),
        _ => false,
    }
}

impl Gate {
    /// Finds who asks, by the lines of the proxy: one line has the secret of the proxy, one a name,
    /// and one a day. Returns `None` if that is not stated.
    pub fn visitor(&self, alloc: Global, lines: &ProxyLines) -> Result<Option<Keeper<'_>>, Memory>
        ensures { IfOk result (λ keeper. option_map visitor_of keeper
            ≡ visitor_stated self.now (values_of lines.now.token) (values_of lines.now.name)
            (values_of lines.now.day)) }
    {
        if !has_value(&lines.token, &self.token) {
            return Ok(None);
        }
        let Some(today) = stated_day(&lines.day) else {
            return Ok(None);
        };
        match stated_name(alloc, &lines.name)? {
            Some(name) => Ok(Some(Keeper {
                policy: &self.policy,
                today,
                name,
            })),
            None => Ok(None),
        }
    }
}
