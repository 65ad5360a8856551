//! The two numbers of `serve` and `gate`, read from their operands: its port and its count of connections.
ghost use Rattle.std.specs.Prelude.{◌≡◌, None, Some, if◌then◌else◌};
ghost use Rattle.office_command_line.specs.Services.{is_connection_count, is_port, service_numbered, service_numbers};

use office_base::{Refusal, read_numeral};

/// The port of that number, where it is one; port 0 is none.
fn port_of(number: u64) -> Option<u16>
    ensures { result ≡ (if is_port number then Some number else None) }
{
    match u16::try_from(number) {
        Ok(port) if port > 0 => Some(port),
        _ => None,
    }
}

/// The count of connections of that number, where it is one.
fn count_of(number: u64) -> Option<u32>
    ensures { result ≡ (if is_connection_count number then Some number else None) }
{
    match u32::try_from(number) {
        Ok(count) if count > 0 && count <= 1_000_000 => Some(count),
        _ => None,
    }
}

/// The port and the count of connections of those numbers.
fn service_of(port: u64, count: u64) -> Result<(u16, u32), Refusal>
    ensures { result ≡ service_numbered (Some port) (Some count) }
{
    match (port_of(port), count_of(count)) {
        (Some(port), Some(count)) => Ok((port, count)),
        _ => Err(Refusal::BadNumber),
    }
}

/// The port of a service, from 1 to 65,535, and how many connections it serves, from 1 to
/// 1,000,000; each is one or more ASCII digits, leading zeros allowed. What is no digits is
/// reported before a number out of its range.
#[tactic(auto, unfolding(crate::specs::Services::service_numbers))]
pub(crate) fn read_service(port: &str, count: &str) -> Result<(u16, u32), Refusal>
    ensures { result ≡ service_numbers port.now count.now }
{
    match (read_numeral(port), read_numeral(count)) {
        (Some(port), Some(count)) => service_of(port, count),
        _ => Err(Refusal::BadText),
    }
}
