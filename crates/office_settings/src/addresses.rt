//! The address of a site, and the name of a time zone.
ghost use Rattle.std.specs.Prelude.{◌≡◌};
ghost use Rattle.std.specs.Char.{is_ascii_digit};
ghost use Rattle.std.specs.List.{list_all};
ghost use Rattle.office_settings.specs.Addresses.{are_digits, is_host, is_host_byte, is_machine, is_port, is_site, is_this_machine, is_zone, is_zone_byte};

fn are_host_bytes(text: &[u8]) -> bool
    ensures { result ≡ list_all is_host_byte text.now }
{
    text.iter().all(|byte| is_host_byte(*byte))
}

#[tactic(auto, unfolding(crate::specs::Addresses::is_host_byte))]
fn is_host_byte(byte: u8) -> bool
    ensures { result ≡ is_host_byte byte }
{
    byte.is_ascii_alphanumeric()
        || byte == b'.'
        || byte == b'['
        || byte == b']'
        || byte == b':'
        || byte == b'-'
}

/// Reports whether a text can be a host with its port.
#[tactic(auto, unfolding(crate::specs::Addresses::is_host))]
fn is_host(text: &[u8]) -> bool
    ensures { result ≡ is_host text.now }
{
    !text.is_empty() && are_host_bytes(text)
}

fn are_digit_bytes(text: &[u8]) -> bool
    ensures { result ≡ list_all is_ascii_digit text.now }
{
    text.iter().all(|byte| byte.is_ascii_digit())
}

#[tactic(auto, unfolding(crate::specs::Addresses::are_digits))]
fn are_digits(text: &[u8]) -> bool
    ensures { result ≡ are_digits text.now }
{
    !text.is_empty() && are_digit_bytes(text)
}

/// Reports whether a text is empty, or a colon with the number of a port.
#[tactic(auto, unfolding(crate::specs::Addresses::is_port))]
fn is_port(text: &[u8]) -> bool
    ensures { result ≡ is_port text.now }
{
    text.is_empty() || (text.starts_with(b":".as_slice()) && are_digits(&text[1..]))
}

/// Reports whether a host has that name, with a port or without.
#[tactic(auto, unfolding(crate::specs::Addresses::is_machine))]
fn is_machine(text: &[u8], name: &str) -> bool
    ensures { result ≡ is_machine text.now name.now }
{
    text.starts_with(name.as_bytes()) && is_port(&text[name.len()..])
}

/// Reports whether a host is this machine.
#[tactic(auto, unfolding(crate::specs::Addresses::is_this_machine))]
fn is_this_machine(text: &[u8]) -> bool
    ensures { result ≡ is_this_machine text.now }
{
    is_machine(text, "localhost") || is_machine(text, "127.0.0.1") || is_machine(text, "[::1]")
}

/// Reports whether a word is the address of a site: `https://` with a host, or `http://` with this machine,
/// and no path.
#[tactic(auto, unfolding(crate::specs::Addresses::is_site))]
pub(crate) fn is_site(token: &[u8]) -> bool
    ensures { result ≡ is_site token.now }
{
    (token.starts_with(b"https://".as_slice()) && is_host(&token[8..]))
        || (token.starts_with(b"http://".as_slice()) && is_this_machine(&token[7..]))
}

fn are_zone_bytes(text: &[u8]) -> bool
    ensures { result ≡ list_all is_zone_byte text.now }
{
    text.iter().all(|byte| is_zone_byte(*byte))
}

#[tactic(auto, unfolding(crate::specs::Addresses::is_zone_byte))]
fn is_zone_byte(byte: u8) -> bool
    ensures { result ≡ is_zone_byte byte }
{
    byte.is_ascii_alphanumeric() || byte == b'/' || byte == b'_' || byte == b'+' || byte == b'-'
}

/// Reports whether a word has the form of a time zone. Whether there is such a zone, it does not look up.
#[tactic(auto, unfolding(crate::specs::Addresses::is_zone))]
pub(crate) fn is_zone(token: &[u8]) -> bool
    ensures { result ≡ is_zone token.now }
{
    (!token.is_empty() && token.len() <= 64) && are_zone_bytes(token)
}
