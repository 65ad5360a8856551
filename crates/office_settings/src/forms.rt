//! The forms of names, roles and classes.
ghost use Rattle.std.specs.Prelude.{◌≡◌, map};
ghost use Rattle.std.specs.List.{list_all};
ghost use Rattle.office_settings.specs.Forms.{is_beginning, is_class, is_class_byte, is_code, is_name, is_name_byte, is_role, is_role_byte};

use crate::tokens::is;

/// Reports whether a word is a name: 1 to 64 letters, digits and `.`, `_`, `@`, `-`.
#[tactic(auto, unfolding(crate::specs::Forms::is_name))]
pub(crate) fn is_name(token: &[u8]) -> bool
    ensures { result ≡ is_name token.now }
{
    (!token.is_empty() && token.len() <= 64) && are_name_bytes(token)
}

fn are_name_bytes(token: &[u8]) -> bool
    ensures { result ≡ list_all is_name_byte token.now }
{
    token.iter().all(|byte| is_name_byte(*byte))
}

#[tactic(auto, unfolding(crate::specs::Forms::is_name_byte))]
fn is_name_byte(byte: u8) -> bool
    ensures { result ≡ is_name_byte byte }
{
    byte.is_ascii_alphanumeric() || byte == b'.' || byte == b'_' || byte == b'@' || byte == b'-'
}

/// Reports whether a word is a role: 1 to 32 small letters, digits and hyphens.
#[tactic(auto, unfolding(crate::specs::Forms::is_role))]
pub(crate) fn is_role(token: &[u8]) -> bool
    ensures { result ≡ is_role token.now }
{
    (!token.is_empty() && token.len() <= 32) && are_role_bytes(token)
}

fn are_role_bytes(token: &[u8]) -> bool
    ensures { result ≡ list_all is_role_byte token.now }
{
    token.iter().all(|byte| is_role_byte(*byte))
}

#[tactic(auto, unfolding(crate::specs::Forms::is_role_byte))]
fn is_role_byte(byte: u8) -> bool
    ensures { result ≡ is_role_byte byte }
{
    (b'a' <= byte && byte <= b'z') || (b'0' <= byte && byte <= b'9') || byte == b'-'
}

fn are_class_bytes(token: &[u8]) -> bool
    ensures { result ≡ list_all is_class_byte token.now }
{
    token.iter().all(|byte| is_class_byte(*byte))
}

#[tactic(auto, unfolding(crate::specs::Forms::is_class_byte))]
fn is_class_byte(byte: u8) -> bool
    ensures { result ≡ is_class_byte byte }
{
    byte.is_ascii_alphanumeric() || byte == b'-'
}

/// Reports whether a word is the code of a class: 1 to 16 letters, digits and hyphens.
#[tactic(auto, unfolding(crate::specs::Forms::is_code))]
fn is_code(token: &[u8]) -> bool
    ensures { result ≡ is_code token.now }
{
    (!token.is_empty() && token.len() <= 16) && are_class_bytes(token)
}

/// Reports whether a word is a code with a star behind it.
#[tactic(auto, unfolding(crate::specs::Forms::is_beginning))]
fn is_beginning(token: &[u8]) -> bool
    ensures { result ≡ is_beginning token.now }
{
    if token.is_empty() {
        return false;
    }
    let end = token.len() - 1;
    token[end] == b'*' && is_code(&token[..end])
}

/// Reports whether a word names classes: a star, or a code with a star at its end or without.
#[tactic(auto, unfolding(crate::specs::Forms::is_class))]
fn is_class(token: &[u8]) -> bool
    ensures { result ≡ is_class token.now }
{
    is(token, "*") || is_code(token) || is_beginning(token)
}

/// Reports whether each word names classes.
pub(crate) fn are_classes(tokens: &[&[u8]]) -> bool
    ensures { result ≡ list_all is_class (map (λ w. w.now) tokens.now) }
{
    each_is_class(tokens)
}

fn each_is_class(tokens: &[&[u8]]) -> bool
    ensures { result ≡ list_all (λ w. is_class w.now) tokens.now }
{
    tokens.iter().all(|token| is_class(token))
}
