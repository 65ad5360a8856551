//! The content of a record.
ghost use Rattle.std.specs.Prelude.{◌≡◌, ◌<◌, ◌≤◌, IfSome, MatchOption, length};

use std::marker::Model;

/// The bytes of a record's content, at most 262,144. Contracts see them as a list.
#[derive(Drop)]
pub struct Content {
    bytes: Vec<u8>,
}

impl Model for Content {
    ghost use Rattle.std.specs.Prelude.{◌≤◌, List, length, ℕ};

    ghost Value = { List ℕ };

    ghost view = { λ content. content.bytes.items };

    ghost invariant = { λ content. length content.bytes.items ≤ 262_144 };
}

impl Content {
    /// The content of these bytes; `None` where there are too many.
    pub fn new(bytes: Vec<u8>) -> Option<Content>
        ensures few { MatchOption result (262_144 < length bytes.items)
            (λ content. length content ≤ 262_144) }
        ensures value { IfSome result (λ content. content ≡ bytes.items) }
    {
        if bytes.len() > 262_144 {
            return None;
        }
        Some(Content { bytes })
    }

    /// The bytes, to be read where they are.
    pub fn bytes(&self) -> &[u8]
        ensures value { result.now ≡ self.now }
        ensures few { length result.now ≤ 262_144 }
    {
        &self.bytes
    }

    /// The bytes themselves.
    pub fn into_bytes(self) -> Vec<u8>
        ensures value { result.items ≡ self }
        ensures few { length result.items ≤ 262_144 }
    {
        self.bytes
    }
}
