//! A reply before it is written: status, media type, allowed method and body.
ghost use Rattle.std.specs.Prelude.{◌≡◌};
ghost use Rattle.office_http.specs.Replies.{body_bytes};

use crate::status::Status;

/// What the body of an answer is, as the field `Content-Type` reports it.
#[derive(Clone, Copy, PartialEq, Eq, Debug)]
pub enum MediaType {
    /// JSON.
    Json,
    /// Bytes of no type that the office knows.
    Octets,
    /// Plain text in UTF-8.
    Plain,
}

/// The field `Allow`: the method that a path takes, where another came.
#[derive(Clone, Copy, PartialEq, Eq, Debug)]
pub enum Allow {
    /// No such field.
    Absent,
    /// GET.
    Get,
    /// POST.
    Post,
}

/// The body of an answer.
#[derive(Drop)]
pub enum Body {
    /// Bytes that take no memory.
    Fixed(&'static [u8]),
    /// A text.
    Text(String),
    /// Bytes.
    Bytes(Vec<u8>),
}

impl Body {
    /// Returns the bytes of the body.
    pub fn as_bytes(&self) -> &[u8]
        ensures { result.now ≡ body_bytes self.now }
    {
        match self {
            Body::Fixed(bytes) => bytes,
            Body::Text(text) => text.as_bytes(),
            Body::Bytes(bytes) => bytes.as_slice(),
        }
    }
}

/// An answer.
#[derive(Drop)]
pub struct Reply {
    pub status: Status,
    pub media_type: MediaType,
    pub allow: Allow,
    pub body: Body,
}
