//! The body of a request, as a line names it.

/// The length of a body and its SHA-256.
#[derive(Clone, Copy, PartialEq, Eq, Debug)]
pub struct Body {
    pub bytes: u64,
    pub sha256: [u8; 32],
}
