//! Why the head of a request is rejected.

/// The check that the head of a request does not pass.
#[derive(Clone, Copy, PartialEq, Eq, Debug)]
pub enum Rejection {
    /// HTTP/1.1 without exactly one Host line.
    Host,
    /// A target that names nothing, or has a query.
    Path,
    /// Another method at a path that takes GET.
    NotGet,
    /// Another method at a path that takes POST.
    NotPost,
    /// A body in a transfer coding, as chunked.
    TransferCoding,
    /// A body without a Content-Length line.
    LengthMissing,
    /// Two Content-Length lines, or a length that is not 1 to 19 digits.
    LengthInvalid,
    /// A body of more than 1,048,576 bytes.
    ContentTooLarge,
}
