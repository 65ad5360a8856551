//! Errors of a request with a fixed reply of their own, besides the failed checks of a head.

/// Why a request is not served, apart from the checks of its head.
#[derive(Clone, Copy, PartialEq, Eq, Debug)]
pub enum RequestError {
    /// The bytes do not begin with a head within the limits.
    Head,
    /// The connection ends before the body does.
    Body,
    /// The body is no array of JSON.
    Json,
    /// Memory was refused.
    Memory,
    /// There is no such record.
    Record,
    /// There is no such record, or its content is gone.
    Content,
    /// There is no such certificate.
    Certificate,
    /// The path's segment for a day is no day.
    Day,
    /// The path's last segment is no count of days, or one over 3,650.
    Count,
}
