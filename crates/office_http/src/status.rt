//! The status codes of replies (RFC 9110, section 15).
ghost use Rattle.std.specs.Prelude.{◌≡◌};
ghost use Rattle.http.specs.StatusCode.{status_text};
ghost use Rattle.office_http.specs.Replies.{reason_phrase, status_number, status_words};

use http::StatusCode;

/// The status of an answer.
#[derive(Clone, Copy, PartialEq, Eq, Debug)]
pub enum Status {
    /// What was asked for was done.
    Ok,
    /// The request is not of its form.
    BadRequest,
    /// The name that signed in may not do that, or no proxy states a name.
    Forbidden,
    /// The path, or what it names, is not there.
    NotFound,
    /// The path takes another method.
    MethodNotAllowed,
    /// An act was refused.
    Conflict,
    /// The length of the body is not said.
    LengthRequired,
    /// The body is too long.
    PayloadTooLarge,
    /// The body is in a transfer coding.
    NotImplemented,
    /// The office failed, or memory was refused.
    ServiceUnavailable,
}

impl Status {
    /// The status code, of three digits.
    pub fn number(self) -> u16
        ensures { result ≡ status_number self }
    {
        self.code().as_u16()
    }

    /// The reason phrase.
    pub(crate) fn phrase(self) -> &'static str
        ensures { result.now ≡ reason_phrase self }
    {
        self.code().canonical_reason().unwrap_or("")
    }

    /// The status code of the crate `http`, which knows its phrase.
    #[tactic(auto, unfolding(crate::specs::Replies::status_words))]
    pub(crate) fn code(self) -> StatusCode
        ensures number { result ≡ status_number self }
        ensures words { status_text result ≡ status_words self }
    {
        match self {
            Status::Ok => StatusCode::OK,
            Status::BadRequest => StatusCode::BAD_REQUEST,
            Status::Forbidden => StatusCode::FORBIDDEN,
            Status::NotFound => StatusCode::NOT_FOUND,
            Status::MethodNotAllowed => StatusCode::METHOD_NOT_ALLOWED,
            Status::Conflict => StatusCode::CONFLICT,
            Status::LengthRequired => StatusCode::LENGTH_REQUIRED,
            Status::PayloadTooLarge => StatusCode::PAYLOAD_TOO_LARGE,
            Status::NotImplemented => StatusCode::NOT_IMPLEMENTED,
            Status::ServiceUnavailable => StatusCode::SERVICE_UNAVAILABLE,
        }
    }
}
