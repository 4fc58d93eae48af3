//! The statuses of answers.

/// The status of an answer (RFC 9110, section 15; RFC 6585, section 5).
#[derive(Clone, Copy, Debug, PartialEq, Eq)]
pub enum Status {
    Ok,
    BadRequest,
    Forbidden,
    NotFound,
    MethodNotAllowed,
    RequestTimeout,
    ContentTooLarge,
    UriTooLong,
    MisdirectedRequest,
    HeaderFieldsTooLarge,
    InternalServerError,
    NotImplemented,
    /// The client may try again after so many seconds.
    ServiceUnavailable { retry_after: u32 },
    VersionNotSupported,
}

impl Status {
    /// The three digits, from 200 to 505.
    pub fn code(self) -> u16
        ensures { result ≡ code_of self }
    {
        match self {
            Status::Ok => 200,
            Status::BadRequest => 400,
            Status::Forbidden => 403,
            Status::NotFound => 404,
            Status::MethodNotAllowed => 405,
            Status::RequestTimeout => 408,
            Status::ContentTooLarge => 413,
            Status::UriTooLong => 414,
            Status::MisdirectedRequest => 421,
            Status::HeaderFieldsTooLarge => 431,
            Status::InternalServerError => 500,
            Status::NotImplemented => 501,
            Status::ServiceUnavailable { .. } => 503,
            Status::VersionNotSupported => 505,
        }
    }

    /// The reason phrase, as in `Not Found`.
    pub fn reason(self) -> &'static [u8]
        ensures { result.now ≡ reason_of self }
    {
        match self {
            Status::Ok => b"OK",
            Status::BadRequest => b"Bad Request",
            Status::Forbidden => b"Forbidden",
            Status::NotFound => b"Not Found",
            Status::MethodNotAllowed => b"Method Not Allowed",
            Status::RequestTimeout => b"Request Timeout",
            Status::ContentTooLarge => b"Content Too Large",
            Status::UriTooLong => b"URI Too Long",
            Status::MisdirectedRequest => b"Misdirected Request",
            Status::HeaderFieldsTooLarge => b"Request Header Fields Too Large",
            Status::InternalServerError => b"Internal Server Error",
            Status::NotImplemented => b"Not Implemented",
            Status::ServiceUnavailable { .. } => b"Service Unavailable",
            Status::VersionNotSupported => b"HTTP Version Not Supported",
        }
    }
}

ghost use Rattle.std.specs.Prelude.{◌≡◌};
ghost use Rattle.ti_http.specs.Answers.{code_of, reason_of};
