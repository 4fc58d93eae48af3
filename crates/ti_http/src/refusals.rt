//! What is refused, and how.

use crate::status::Status;
use http1::ReadError;

/// Why a request is refused.
#[derive(Clone, Copy)]
pub(crate) enum Refusal {
    /// The bytes are no request.
    NoRequest,
    /// The first line has a version other than HTTP/1.0 and HTTP/1.1.
    Version,
    /// The head, or the number of its fields, is too large.
    HeadTooLarge,
    /// The target is too long.
    TargetTooLong,
    /// The head did not end in time.
    Late,
    /// The request has a body.
    Body,
    /// The host is not served here.
    Host,
    /// A page of another site asks.
    Site,
    /// The method is known, and not allowed.
    Method,
    /// The method is unknown.
    UnknownMethod,
    /// The path is unknown.
    Path,
    /// The query is none of this path.
    Query,
}

impl Refusal {
    pub(crate) fn status(self) -> Status
        ensures { result ≡ status_of self }
    {
        match self {
            Refusal::NoRequest => Status::BadRequest,
            Refusal::Version => Status::VersionNotSupported,
            Refusal::HeadTooLarge => Status::HeaderFieldsTooLarge,
            Refusal::TargetTooLong => Status::UriTooLong,
            Refusal::Late => Status::RequestTimeout,
            Refusal::Body => Status::ContentTooLarge,
            Refusal::Host => Status::MisdirectedRequest,
            Refusal::Site => Status::Forbidden,
            Refusal::Method => Status::MethodNotAllowed,
            Refusal::UnknownMethod => Status::NotImplemented,
            Refusal::Path => Status::NotFound,
            Refusal::Query => Status::BadRequest,
        }
    }

    /// The text of the answer.
    pub(crate) fn text(self) -> &'static [u8]
        ensures { result.now ≡ text_of self }
    {
        match self {
            Refusal::NoRequest => b"this is no HTTP/1.1 request\n",
            Refusal::Version => b"HTTP/1.0 and HTTP/1.1 are spoken here\n",
            Refusal::HeadTooLarge => b"the head has more than 8192 bytes or 64 fields\n",
            Refusal::TargetTooLong => b"the target has more than 1024 bytes\n",
            Refusal::Late => b"the head took more than 5 seconds\n",
            Refusal::Body => b"a request has no body here\n",
            Refusal::Host => b"this host is not served here\n",
            Refusal::Site => b"no page of another site is answered here\n",
            Refusal::Method => b"only GET and HEAD are allowed here\n",
            Refusal::UnknownMethod => b"only GET and HEAD are known here\n",
            Refusal::Path => b"there is nothing here; / lists what there is\n",
            Refusal::Query => b"a parameter is unknown here, there twice or out of range\n",
        }
    }

    /// Whether the connection closes, since nobody knows where the next request begins.
    pub(crate) fn closes(self) -> bool
        ensures { result ≡ closes self }
    {
        !matches!(
            self,
            Refusal::Host
                | Refusal::Site
                | Refusal::Method
                | Refusal::UnknownMethod
                | Refusal::Path
                | Refusal::Query
        )
    }

    /// What is wrong with an input that `http1` refuses.
    pub(crate) fn of(input: &[u8], error: ReadError) -> Refusal
        ensures { result ≡ refusal_of input.now error }
    {
        match error {
            ReadError::Parse(httparse::Error::Version) if names_version(input) => Refusal::Version,
            ReadError::Parse(httparse::Error::TooManyHeaders) => Refusal::HeadTooLarge,
            ReadError::TooLarge => Refusal::HeadTooLarge,
            ReadError::UriTooLong => Refusal::TargetTooLong,
            _ => Refusal::NoRequest,
        }
    }
}

/// The bytes behind the first space, if there is one.
fn behind_space(bytes: &[u8]) -> &[u8]
    ensures { result.now ≡ behind_space bytes.now }
{
    let mut rest = bytes;
    while let [first, more @ ..] = rest {
        rest = more;
        if *first == b' ' {
            return rest;
        }
    }
    rest
}

/// Whether `HTTP/` and a digit stand behind the second space.
fn names_version(input: &[u8]) -> bool
    ensures { result ≡ names_version input.now }
{
    let version = behind_space(behind_space(input));
    version.len() > 5 && &version[..5] == b"HTTP/".as_slice() && version[5].is_ascii_digit()
}

ghost use Rattle.std.specs.Prelude.{◌≡◌};
ghost use Rattle.ti_http.specs.Refusals.{status_of, text_of, closes, refusal_of, behind_space, names_version};
