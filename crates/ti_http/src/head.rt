//! A head, as far as the input has it, and what is made of it.

use crate::answers::Manner;
use crate::fields::{are_served, crosses_sites};
use crate::hosts::Hosts;
use crate::refusals::Refusal;
use crate::target::Target;
use http1::fields::KnownFields;
use http1::{BodySize, Event, Limits, ReadError, Server};
use httparse::Status;
use httparse::spans::{EMPTY_HEADER_SPAN, HeaderSpan, RequestSpans, parse_request};

/// Bytes of a head, with empty lines before it and the one at its end, at most.
pub const MAX_HEAD: usize = 8192;

/// Fields of a head, at most.
pub const MAX_FIELDS: usize = 64;

/// Bytes of a target, at most.
pub const MAX_TARGET: usize = 1024;

const LIMITS: Limits = Limits {
    max_head_len: MAX_HEAD,
    max_extensions_len: 0,
    max_trailers_len: 2,
};

/// The methods that are served.
#[derive(Clone, Copy, Debug, PartialEq, Eq)]
pub enum Method {
    Get,
    /// The answer is that to `Get`, without its body.
    Head,
}

/// A request that waits for its answer.
#[derive(Clone, Copy, Debug, PartialEq, Eq)]
pub struct Request {
    pub method: Method,
    pub target: Target,
}

/// A head that is whole.
#[derive(Clone, Copy)]
pub(crate) struct Whole {
    /// How many bytes of the input it has.
    pub(crate) len: usize,
    pub(crate) manner: Manner,
    pub(crate) outcome: Result<Request, Refusal>,
}

/// What an input begins with.
#[derive(Clone, Copy)]
pub(crate) enum Seen {
    /// A head that may still become whole.
    More,
    /// No head.
    Broken(Refusal),
    Whole(Whole),
}

impl Method {
    fn of(name: &[u8]) -> Result<Method, Refusal>
        ensures { result ≡ method_of name.now }
    {
        if name == b"GET".as_slice() {
            Ok(Method::Get)
        } else if name == b"HEAD".as_slice() {
            Ok(Method::Head)
        } else if is_known(name) {
            Err(Refusal::Method)
        } else {
            Err(Refusal::UnknownMethod)
        }
    }
}

/// Whether the method is another one of RFC 9110 or RFC 5789.
fn is_known(name: &[u8]) -> bool
    ensures { result ≡ is_some (found name.now known_methods) }
{
    name == b"POST".as_slice()
        || name == b"PUT".as_slice()
        || name == b"DELETE".as_slice()
        || name == b"OPTIONS".as_slice()
        || name == b"PATCH".as_slice()
        || name == b"TRACE".as_slice()
        || name == b"CONNECT".as_slice()
}

fn begins_with_slash(target: &[u8]) -> bool
    ensures { result ≡ begins_with_slash target.now }
{
    match target {
        [] => false,
        [first, ..] => *first == b'/',
    }
}

/// What is asked for, or why it is refused.
fn judge(
    input: &[u8],
    fields: &[HeaderSpan],
    hosts: Hosts,
    name: &[u8],
    target: &[u8],
    has_body: bool,
) -> Result<Request, Refusal>
    requires { All (IsHeaderWithin (length input.now)) fields.now }
    ensures { Judges (refusal_in hosts name.now target.now has_body (map (header_bytes input.now) fields.now)) name.now target.now result }
{
    if target.len() > MAX_TARGET {
        return Err(Refusal::TargetTooLong);
    }
    if has_body {
        return Err(Refusal::Body);
    }
    if !are_served(input, fields, hosts) {
        return Err(Refusal::Host);
    }
    if crosses_sites(input, fields) {
        return Err(Refusal::Site);
    }
    let method = Method::of(name)?;
    if !begins_with_slash(target) {
        return Err(Refusal::NoRequest);
    }
    let target = Target::parse(target)?;
    Ok(Request { method, target })
}

/// What is made of the head at these spans.
fn make_whole(
    input: &[u8],
    spans: &[HeaderSpan],
    head: RequestSpans,
    has_body: bool,
    hosts: Hosts,
) -> Whole
    requires { IsRequestWithin input.now spans.now head }
    ensures len { result.len ≡ head.len }
    ensures manner { result.manner ≡ manner_at (span_bytes input.now head.method) head.version (map (header_bytes input.now) (take head.headers spans.now)) }
    ensures outcome { Judges (refusal_in hosts (span_bytes input.now head.method) (span_bytes input.now head.path) has_body (map (header_bytes input.now) (take head.headers spans.now)))
        (span_bytes input.now head.method) (span_bytes input.now head.path) result.outcome }
{
    let fields = &spans[..head.headers];
    let name = head.method.of(input);
    let known = KnownFields::from_spans(input, fields);
    Whole {
        len: head.len,
        manner: Manner {
            keeps: head.version == 1 && !known.close,
            head_only: name == b"HEAD".as_slice(),
        },
        outcome: judge(input, fields, hosts, name, head.path.of(input), has_body),
    }
}

/// What the input is that `http1` refuses. Where it has too many fields, the parser is asked once more, since it alone says that it
/// has them.
fn refused(input: &[u8], hosts: Hosts, error: ReadError) -> Seen
    ensures { RequestError 8192 input.now 64 error → Sees hosts input.now result }
{
    if error != ReadError::Parse(httparse::Error::TooManyHeaders) {
        return Seen::Broken(Refusal::of(input, error));
    }
    let mut spans = [EMPTY_HEADER_SPAN; MAX_FIELDS];
    match parse_request(input, &mut spans) {
        Err(parser) => Seen::Broken(Refusal::of(input, ReadError::Parse(parser))),
        Ok(Status::Partial) if input.len() < MAX_HEAD => Seen::More,
        Ok(_) => Seen::Broken(Refusal::HeadTooLarge),
    }
}

/// What the input begins with.
pub(crate) fn look(input: &[u8], hosts: Hosts) -> Seen
    ensures { Sees hosts input.now result }
{
    let mut spans = [EMPTY_HEADER_SPAN; MAX_FIELDS];
    let mut server = Server::new(LIMITS);
    match server.read(input, &mut spans) {
        Ok(read) => match read.event {
            Event::Head(head) => {
                let has_body = server.unread_size() != BodySize::Known(0);
                Seen::Whole(make_whole(input, &spans, head, has_body, hosts))
            }
            _ => Seen::More,
        },
        Err(error) => refused(input, hosts, error),
    }
}

ghost use Rattle.std.specs.Prelude.{◌≡◌, length, map, take, All, is_some};
ghost use Rattle.httparse.specs.Spans.{IsHeaderWithin, IsRequestWithin, header_bytes, span_bytes};
ghost use Rattle.http1.specs.ReadError.{RequestError};
ghost use Rattle.ti_http.specs.Targets.{found};
ghost use Rattle.ti_http.specs.Refusals.{method_of, known_methods, begins_with_slash, refusal_in};
ghost use Rattle.ti_http.specs.Heads.{Judges, manner_at, Sees};
