//! The bytes of an answer.

use crate::error::HttpError;
use crate::status::Status;
use http1::{Header, WriteError, head};
use itoa::Buffer;
use std::alloc::Global;

/// What the body of an answer is.
#[derive(Clone, Copy, Debug, PartialEq, Eq)]
pub enum ContentType {
    /// `text/plain` in UTF-8.
    Text,
    /// `application/json`.
    Json,
    /// The text format of Prometheus, version 0.0.4.
    Metrics,
    /// `application/octet-stream`, as of a profile.
    Octets,
}

impl ContentType {
    /// The value of the field `Content-Type`.
    pub fn value(self) -> &'static [u8]
        ensures { result.now ≡ type_of self }
    {
        match self {
            ContentType::Text => b"text/plain; charset=utf-8",
            ContentType::Json => b"application/json",
            ContentType::Metrics => b"text/plain; version=0.0.4; charset=utf-8",
            ContentType::Octets => b"application/octet-stream",
        }
    }
}

/// What is done with the connection and the body of an answer.
#[derive(Clone, Copy)]
pub(crate) struct Manner {
    /// The connection stays open.
    pub(crate) keeps: bool,
    /// The request was `HEAD`, so no body follows.
    pub(crate) head_only: bool,
}

/// Writes the head, whose content has this many bytes.
fn write_head(
    out: &mut Vec<u8>,
    status: Status,
    content_type: ContentType,
    length: usize,
    keeps: bool,
) -> Result<(), HttpError>
    ensures ok { OnOk result (out.new.items ≡ out.old.items ++ head_text status content_type length keeps) }
    ensures memory { IfErr result (λ e. e ≡ OutOfMemory) }
{
    let mut digits = Buffer::new();
    write_common(
        out,
        status,
        content_type.value(),
        digits.format(length).as_bytes(),
        option(keeps),
    )
}

/// Writes the head with these values of the fields that each answer has.
fn write_common<'a>(
    out: &mut Vec<u8>,
    status: Status,
    content_type: &'a [u8],
    length: &'a [u8],
    connection: &'a [u8],
) -> Result<(), HttpError>
    requires { are_headers (with_values content_type.now length.now connection.now) ≡ true }
    ensures ok { OnOk result (out.new.items ≡ out.old.items
        ++ response_text 1 (code_of status) (reason_of status) (with_values content_type.now length.now connection.now ++ own_fields status)) }
    ensures memory { IfErr result (λ e. e ≡ OutOfMemory) }
{
    let fields = [
        Header {
            name: b"Content-Type",
            value: content_type,
        },
        Header {
            name: b"Content-Length",
            value: length,
        },
        Header {
            name: b"X-Content-Type-Options",
            value: b"nosniff",
        },
        Header {
            name: b"Cache-Control",
            value: b"no-store",
        },
        Header {
            name: b"Connection",
            value: connection,
        },
    ];
    write_fields(out, status, &fields)
}

/// The value of the field `Connection`.
fn option(keeps: bool) -> &'static [u8]
    ensures { result.now ≡ option_of keeps }
{
    if keeps { b"keep-alive" } else { b"close" }
}

/// Writes the head with these fields, and those that the status has of its own.
fn write_fields(out: &mut Vec<u8>, status: Status, fields: &[Header<'_>]) -> Result<(), HttpError>
    requires { are_headers (pairs fields.now) ≡ true }
    ensures ok { OnOk result (out.new.items ≡ out.old.items
        ++ response_text 1 (code_of status) (reason_of status) (pairs fields.now ++ own_fields status)) }
    ensures memory { IfErr result (λ e. e ≡ OutOfMemory) }
{
    let pprof = Header {
        name: b"X-Go-Pprof",
        value: b"1",
    };
    match status {
        Status::Ok => put(out, status, fields, &[]),
        Status::MethodNotAllowed => {
            let allow = Header {
                name: b"Allow",
                value: b"GET, HEAD",
            };
            put(out, status, fields, &[pprof, allow])
        }
        Status::ServiceUnavailable { retry_after } => put_retry(out, status, fields, retry_after),
        _ => put(out, status, fields, &[pprof]),
    }
}

/// Writes the head of a 503, which says after how many seconds the client may try again.
fn put_retry(
    out: &mut Vec<u8>,
    status: Status,
    fields: &[Header<'_>],
    seconds: u32,
) -> Result<(), HttpError>
    requires fields { are_headers (pairs fields.now) ≡ true }
    requires status { status ≡ ServiceUnavailable seconds }
    ensures ok { OnOk result (out.new.items ≡ out.old.items
        ++ response_text 1 (code_of status) (reason_of status) (pairs fields.now ++ own_fields status)) }
    ensures memory { IfErr result (λ e. e ≡ OutOfMemory) }
{
    let mut digits = Buffer::new();
    let own = [
        Header {
            name: b"X-Go-Pprof",
            value: b"1",
        },
        Header {
            name: b"Retry-After",
            value: digits.format(seconds).as_bytes(),
        },
    ];
    put(out, status, fields, &own)
}

fn put(
    out: &mut Vec<u8>,
    status: Status,
    fields: &[Header<'_>],
    own: &[Header<'_>],
) -> Result<(), HttpError>
    requires fields { are_headers (pairs fields.now) ≡ true }
    requires own { are_headers (pairs own.now) ≡ true }
    ensures ok { OnOk result (out.new.items ≡ out.old.items
        ++ response_text 1 (code_of status) (reason_of status) (all_headers fields.now own.now)) }
    ensures memory { IfErr result (λ e. e ≡ OutOfMemory) }
{
    match head::write_response(out, 1, status.code(), status.reason(), fields, own) {
        Ok(()) => Ok(()),
        Err(error) => {
            // A head of these fields can be written, so only memory lacks.
            prove!(error == WriteError::OutOfMemory);
            Err(HttpError::OutOfMemory)
        }
    }
}

/// The bytes of an answer.
///
/// Fails only if there is no memory for them.
pub(crate) fn answer(
    alloc: Global,
    status: Status,
    content_type: ContentType,
    body: &[u8],
    manner: Manner,
) -> Result<Vec<u8>, HttpError>
    ensures ok { IfOk result (λ v. v.items ≡ answer_text status content_type manner body.now) }
    ensures memory { IfErr result (λ e. e ≡ OutOfMemory) }
{
    let mut out = Vec::new(alloc);
    write_head(&mut out, status, content_type, body.len(), manner.keeps)?;
    if !manner.head_only {
        out.extend_from_slice(body)?;
    }
    Ok(out)
}

ghost use Rattle.std.specs.Prelude.{◌≡◌, ◌++◌, true, IfOk, IfErr, OnOk};
ghost use Rattle.http1.specs.Head.{pairs, all_headers, are_headers, response_text};
ghost use Rattle.ti_http.specs.Answers.{type_of, option_of, own_fields, with_values, code_of, reason_of, head_text, answer_text};
ghost use Rattle.ti_http.specs.declared.error.HttpError.TheVariants.{OutOfMemory};
ghost use Rattle.ti_http.specs.declared.status.Status.TheVariants.{ServiceUnavailable};
