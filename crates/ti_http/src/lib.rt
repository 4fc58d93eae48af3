//! One HTTP/1.1 connection of an inspection service, with no socket and no clock: bytes and the time go in, requests and
//! bytes come out.
//!
//! The caller feeds a [`Connection`] what the socket gave, and does what `next` says: it answers a request, writes the output
//! or closes the socket. One request is out at a time, and its answer may come at any later moment. A request that asks for
//! what is not served gets its refusal here.
//!
//! This crate uses `http1` and `httparse` to read heads and to write them. It promises:
//!
//! - Each request gets one answer, and no answer comes without a request. Nothing follows a close.
//! - At most 8 KiB of input are kept.
//! - What a head is refused for, and the bytes of each answer, are those of the definitions.
#![tactic(auto)]

mod answers;
mod connection;
mod error;
mod fields;
mod head;
mod hosts;
mod laws;
mod params;
mod reading;
mod refusals;
mod status;
mod target;
mod times;

pub use answers::ContentType;
pub use connection::{Action, Connection};
pub use error::HttpError;
pub use head::{MAX_FIELDS, MAX_HEAD, MAX_TARGET, Method, Request};
pub use hosts::Hosts;
pub use laws::{runs_follow_the_protocol, runs_send_answers};
pub use status::Status;
pub use target::{Debug, Labels, Target};
pub use times::{HEAD_MILLIS, IDLE_MILLIS, WRITE_MILLIS};
