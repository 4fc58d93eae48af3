//! The answers that a door gives.

use crate::groups_text::push_grouped;
use crate::json::threads_json;
use crate::reading::{Order, Reading};
use crate::texts::push_json;
use crate::threads_text::push_listed;
use std::alloc::{AllocError, Global};
use ti_http::{ContentType, Debug, Target};
use ti_pprof::encode;

/// The text of an answer that says to try again later.
pub(crate) const LATER: &[u8] = b"this cannot be answered now; try again later\n";

/// The text of an answer about a reading that got lost.
pub(crate) const LOST: &[u8] = b"what was read got lost\n";

/// What the body of the answer is.
pub(crate) fn content_type(target: Target) -> ContentType
    ensures { result ≡ content_of target }
{
    match target {
        Target::Metrics => ContentType::Metrics,
        Target::ThreadsJson => ContentType::Json,
        Target::Profile { .. } => ContentType::Octets,
        Target::ThreadsProfile {
            debug: Debug::Profile,
        } => ContentType::Octets,
        _ => ContentType::Text,
    }
}

/// What is to be read for a target.
pub(crate) fn order_of(target: Target) -> Order
    ensures { result ≡ order_of target }
{
    match target {
        Target::Profile {
            seconds,
            rate,
            labels,
        } => Order::Over {
            seconds,
            rate,
            labels,
        },
        _ => Order::Once,
    }
}

/// After how many seconds a client may try again that was refused since too many readings run.
pub(crate) fn retry_after(target: Target) -> u32
    ensures { result ≡ retry_after target }
{
    match target {
        Target::Profile { seconds, .. } => u32::from(seconds),
        _ => 1,
    }
}

/// All threads of a reading, one by one. The error is lack of memory.
fn listed(alloc: Global, reading: &Reading) -> Result<Vec<u8>, AllocError>
    ensures { IfOk result (λ b. b.items ≡ text_of (threads_lines reading.now)) }
{
    let mut out = Vec::new(alloc);
    push_listed(&mut out, reading)?;
    Ok(out)
}

/// All threads of a reading in groups. The error is lack of memory.
fn grouped(alloc: Global, reading: &Reading) -> Result<Vec<u8>, AllocError>
    ensures { IfOk result (λ b. b.items ≡ text_of (groups_lines reading.now)) }
{
    let mut out = Vec::new(alloc);
    push_grouped(&mut out, reading)?;
    Ok(out)
}

/// All threads of a reading as JSON. The error is lack of memory.
fn as_json(alloc: Global, reading: &Reading) -> Result<Vec<u8>, AllocError>
    ensures { IfOk result (λ b. b.items ≡ plain_json (compact_text (threads_data reading.now))) }
{
    let text = threads_json(alloc, reading)?;
    let mut out = Vec::new(alloc);
    push_json(&mut out, text.as_bytes())?;
    Ok(out)
}

/// The profile of a reading. The error is lack of memory.
fn as_profile(alloc: Global, reading: &Reading) -> Result<Vec<u8>, AllocError>
    ensures { IfOk result (λ b. b.items ≡ profile_of reading.now) }
{
    encode(alloc, &reading.about, &reading.names, &reading.counts)
}

/// The body of the answer to a target that a reading was made for. The error is lack of memory.
pub(crate) fn body_of(
    alloc: Global,
    target: Target,
    reading: &Reading,
) -> Result<Vec<u8>, AllocError>
    ensures { IfOk result (λ b. b.items ≡ body_of target reading.now) }
{
    match target {
        Target::ThreadsJson => as_json(alloc, reading),
        Target::Profile { .. } => as_profile(alloc, reading),
        Target::ThreadsProfile { debug } => match debug {
            Debug::Profile => as_profile(alloc, reading),
            Debug::Groups => grouped(alloc, reading),
            Debug::Threads => listed(alloc, reading),
        },
        _ => listed(alloc, reading),
    }
}

ghost use Rattle.std.specs.Prelude.{◌≡◌, IfOk};
ghost use Rattle.serde_json.specs.Written.{compact_text};
ghost use Rattle.ti_monitor.specs.Door.{body_of, content_of, order_of, profile_of, retry_after};
ghost use Rattle.ti_monitor.specs.Json.{threads_data};
ghost use Rattle.ti_monitor.specs.Texts.{plain_json, text_of};
ghost use Rattle.ti_monitor.specs.Threads.{groups_lines, threads_lines};
