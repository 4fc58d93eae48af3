//! Requests, read from the data of a packet.

use crate::disposed::DISPOSED_LEN;
use crate::error::JdwpError;
use crate::fields::{int, long};
use crate::modifiers::{MAX_MODIFIERS, end_of_modifiers, text_len};
use crate::request::{EventKind, Policy, Range, Request};
use crate::slots::SLOT_LEN;

/// Where the slots of 16/1 begin: behind a thread, a frame and a count.
const SLOTS_AT: usize = 20;

/// The greatest number of slots that is asked for at once.
pub const MAX_SLOTS: u32 = 4_096;

/// Reads the data of a request with this command set and command. The data is all of the packet behind its head.
///
/// Fails with 99 NOT_IMPLEMENTED if the command is not served, whatever the data. Fails with 103 ILLEGAL_ARGUMENT if the data
/// is not laid out as the command says, or bytes are left. So do an event request with a policy above 2, one with more than
/// 64 modifiers or a negative number of them, one with a modifier that cannot be read ([`read_modifier`]), and a request for more than
/// 4,096 values or a negative number of them. An event request
/// whose data is well laid out fails with 99 for a kind of event that is not served, and with 102 INVALID_EVENT_TYPE for a
/// number that no kind has.
///
/// [`read_modifier`]: crate::read_modifier
pub fn read_request(set: u8, command: u8, bytes: &[u8]) -> Result<Request, JdwpError>
    // What is read is what the bytes spell.
    ensures found { IfOk result (λ r. IsRequest set command bytes.now r) }
    // What the bytes spell is read.
    ensures only { (r : Request) → IsRequest set command bytes.now r → result ≡ Ok r }
    ensures not_served { layout_of set command ≡ None → result ≡ Err NotImplemented }
    // Which error it is.
    ensures exact { result ≡ request_in set command bytes.now }
{
    request_of(set, command, bytes)
}

fn request_of(set: u8, command: u8, bytes: &[u8]) -> Result<Request, JdwpError>
    ensures { result ≡ request_in set command bytes.now }
{
    match set {
        1 => virtual_machine(command, bytes),
        2 => reference_type(command, bytes),
        3 => class_type(command, bytes),
        6 => method(command, bytes),
        9 => object_reference(command, bytes),
        10 => string_reference(command, bytes),
        11 => thread_reference(command, bytes),
        12 => thread_group(command, bytes),
        13 => array_reference(command, bytes),
        15 => event_request(command, bytes),
        16 => stack_frame(command, bytes),
        _ => Err(JdwpError::NotImplemented),
    }
}

fn virtual_machine(command: u8, bytes: &[u8]) -> Result<Request, JdwpError>
    ensures { result ≡ request_in 1 command bytes.now }
{
    match command {
        1 => plain(Request::Version, bytes),
        2 => classes_by_signature(bytes),
        4 => plain(Request::AllThreads, bytes),
        5 => plain(Request::TopLevelThreadGroups, bytes),
        6 => plain(Request::Dispose, bytes),
        7 => plain(Request::IdSizes, bytes),
        8 => plain(Request::SuspendAll, bytes),
        9 => plain(Request::ResumeAll, bytes),
        12 => plain(Request::Capabilities, bytes),
        13 => plain(Request::ClassPaths, bytes),
        14 => dispose_objects(bytes),
        15 => plain(Request::HoldEvents, bytes),
        16 => plain(Request::ReleaseEvents, bytes),
        17 => plain(Request::CapabilitiesNew, bytes),
        20 => plain(Request::AllClasses, bytes),
        _ => Err(JdwpError::NotImplemented),
    }
}

fn reference_type(command: u8, bytes: &[u8]) -> Result<Request, JdwpError>
    ensures { result ≡ request_in 2 command bytes.now }
{
    match command {
        1 => Ok(Request::Signature(id(bytes)?)),
        2 => Ok(Request::ClassLoader(id(bytes)?)),
        3 => Ok(Request::Modifiers(id(bytes)?)),
        7 => Ok(Request::SourceFile(id(bytes)?)),
        9 => Ok(Request::ClassStatus(id(bytes)?)),
        10 => Ok(Request::Interfaces(id(bytes)?)),
        13 => Ok(Request::SignatureWithGeneric(id(bytes)?)),
        14 => Ok(Request::Fields(id(bytes)?)),
        15 => Ok(Request::MethodsWithGeneric(id(bytes)?)),
        _ => Err(JdwpError::NotImplemented),
    }
}

fn class_type(command: u8, bytes: &[u8]) -> Result<Request, JdwpError>
    ensures { result ≡ request_in 3 command bytes.now }
{
    match command {
        1 => Ok(Request::Superclass(id(bytes)?)),
        _ => Err(JdwpError::NotImplemented),
    }
}

fn method(command: u8, bytes: &[u8]) -> Result<Request, JdwpError>
    ensures { result ≡ request_in 6 command bytes.now }
{
    match command {
        1 => {
            let (class, method) = two_ids(bytes)?;
            Ok(Request::LineTable { class, method })
        }
        2 => {
            let (class, method) = two_ids(bytes)?;
            Ok(Request::VariableTable { class, method })
        }
        4 => {
            let (class, method) = two_ids(bytes)?;
            Ok(Request::IsObsolete { class, method })
        }
        5 => {
            let (class, method) = two_ids(bytes)?;
            Ok(Request::VariableTableWithGeneric { class, method })
        }
        _ => Err(JdwpError::NotImplemented),
    }
}

fn object_reference(command: u8, bytes: &[u8]) -> Result<Request, JdwpError>
    ensures { result ≡ request_in 9 command bytes.now }
{
    match command {
        1 => Ok(Request::ReferenceType(id(bytes)?)),
        9 => Ok(Request::IsCollected(id(bytes)?)),
        _ => Err(JdwpError::NotImplemented),
    }
}

fn string_reference(command: u8, bytes: &[u8]) -> Result<Request, JdwpError>
    ensures { result ≡ request_in 10 command bytes.now }
{
    match command {
        1 => Ok(Request::TextValue(id(bytes)?)),
        _ => Err(JdwpError::NotImplemented),
    }
}

fn thread_reference(command: u8, bytes: &[u8]) -> Result<Request, JdwpError>
    ensures { result ≡ request_in 11 command bytes.now }
{
    match command {
        1 => Ok(Request::ThreadName(id(bytes)?)),
        2 => Ok(Request::Suspend(id(bytes)?)),
        3 => Ok(Request::Resume(id(bytes)?)),
        4 => Ok(Request::ThreadStatus(id(bytes)?)),
        5 => Ok(Request::ThreadGroup(id(bytes)?)),
        6 => {
            let (thread, start, length) = part(bytes)?;
            Ok(Request::Frames {
                thread,
                start,
                length,
            })
        }
        7 => Ok(Request::FrameCount(id(bytes)?)),
        12 => Ok(Request::SuspendCount(id(bytes)?)),
        _ => Err(JdwpError::NotImplemented),
    }
}

fn thread_group(command: u8, bytes: &[u8]) -> Result<Request, JdwpError>
    ensures { result ≡ request_in 12 command bytes.now }
{
    match command {
        1 => Ok(Request::GroupName(id(bytes)?)),
        2 => Ok(Request::GroupParent(id(bytes)?)),
        3 => Ok(Request::GroupChildren(id(bytes)?)),
        _ => Err(JdwpError::NotImplemented),
    }
}

fn array_reference(command: u8, bytes: &[u8]) -> Result<Request, JdwpError>
    ensures { result ≡ request_in 13 command bytes.now }
{
    match command {
        1 => Ok(Request::TableLength(id(bytes)?)),
        2 => {
            let (table, start, length) = part(bytes)?;
            Ok(Request::TableEntries {
                table,
                start,
                length,
            })
        }
        _ => Err(JdwpError::NotImplemented),
    }
}

fn event_request(command: u8, bytes: &[u8]) -> Result<Request, JdwpError>
    ensures { result ≡ request_in 15 command bytes.now }
{
    match command {
        1 => set_event(bytes),
        2 => clear_event(bytes),
        _ => Err(JdwpError::NotImplemented),
    }
}

fn stack_frame(command: u8, bytes: &[u8]) -> Result<Request, JdwpError>
    ensures { result ≡ request_in 16 command bytes.now }
{
    match command {
        1 => frame_values(bytes),
        3 => {
            let (thread, frame) = two_ids(bytes)?;
            Ok(Request::ThisObject { thread, frame })
        }
        4 => {
            let (thread, frame) = two_ids(bytes)?;
            Ok(Request::PopFrames { thread, frame })
        }
        _ => Err(JdwpError::NotImplemented),
    }
}

/// A request without data.
fn plain(request: Request, bytes: &[u8]) -> Result<Request, JdwpError>
    ensures { result ≡ read_as (no_fields request) bytes.now }
{
    if bytes.is_empty() {
        Ok(request)
    } else {
        Err(JdwpError::IllegalArgument)
    }
}

/// The id that is all of the data.
fn id(bytes: &[u8]) -> Result<u64, JdwpError>
    ensures { result ≡ id_in bytes.now }
{
    if bytes.len() == 8 {
        Ok(long(bytes, 0))
    } else {
        Err(JdwpError::IllegalArgument)
    }
}

fn classes_by_signature(bytes: &[u8]) -> Result<Request, JdwpError>
    ensures { result ≡ read_as of_signature bytes.now }
{
    if text_len(bytes)? == bytes.len() {
        Ok(Request::ClassesBySignature(Range {
            start: 4,
            end: bytes.len(),
        }))
    } else {
        Err(JdwpError::IllegalArgument)
    }
}

fn dispose_objects(bytes: &[u8]) -> Result<Request, JdwpError>
    ensures { result ≡ read_as of_objects bytes.now }
{
    if bytes.len() >= 4 && bytes.len() == 4 + DISPOSED_LEN * int(bytes, 0) as usize {
        Ok(Request::DisposeObjects(Range {
            start: 4,
            end: bytes.len(),
        }))
    } else {
        Err(JdwpError::IllegalArgument)
    }
}

/// The two ids that are all of the data.
fn two_ids(bytes: &[u8]) -> Result<(u64, u64), JdwpError>
    ensures { result ≡ two_ids_in bytes.now }
{
    if bytes.len() == 16 {
        Ok((long(bytes, 0), long(bytes, 8)))
    } else {
        Err(JdwpError::IllegalArgument)
    }
}

/// An id, a start and a length, which are all of the data.
fn part(bytes: &[u8]) -> Result<(u64, i32, i32), JdwpError>
    ensures { result ≡ part_in bytes.now }
{
    if bytes.len() == 16 {
        Ok((
            long(bytes, 0),
            int(bytes, 8).cast_signed(),
            int(bytes, 12).cast_signed(),
        ))
    } else {
        Err(JdwpError::IllegalArgument)
    }
}

fn frame_values(bytes: &[u8]) -> Result<Request, JdwpError>
    ensures { result ≡ read_as of_slots bytes.now }
{
    if bytes.len() < SLOTS_AT {
        return Err(JdwpError::IllegalArgument);
    }
    let count = int(bytes, 16);
    if count > MAX_SLOTS || bytes.len() != SLOTS_AT + SLOT_LEN * count as usize {
        return Err(JdwpError::IllegalArgument);
    }
    Ok(Request::FrameValues {
        thread: long(bytes, 0),
        frame: long(bytes, 8),
        slots: Range {
            start: SLOTS_AT,
            end: bytes.len(),
        },
    })
}

fn set_event(bytes: &[u8]) -> Result<Request, JdwpError>
    ensures { result ≡ read_as of_event bytes.now }
{
    if bytes.len() < 6 {
        return Err(JdwpError::IllegalArgument);
    }
    let policy = Policy::from_number(bytes[1])?;
    let count = int(bytes, 2);
    if count > MAX_MODIFIERS {
        return Err(JdwpError::IllegalArgument);
    }
    let end = end_of_modifiers(bytes, 6, count)?;
    if end != bytes.len() {
        return Err(JdwpError::IllegalArgument);
    }
    let kind = EventKind::from_number(bytes[0])?;
    let modifiers = Range { start: 6, end };
    Ok(Request::SetEvent {
        kind,
        policy,
        modifiers,
        count,
    })
}

fn clear_event(bytes: &[u8]) -> Result<Request, JdwpError>
    ensures { result ≡ read_as of_clear bytes.now }
{
    if bytes.len() == 5 {
        Ok(Request::ClearEvent {
            kind: bytes[0],
            request: int(bytes, 1).cast_signed(),
        })
    } else {
        Err(JdwpError::IllegalArgument)
    }
}

ghost use Rattle.std.specs.Prelude.{◌≡◌, IfOk};
ghost use Rattle.ti_jdwp.specs.declared.error.JdwpError.TheVariants.{NotImplemented};
ghost use Rattle.ti_jdwp.specs.Spelled.{IsRequest};
ghost use Rattle.ti_jdwp.specs.declared.request.Request.{Request};
ghost use Rattle.ti_jdwp.specs.Requests.{id_in, two_ids_in, part_in, read_as, request_in};
ghost use Rattle.ti_jdwp.specs.Commands.{layout_of, no_fields, of_signature, of_objects, of_event, of_clear, of_slots};
