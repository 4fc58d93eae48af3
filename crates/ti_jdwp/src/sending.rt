//! Whole packets that go to a debugger.

use crate::error::JdwpError;
use crate::packet::HEAD_LEN;

/// What is behind the length and the id of a packet: its flags, and two bytes.
#[derive(Clone, Copy)]
struct Kind {
    flags: u8,
    first: u8,
    second: u8,
}

/// Writes the reply to the request with this id: with the bytes of its body, or with an error and no body.
///
/// Fails with 110 OUT_OF_MEMORY if there is no memory, or if the packet would have 2^32 bytes or more. Nothing is written then.
pub fn reply(out: &mut Vec<u8>, id: u32, answer: Result<&[u8], JdwpError>) -> Result<(), JdwpError>
    ensures written { out.new.items ≡ (if is_ok result then out.old.items ++ reply_packet id (answered answer.entry) else out.old.items) }
    ensures memory { IfErr result (λ e. e ≡ OutOfMemory) }
{
    match answer {
        Ok(body) => put_packet(out, id, replies(0), body),
        Err(error) => put_packet(out, id, replies(error.number()), &[]),
    }
}

/// Writes a composite event with these bytes as its body. It goes to the debugger without a request. The id may be any number,
/// since no reply comes.
///
/// Fails with 110 OUT_OF_MEMORY as [`reply`] does.
pub fn send_event(out: &mut Vec<u8>, id: u32, body: &[u8]) -> Result<(), JdwpError>
    ensures written { out.new.items ≡ (if is_ok result then out.old.items ++ event_packet id body.now else out.old.items) }
    ensures memory { IfErr result (λ e. e ≡ OutOfMemory) }
{
    let kind = Kind {
        flags: 0,
        first: 64,
        second: 100,
    };
    put_packet(out, id, kind, body)
}

/// A reply with this error, or with 0 for none.
fn replies(error: u16) -> Kind
    ensures { kind_bytes result ≡ 128 ∷ to_be_bytes w16 error }
{
    let [first, second] = error.to_be_bytes();
    Kind {
        flags: 0x80,
        first,
        second,
    }
}

#[tactic(auto, unfolding(crate::specs::Fields::int))]
fn head(length: u32, id: u32, kind: Kind) -> [u8; HEAD_LEN]
    ensures { result ≡ int length ++ int id ++ kind_bytes kind }
{
    let [a, b, c, d] = length.to_be_bytes();
    let [e, f, g, h] = id.to_be_bytes();
    [a, b, c, d, e, f, g, h, kind.flags, kind.first, kind.second]
}

fn put_packet(out: &mut Vec<u8>, id: u32, kind: Kind, body: &[u8]) -> Result<(), JdwpError>
    ensures written { out.new.items ≡ (if is_ok result then out.old.items ++ packet id (kind_bytes kind) body.now else out.old.items) }
    ensures memory { IfErr result (λ e. e ≡ OutOfMemory) }
{
    if body.len() > u32::MAX as usize - HEAD_LEN {
        return Err(JdwpError::OutOfMemory);
    }
    let start = out.len();
    out.extend_from_slice(&head((HEAD_LEN + body.len()) as u32, id, kind))?;
    match out.extend_from_slice(body) {
        Ok(()) => Ok(()),
        Err(_) => {
            out.truncate(start);
            Err(JdwpError::OutOfMemory)
        }
    }
}

ghost use Rattle.std.specs.Prelude.{◌≡◌, ◌∷◌, ◌++◌, is_ok, IfErr, if◌then◌else◌};
ghost use Rattle.std.specs.Int.{w16, to_be_bytes};
ghost use Rattle.ti_jdwp.specs.Fields.{int};
ghost use Rattle.ti_jdwp.specs.Sent.{packet, kind_bytes, answered, reply_packet, event_packet};
ghost use Rattle.ti_jdwp.specs.declared.error.JdwpError.TheVariants.{OutOfMemory};
