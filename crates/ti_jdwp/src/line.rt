//! The bytes of a connection: those that came and were not worked on yet, and those that are to be sent.

use crate::error::JdwpError;
use crate::packet::HANDSHAKE;
use crate::sending::{reply, send_event};
use std::alloc::Global;
use std::marker::Model;

/// Both sides' bytes. Contracts see them as `Bytes`.
#[derive(Drop)]
pub(crate) struct Line {
    received: Vec<u8>,
    read: usize,
    to_send: Vec<u8>,
    sent: usize,
}

impl Model for Line {
    ghost use Rattle.std.specs.Prelude.{◌≡◌, ◌≤◌, drop, length};
    ghost use Rattle.ti_jdwp.specs.Lines.{Bytes};

    ghost Value = { Bytes };

    ghost view = { λ l. record { input = drop l.read l.received.items; output = drop l.sent l.to_send.items } };

    ghost invariant = { λ l. (l.read ≤ length l.received.items) × (l.sent ≤ length l.to_send.items) × (length l.received.items ≤ 65536) × (l.sent ≡ length l.to_send.items → l.sent ≡ 0) };
}

/// Drops the bytes in front.
fn drop_front(bytes: &mut Vec<u8>, count: usize)
    requires { count ≤ length bytes.old.items }
    ensures { bytes.new.items ≡ drop count bytes.old.items }
{
    bytes.drain(..count);
}

impl Line {
    /// Nothing came, and nothing is to be sent. It takes no memory yet.
    pub(crate) fn new(alloc: Global) -> Line
        ensures { result ≡ no_bytes }
    {
        Line {
            received: Vec::new(alloc),
            read: 0,
            to_send: Vec::new(alloc),
            sent: 0,
        }
    }

    /// What came and was not worked on yet.
    pub(crate) fn input(&self) -> &[u8]
        ensures { result.now ≡ self.now.input }
    {
        &self.received[self.read..]
    }

    /// What is to be sent.
    pub(crate) fn output(&self) -> &[u8]
        ensures { result.now ≡ self.now.output }
    {
        &self.to_send[self.sent..]
    }

    /// Adds bytes that came. 110 OUT_OF_MEMORY if there is no memory for them: nothing changes.
    pub(crate) fn feed(&mut self, bytes: &[u8]) -> Result<(), JdwpError>
        requires { length self.old.input + length bytes.now ≤ 65536 }
        ensures ok { OnOk result (self.new ≡ with_input self.old bytes.now) }
        ensures memory { IfErr result (λ e. e ≡ OutOfMemory) }
        ensures err { OnErr result (self.new ≡ self.old) }
    {
        drop_front(&mut self.received, self.read);
        self.read = 0;
        self.received.extend_from_slice(bytes)?;
        Ok(())
    }

    /// Drops this many bytes of what came; more than there are count as all of them.
    pub(crate) fn skip(&mut self, count: usize)
        ensures { self.new ≡ without_input self.old count }
    {
        self.read += count.min(self.received.len() - self.read);
    }

    /// Replies to the request that stands first in the input, whose packet has this many bytes, and drops the packet. 110
    /// OUT_OF_MEMORY if there is no memory for the reply: nothing changes.
    pub(crate) fn answer(
        &mut self,
        count: usize,
        id: u32,
        answer: Result<&[u8], JdwpError>,
    ) -> Result<(), JdwpError>
        ensures ok { OnOk result (self.new ≡ with_reply self.old count id (answered answer.entry)) }
        ensures memory { IfErr result (λ e. e ≡ OutOfMemory) }
        ensures err { OnErr result (self.new ≡ self.old) }
    {
        reply(&mut self.to_send, id, answer)?;
        self.skip(count);
        Ok(())
    }

    /// Tells an event. 110 OUT_OF_MEMORY if there is no memory for its packet: nothing changes.
    pub(crate) fn tell(&mut self, id: u32, body: &[u8]) -> Result<(), JdwpError>
        ensures ok { OnOk result (self.new ≡ with_output self.old (event_packet id body.now)) }
        ensures memory { IfErr result (λ e. e ≡ OutOfMemory) }
        ensures err { OnErr result (self.new ≡ self.old) }
    {
        send_event(&mut self.to_send, id, body)
    }

    /// Answers the handshake that stands first in the input. 110 OUT_OF_MEMORY if there is no memory: nothing changes.
    pub(crate) fn greet(&mut self) -> Result<(), JdwpError>
        ensures ok { OnOk result (self.new ≡ with_output (without_input self.old 14) handshake) }
        ensures memory { IfErr result (λ e. e ≡ OutOfMemory) }
        ensures err { OnErr result (self.new ≡ self.old) }
    {
        self.send(&HANDSHAKE)?;
        self.skip(HANDSHAKE.len());
        Ok(())
    }

    /// Adds bytes that are to be sent. 110 OUT_OF_MEMORY if there is no memory: nothing changes.
    fn send(&mut self, bytes: &[u8]) -> Result<(), JdwpError>
        ensures ok { OnOk result (self.new ≡ with_output self.old bytes.now) }
        ensures memory { IfErr result (λ e. e ≡ OutOfMemory) }
        ensures err { OnErr result (self.new ≡ self.old) }
    {
        self.to_send.extend_from_slice(bytes)?;
        Ok(())
    }

    /// Says that this many bytes were sent; more than there are count as all of them.
    pub(crate) fn written(&mut self, count: usize)
        ensures { self.new ≡ with_written self.old count }
    {
        self.sent += count.min(self.to_send.len() - self.sent);
        if self.sent == self.to_send.len() {
            self.to_send.clear();
            self.sent = 0;
        }
    }
}

ghost use Rattle.std.specs.Prelude.{◌≡◌, ◌≤◌, ◌+◌, length, drop, IfErr, OnOk, OnErr};
ghost use Rattle.ti_jdwp.specs.Sent.{answered, event_packet};
ghost use Rattle.ti_jdwp.specs.Lines.{no_bytes, with_input, without_input, with_reply, with_output, with_written, handshake};
ghost use Rattle.ti_jdwp.specs.declared.error.JdwpError.TheVariants.{OutOfMemory};
