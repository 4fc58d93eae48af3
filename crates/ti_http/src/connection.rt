//! One connection: what came, what is to be sent, and what is to be done.

use crate::answers::{ContentType, Manner, answer};
use crate::error::HttpError;
use crate::head::{MAX_HEAD, Request};
use crate::hosts::Hosts;
use crate::refusals::Refusal;
use crate::status::Status;
use crate::times::{HEAD_MILLIS, IDLE_MILLIS, WRITE_MILLIS};
use std::alloc::Global;
use std::marker::Model;

/// Requests on one connection, at most. The answer to the last one closes it.
pub(crate) const MAX_REQUESTS: u32 = 1000;

/// What the caller does next.
#[derive(Clone, Copy, Debug, PartialEq, Eq)]
pub enum Action {
    /// Answer this request by `answer`, now or later.
    Ask(Request),
    /// Write `output` to the socket, and tell how much it took by `written`.
    Write,
    /// Close the socket. Nothing more comes.
    Close,
    /// Nothing, until the socket gives more or the answer that is due is there.
    Wait,
}

#[derive(Clone, Copy)]
pub(crate) enum Phase {
    /// A request is read.
    Reading,
    /// A request waits for its answer, which is to be given so.
    Waiting(Manner),
    /// Once all is sent, the connection closes.
    Closing,
    Closed,
}

/// One connection.
///
/// Times are milliseconds of a clock that never goes back. Contracts see a connection as a `Talk`.
#[derive(Drop)]
pub struct Connection {
    pub(crate) alloc: Global,
    pub(crate) hosts: Hosts,
    pub(crate) input: Vec<u8>,
    pub(crate) output: Vec<u8>,
    pub(crate) sent: usize,
    pub(crate) phase: Phase,
    pub(crate) ended: bool,
    pub(crate) since: u64,
    pub(crate) asked: u32,
    pub(crate) answered: u32,
}

impl Model for Connection {
    ghost use Rattle.std.specs.Prelude.{◌≡◌, ◌≤◌, drop, length};
    ghost use Rattle.ti_http.specs.Talks.{Talk, IsSound};

    ghost Value = { Talk };

    ghost view = { λ c. record {
      hosts = c.hosts;
      input = c.input.items;
      output = drop c.sent c.output.items;
      phase = c.phase;
      ended = c.ended;
      since = c.since;
      asked = c.asked;
      answered = c.answered;
    } };

    ghost invariant = { λ c. (c.sent ≤ length c.output.items) × IsSound c.input.items (drop c.sent c.output.items) c.phase c.asked c.answered × (c.sent ≡ length c.output.items → c.sent ≡ 0) };
}

impl Connection {
    /// A connection that waits for its first request. It takes no memory yet.
    pub fn new(alloc: Global, hosts: Hosts, now: u64) -> Connection
        ensures { result ≡ opened hosts now }
    {
        Connection {
            alloc,
            hosts,
            input: Vec::new(alloc),
            output: Vec::new(alloc),
            sent: 0,
            phase: Phase::Reading,
            ended: false,
            since: now,
            asked: 0,
            answered: 0,
        }
    }

    /// How many bytes `feed` takes now, at most 8192. With 0 nothing need be read from the socket.
    pub fn room(&self) -> usize
        ensures room { result ≡ room_in self.now }
        ensures bound { length self.now.input ≤ 8192 }
    {
        let open = matches!(self.phase, Phase::Reading | Phase::Waiting(_));
        if open && !self.ended {
            MAX_HEAD - self.input.len()
        } else {
            0
        }
    }

    /// How many requests came so far, refused ones among them, and how many were answered.
    pub fn counts(&self) -> (u32, u32)
        ensures counts { result ≡ (self.now.asked, self.now.answered) }
        ensures each { self.now.asked ≡ self.now.answered + outstanding self.now.phase }
        ensures bound { self.now.asked ≤ 1000 }
    {
        (self.asked, self.answered)
    }

    /// The bytes that are to be written.
    pub fn output(&self) -> &[u8]
        ensures { result.now ≡ self.now.output }
    {
        &self.output[self.sent..]
    }

    /// Takes bytes that the socket gave, as many as there is room for. It gives their number.
    ///
    /// - 110 OUT_OF_MEMORY: there is no memory for them. Nothing changes.
    pub fn feed(&mut self, bytes: &[u8], now: u64) -> Result<usize, HttpError>
        ensures taken { IfOk result (λ n. n ≡ min (length bytes.now) (room_in self.old)) }
        ensures fed { IfOk result (λ n. self.new ≡ fed self.old (take n bytes.now) now) }
        ensures memory { IfErr result (λ e. e ≡ OutOfMemory) }
        ensures free { IfErr result (λ _. 0 < min (length bytes.now) (room_in self.old)) }
        ensures err { OnErr result (self.new ≡ self.old) }
    {
        let count = bytes.len().min(self.room());
        if count == 0 {
            return Ok(0);
        }
        self.input.extend_from_slice(&bytes[..count])?;
        if self.input.len() == count
            && self.sent == self.output.len()
            && matches!(self.phase, Phase::Reading)
        {
            self.since = now;
        }
        Ok(count)
    }

    /// Says that the socket gives no more. What came whole is still answered.
    pub fn end(&mut self)
        ensures { self.new ≡ ended_by_peer self.old }
    {
        self.ended = true;
    }

    /// Answers the request that waits. After `HEAD` the body is not sent.
    ///
    /// - 112 WRONG_PHASE: no request waits. Nothing changes.
    /// - 110 OUT_OF_MEMORY: there is no memory for the answer. Nothing changes, and the request waits on.
    pub fn answer(
        &mut self,
        status: Status,
        content_type: ContentType,
        body: &[u8],
        now: u64,
    ) -> Result<(), HttpError>
        ensures ok { OnOk result (answered_by self.old now status content_type body.now ≡ Some self.new) }
        ensures unasked { IsErrOf result NotAsked → outstanding self.old.phase ≡ 0 }
        ensures asked { outstanding self.old.phase ≡ 0 → result ≡ Err NotAsked }
        ensures err { OnErr result (self.new ≡ self.old) }
    {
        let Phase::Waiting(asked) = self.phase else {
            return Err(HttpError::NotAsked);
        };
        let manner = Manner {
            keeps: asked.keeps && self.asked < MAX_REQUESTS,
            head_only: asked.head_only,
        };
        self.output = answer(self.alloc, status, content_type, body, manner)?;
        self.sent = 0;
        if manner.keeps {
            self.phase = Phase::Reading;
        } else {
            self.input.clear();
            self.phase = Phase::Closing;
        }
        self.since = now;
        self.answered += 1;
        Ok(())
    }

    /// Says that the socket took so many bytes of the output; more than there are count as all of them.
    pub fn written(&mut self, count: usize, now: u64)
        ensures { self.new ≡ written_from self.old count now }
    {
        let count = count.min(self.output.len() - self.sent);
        if count == 0 {
            return;
        }
        self.sent += count;
        self.since = now;
        if self.sent == self.output.len() {
            self.output.clear();
            self.sent = 0;
        }
    }

    /// How long it waits for the peer, at most. `None` while the peer waits, and after a close.
    fn patience(&self) -> Option<u64>
        ensures { result ≡ patience self.now }
    {
        if self.sent < self.output.len() {
            return Some(WRITE_MILLIS);
        }
        match self.phase {
            Phase::Reading if self.input.is_empty() => Some(IDLE_MILLIS),
            Phase::Reading => Some(HEAD_MILLIS),
            _ => None,
        }
    }

    /// When `tick` has something to do, if no other call comes first. `None` while a request waits, and after a close.
    pub fn deadline(&self) -> Option<u64>
        ensures { result ≡ deadline_of self.now }
    {
        let patience = self.patience()?;
        Some(self.since.saturating_add(patience))
    }

    /// Gives up on a peer that takes too long: an answer that nobody reads and an idle connection are closed, and a head that
    /// does not end gets 408.
    ///
    /// - 110 OUT_OF_MEMORY: there is no memory for the 408. Nothing changes.
    pub fn tick(&mut self, now: u64) -> Result<(), HttpError>
        ensures ok { OnOk result (self.new ≡ ticked self.old now) }
        ensures memory { IfErr result (λ e. e ≡ OutOfMemory) }
        ensures free { IfErr result (λ _. is_late self.old now ≡ true) }
        ensures err { OnErr result (self.new ≡ self.old) }
    {
        let Some(patience) = self.patience() else {
            return Ok(());
        };
        if now.saturating_sub(self.since) < patience {
            return Ok(());
        }
        if self.sent < self.output.len() || self.input.is_empty() {
            self.close();
            return Ok(());
        }
        self.refuse(Refusal::Late, now)?;
        Ok(())
    }
}

ghost use Rattle.std.specs.Prelude.{◌≡◌, ◌+◌, ◌≤◌, ◌<◌, true, length, take, min, Some, Err, IfOk, IfErr, IsErrOf, OnOk, OnErr};
ghost use Rattle.ti_http.specs.Memory.{is_late};
ghost use Rattle.ti_http.specs.Talks.{opened, room_in, outstanding, fed, ended_by_peer, written_from, answered_by, patience, deadline_of, ticked};
ghost use Rattle.ti_http.specs.declared.error.HttpError.TheVariants.{NotAsked, OutOfMemory};
