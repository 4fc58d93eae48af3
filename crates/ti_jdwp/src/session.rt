//! One debugger on one connection: what came, what is to be sent, and what the driver does.

use crate::actions::{Phase, Purpose};
use crate::error::JdwpError;
use crate::events::Events;
use crate::front::First;
use crate::line::Line;
use crate::notice::Notice;
use crate::requests_in_force::Requests;
use crate::session_error::SessionError;
use crate::suspensions::Suspensions;
use std::alloc::Global;
use std::marker::Model;

/// Bytes of input that are kept, at most: those of the longest packet.
const MAX_INPUT: usize = 65_536;

/// A debugger's session.
///
/// A request stays in the input until its reply is written. Suspensions, event requests and waiting events are the session's
/// own, and end with it.
#[derive(Drop)]
pub struct Session {
    pub(crate) alloc: Global,
    pub(crate) line: Line,
    pub(crate) phase: Phase,
    /// The request that is worked on, or was last.
    pub(crate) first: First,
    pub(crate) ended: bool,
    /// The socket is gone.
    pub(crate) gone: bool,
    pub(crate) suspensions: Suspensions,
    pub(crate) requests: Requests,
    pub(crate) events: Events,
    /// Threads that are yet to be suspended or resumed.
    pub(crate) work: Vec<u32>,
    /// The event for which threads are suspended.
    pub(crate) notice: Option<Notice>,
    /// How many events were told, modulo 2^32.
    pub(crate) told: u32,
    /// There was no memory to count the suspension of some thread.
    pub(crate) short: bool,
}

impl Model for Session {
    ghost use Rattle.std.specs.Prelude.{◌≤◌, length};
    ghost use Rattle.ti_jdwp.specs.Talks.{Talk};

    ghost Value = { Talk };

    ghost view = { λ s. record {
      bytes = s.line;
      phase = s.phase;
      first = s.first;
      ended = s.ended;
      gone = s.gone;
      holds = s.suspensions;
      requests = s.requests;
      queue = s.events;
      work = s.work.items;
      notice = s.notice;
      told = s.told;
      short = s.short;
    } };

    ghost invariant = { λ s. length s.line.input ≤ 65536 };
}

impl Session {
    /// A session that waits for the handshake. It takes no memory yet.
    pub fn new(alloc: Global) -> Session
        ensures { result ≡ opened }
    {
        Session {
            alloc,
            line: Line::new(alloc),
            phase: Phase::Greeting,
            first: First::NONE,
            ended: false,
            gone: false,
            suspensions: Suspensions::new(alloc),
            requests: Requests::new(alloc),
            events: Events::new(alloc),
            work: Vec::new(alloc),
            notice: None,
            told: 0,
            short: false,
        }
    }

    /// How many bytes `feed` takes now, at most 65,536. With 0 nothing need be read from the socket: there is output that the
    /// socket did not take, the session ends, or a whole packet is worked on.
    pub fn room(&self) -> usize
        ensures room { result ≡ room_in self.now }
        ensures bound { length self.now.bytes.input ≤ 65536 }
    {
        let open = !matches!(self.phase, Phase::Ending | Phase::Closed);
        if open && !self.ended && !self.gone && self.line.output().is_empty() {
            MAX_INPUT - self.line.input().len()
        } else {
            0
        }
    }

    /// The bytes that are to be written.
    pub fn output(&self) -> &[u8]
        ensures { result.now ≡ self.now.bytes.output }
    {
        self.line.output()
    }

    /// How many events were lost, since 4,096 waited or there was no memory.
    pub fn lost_events(&self) -> u64
        ensures { result ≡ self.now.queue.lost }
    {
        self.events.lost()
    }

    /// How often the debugger suspended the thread and did not resume it yet.
    pub fn suspend_count(&self, thread: u32) -> u32
        ensures { result ≡ count_of self.now.holds thread }
    {
        self.suspensions.count(thread)
    }

    /// Takes bytes that the socket gave, as many as there is room for. It gives their number.
    ///
    /// - 110 OUT_OF_MEMORY: there is no memory for them. Nothing changes.
    pub fn feed(&mut self, bytes: &[u8]) -> Result<usize, SessionError>
        ensures taken { IfOk result (λ n. n ≡ min (length bytes.now) (room_in self.old)) }
        ensures fed { IfOk result (λ n. self.new ≡ fed self.old (take n bytes.now)) }
        ensures memory { IfErr result (λ e. e ≡ OutOfMemory) }
        ensures free { IfErr result (λ _. 0 < min (length bytes.now) (room_in self.old)) }
        ensures err { OnErr result (self.new ≡ self.old) }
    {
        let count = bytes.len().min(self.room());
        if count == 0 {
            return Ok(0);
        }
        self.line.feed(&bytes[..count])?;
        Ok(count)
    }

    /// Says that the socket gives no more. Requests that came whole are still answered, and then the session ends.
    pub fn end(&mut self)
        ensures { self.new ≡ record self.old { ended = true } }
    {
        self.ended = true;
    }

    /// Says that the socket is gone, or that the service ends. Nothing is answered any more. What the debugger suspended is still
    /// resumed by `next`.
    pub fn close(&mut self)
        ensures { self.new ≡ closed self.old }
    {
        self.gone = true;
        self.wind_up();
    }

    /// Nothing is read or answered any more.
    pub(crate) fn wind_up(&mut self)
        ensures { self.new ≡ record self.old { phase = closing self.old.phase } }
    {
        self.phase = match self.phase {
            Phase::Suspending { thread, .. } => Phase::Suspending {
                purpose: Purpose::End,
                thread,
            },
            Phase::Undoing { thread, .. } => Phase::Undoing {
                purpose: Purpose::End,
                thread,
            },
            Phase::Closed => Phase::Closed,
            _ => Phase::Ending,
        };
    }

    /// Says that the socket took so many bytes of the output; more than there are count as all of them.
    pub fn written(&mut self, count: usize)
        ensures { self.new ≡ record self.old { bytes = with_written self.old.bytes count } }
    {
        self.line.written(count);
    }

    /// The data of the request that is asked, in which its ranges lie.
    pub fn data(&self) -> &[u8]
        ensures { result.now ≡ data_of self.now.first self.now.bytes.input }
    {
        self.first.data(self.line.input())
    }

    /// Replies to the request that is worked on, and drops its packet. The session is ready for the next one.
    pub(crate) fn answer(&mut self, answer: Result<&[u8], JdwpError>) -> Result<(), SessionError>
        ensures ok { OnOk result (self.new ≡ replied self.old (answered answer.entry)) }
        ensures memory { IfErr result (λ e. e ≡ OutOfMemory) }
        ensures err { OnErr result (self.new ≡ self.old) }
    {
        self.line.answer(self.first.length, self.first.id, answer)?;
        self.phase = Phase::Ready;
        Ok(())
    }
}

ghost use Rattle.std.specs.Prelude.{◌≡◌, ◌≤◌, ◌<◌, true, length, take, min, IfOk, IfErr, OnOk, OnErr};
ghost use Rattle.ti_jdwp.specs.Holds.{count_of};
ghost use Rattle.ti_jdwp.specs.Lines.{with_written};
ghost use Rattle.ti_jdwp.specs.Sent.{answered};
ghost use Rattle.ti_jdwp.specs.Talks.{opened, room_in, fed, closing, closed, replied, data_of};
ghost use Rattle.ti_jdwp.specs.declared.session_error.SessionError.TheVariants.{OutOfMemory};
