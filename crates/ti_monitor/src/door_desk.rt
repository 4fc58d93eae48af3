//! What all connections of a door share.

use crate::door_answers::{body_of, order_of, retry_after};
use crate::door_tally::Tally;
use crate::monitor::{Monitor, ReadingNo};
use crate::prometheus::metrics_text;
use std::alloc::{AllocError, Global};
use ti_http::{Request, Target};
use ti_types::TiError;

/// A request that waits, and what it waits for.
#[derive(Clone, Copy)]
pub(crate) enum Due {
    /// What this reading gives.
    Reading {
        request: Request,
        reading: ReadingNo,
    },
    /// The answer that the client may try again after so many seconds.
    Later {
        request: Request,
        seconds: u32,
    },
}

/// The same request, which is to be told to try again after a second.
pub(crate) fn postponed(due: Option<Due>) -> Option<Due>
    ensures later { result ≡ postponed due }
    ensures waits { is_due result ≡ is_due due }
{
    match due {
        Some(Due::Reading { request, .. }) => Some(Due::Later {
            request,
            seconds: 1,
        }),
        Some(Due::Later { request, .. }) => Some(Due::Later {
            request,
            seconds: 1,
        }),
        None => None,
    }
}

/// The monitor, and what is counted of all connections.
#[derive(Drop)]
pub(crate) struct Desk {
    pub(crate) alloc: Global,
    pub(crate) monitor: Monitor,
    pub(crate) version: String,
    pub(crate) tally: Tally,
}

/// The times of a call, and how many connections are open.
#[derive(Clone, Copy)]
pub(crate) struct Moment {
    /// Nanoseconds of a clock that never goes back.
    pub(crate) now: u64,
    /// Nanoseconds since 1970.
    pub(crate) unix: u64,
    pub(crate) connections: u64,
}

impl Desk {
    /// The body of `/metrics`. The error is lack of memory.
    pub(crate) fn metrics(&self, connections: u64) -> Result<Vec<u8>, AllocError>
        ensures { IfOk result (λ b. b.items ≡ text_of (metrics_lines (string_bytes self.now.version) self.now.monitor.metrics self.now.tally.rows connections)) }
    {
        let mut out = Vec::new(self.alloc);
        metrics_text(
            &mut out,
            self.version.as_str(),
            self.monitor.metrics(),
            self.tally.rows(),
            connections,
        )?;
        Ok(out)
    }

    /// Begins the reading that a request asks for. If it cannot begin, the client is told when to try again.
    pub(crate) fn begin(&mut self, request: Request, moment: Moment) -> Due
        ensures keeps { Keeps self.old self.new }
        ensures starts { Starts request (books_of self.old) result (books_of self.new) }
    {
        match self
            .monitor
            .begin(order_of(request.target), moment.now, moment.unix)
        {
            Ok(reading) => Due::Reading { request, reading },
            Err(TiError::Full) => Due::Later {
                request,
                seconds: retry_after(request.target),
            },
            Err(_) => Due::Later {
                request,
                seconds: 1,
            },
        }
    }

    /// Ends a reading now, with what is there.
    pub(crate) fn hurry(&mut self, reading: ReadingNo, now: u64)
        ensures keeps { Keeps self.old self.new }
        ensures books { ReadingsGoOn (books_of self.old) (books_of self.new) }
    {
        self.monitor.hurry(reading, now);
    }

    /// Does what is due of the monitor.
    pub(crate) fn tick(&mut self, now: u64)
        ensures keeps { Keeps self.old self.new }
        ensures books { ReadingsGoOn (books_of self.old) (books_of self.new) }
    {
        self.monitor.tick(now);
    }

    /// Gives up the reading that a request waited for, if it waited for one.
    pub(crate) fn forget(&mut self, due: Option<Due>)
        ensures keeps { Keeps self.old self.new }
        ensures agent { self.new.monitor.agent ≡ self.old.monitor.agent }
        ensures left { MayLeave due (books_of self.old) (books_of self.new) }
    {
        if let Some(Due::Reading { reading, .. }) = due {
            self.monitor.forget(reading);
        }
    }

    /// The body that a reading gives, which has ended. `None` if there is no such reading. With an error, which is lack of
    /// memory, the reading is forgotten.
    pub(crate) fn take(
        &mut self,
        reading: ReadingNo,
        target: Target,
    ) -> Result<Option<Vec<u8>>, AllocError>
        ensures keeps { Keeps self.old self.new }
        ensures body { IfOk result (λ b. IfSome b (λ v. IsBodyOf (string_bytes self.old.monitor.program) (books_of self.old).readings reading target v.items)) }
        ensures left { IfOk result (λ b. IfSome b (λ v. TakesOut reading (books_of self.old) (books_of self.new))) }
        ensures none { IfOk result (λ b. IfNone b (has_ended (reading_in (books_of self.old).readings reading) ≡ false)) }
        ensures lost { OnErr result (MayTakeOut reading (books_of self.old) (books_of self.new)) }
    {
        match self.monitor.take(reading) {
            Ok(Some(read)) => Ok(Some(body_of(self.alloc, target, &read)?)),
            Ok(None) => Ok(None),
            Err(_) => {
                self.monitor.forget(reading);
                Err(AllocError)
            }
        }
    }
}

ghost use Rattle.std.specs.Prelude.{◌≡◌, false, IfNone, IfOk, IfSome, OnErr};
ghost use Rattle.std.specs.String.{string_bytes};
ghost use Rattle.ti_monitor.specs.Exposition.{metrics_lines};
ghost use Rattle.ti_monitor.specs.Desks.{Keeps, books_of};
ghost use Rattle.ti_monitor.specs.Monitors.{has_ended, reading_in};
ghost use Rattle.ti_monitor.specs.Serving.{IsBodyOf, MayLeave, MayTakeOut, ReadingsGoOn, Starts, TakesOut};
ghost use Rattle.ti_monitor.specs.Texts.{text_of};
ghost use Rattle.ti_monitor.specs.Seats.{is_due, postponed};
