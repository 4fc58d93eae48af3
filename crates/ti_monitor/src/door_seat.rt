//! One connection of a door, and the answer that its request waits for.

use crate::door_answers::{LATER, LOST, content_type};
use crate::door_desk::{Desk, Due, Moment, postponed};
use crate::index::INDEX;
use crate::monitor::ReadingNo;
use std::alloc::Global;
use ti_http::{
    Action, Connection, ContentType, Hosts, HttpError, MAX_HEAD, Method, Request, Status, Target,
};

/// Nanoseconds in a millisecond.
const MILLI: u64 = 1_000_000;

/// What a caller does next with a connection.
#[derive(Clone, Copy, Debug, PartialEq, Eq)]
pub enum Todo {
    /// Write `output` to the socket, and tell how much it took by `written`.
    Write,
    /// Close the socket, and call `closed`.
    Close,
    /// Nothing, until the socket gives more or `tick` was called.
    Wait,
}

/// One connection.
#[derive(Drop)]
pub(crate) struct Seat {
    connection: Connection,
    /// What the request that waits is waiting for.
    due: Option<Due>,
    /// The connection was idle, and closes to make room for another.
    leaving: bool,
    ghost paired: { waits connection ≡ is_due due },
    ghost quiet: { QuietIn connection.phase connection.output },
}

impl Seat {
    ghost use Rattle.ti_monitor.specs.Desks.{Gives, Keeps, SeatServes, ServesWith, books_of};

    /// A connection that waits for its first request.
    pub(crate) fn new(alloc: Global, hosts: Hosts, now: u64) -> Seat
        ensures connection { result.connection ≡ opened hosts (now / 1000000) }
        ensures due { result.due ≡ None }
        ensures stays { result.leaving ≡ false }
    {
        Seat {
            connection: Connection::new(alloc, hosts, now / MILLI),
            due: None,
            leaving: false,
        }
    }

    /// How many bytes `feed` takes now.
    pub(crate) fn room(&self) -> usize
        ensures room { result ≡ room_in self.now.connection }
        ensures bound { result ≤ 8192 }
    {
        self.connection.room()
    }

    /// The bytes that are to be written.
    pub(crate) fn output(&self) -> &[u8]
        ensures { result.now ≡ self.now.connection.output }
    {
        self.connection.output()
    }

    /// Takes bytes that the socket gave, as many as there is room for. The error is lack of memory.
    pub(crate) fn feed(&mut self, bytes: &[u8], now: u64) -> Result<usize, HttpError>
        ensures memory { IfErr result (λ e. e ≡ OutOfMemory) }
        ensures taken { IfOk result (λ n. n ≡ min (length bytes.now) (room_in self.old.connection)) }
        ensures fed { IfOk result (λ n. self.new.connection ≡ fed self.old.connection (take n bytes.now) (now / 1000000)) }
        ensures kept { OnErr result (self.new.connection ≡ self.old.connection) }
        ensures due { self.new.due ≡ self.old.due }
        ensures stays { self.new.leaving ≡ self.old.leaving }
    {
        self.connection.feed(bytes, now / MILLI)
    }

    /// Says that the socket took so many bytes.
    pub(crate) fn written(&mut self, count: usize, now: u64)
        ensures written { self.new.connection ≡ written_from self.old.connection count (now / 1000000) }
        ensures due { self.new.due ≡ self.old.due }
        ensures stays { self.new.leaving ≡ self.old.leaving }
    {
        self.connection.written(count, now / MILLI);
    }

    /// When the connection has to be looked at again. `None` while its request waits, and after a close.
    pub(crate) fn deadline(&self) -> Option<u64>
        ensures { result ≡ in_nanos (deadline_of self.now.connection) }
    {
        let millis = self.connection.deadline()?;
        Some(millis.saturating_mul(MILLI))
    }

    /// Since when it is idle, by its deadline. `None` if it is not.
    pub(crate) fn idle_until(&self) -> Option<u64>
        ensures { result ≡ idle_until self.now.connection }
    {
        let (asked, answered) = self.connection.counts();
        let is_idle = asked == answered
            && self.connection.room() == MAX_HEAD
            && self.connection.output().is_empty();
        if is_idle {
            self.connection.deadline()
        } else {
            None
        }
    }

    pub(crate) fn is_leaving(&self) -> bool
        ensures { result ≡ self.now.leaving }
    {
        self.leaving
    }

    /// Closes an idle connection.
    pub(crate) fn leave(&mut self)
        ensures ended { self.new.connection ≡ ended_by_peer self.old.connection }
        ensures due { self.new.due ≡ self.old.due }
        ensures leaves { self.new.leaving ≡ true }
    {
        self.leaving = true;
        self.connection.end();
    }

    /// What its request waits for.
    pub(crate) fn due(&self) -> Option<Due>
        ensures { result ≡ self.now.due }
    {
        self.due
    }

    /// The reading that its request waits for, if it goes on for some seconds.
    fn profile(&self) -> Option<ReadingNo>
        ensures { result ≡ profile_of self.now.due }
    {
        match self.due {
            Some(
                Due::Reading {
                    request: Request {
                        target: Target::Profile { .. },
                        ..
                    },
                    reading,
                },
            ) => Some(reading),
            _ => None,
        }
    }

    /// The peer sends no more. A profile that it waits for ends now, with what is there. What takes a moment goes on.
    pub(crate) fn end(&mut self, desk: &mut Desk, now: u64)
        ensures run { RunsTo self.old.connection self.new.connection }
        ensures serves { SeatServes self.old desk.old self.new desk.new }
        ensures ended { self.new.connection.ended ≡ true }
        ensures stays { self.new.leaving ≡ self.old.leaving }
        ensures desk { Keeps desk.old desk.new }
    {
        self.connection.end();
        if let Some(reading) = self.profile() {
            desk.hurry(reading, now);
            self.settle(desk, now);
        }
    }

    /// Answers the request that waits. Without memory the request waits on, to be told to try again.
    fn give(
        &mut self,
        desk: &mut Desk,
        status: Status,
        content_type: ContentType,
        body: &[u8],
        now: u64,
    )
        requires { waits self.old.connection ≡ true }
        ensures run { RunsTo self.old.connection self.new.connection }
        ensures serves { Gives (response status content_type body.now) self.old desk.old self.new desk.new }
        ensures ended { self.new.connection.ended ≡ self.old.connection.ended }
        ensures stays { self.new.leaving ≡ self.old.leaving }
        ensures desk { Keeps desk.old desk.new }
    {
        match self
            .connection
            .answer(status, content_type, body, now / MILLI)
        {
            Ok(()) => {
                self.due = None;
                desk.tally.add(status.code());
            }
            Err(_) => {
                self.due = postponed(self.due);
            }
        }
    }

    /// Tells the client to try again after so many seconds.
    fn give_later(&mut self, desk: &mut Desk, seconds: u32, now: u64)
        requires waits { waits self.old.connection ≡ true }
        requires due { seconds_of self.old.due ≡ Some seconds }
        ensures run { RunsTo self.old.connection self.new.connection }
        ensures serves { SeatServes self.old desk.old self.new desk.new }
        ensures ended { self.new.connection.ended ≡ self.old.connection.ended }
        ensures stays { self.new.leaving ≡ self.old.leaving }
        ensures desk { Keeps desk.old desk.new }
    {
        let status = Status::ServiceUnavailable {
            retry_after: seconds,
        };
        self.give(desk, status, ContentType::Text, LATER, now);
    }

    /// Answers with what a reading gives, which has ended.
    fn give_reading(&mut self, desk: &mut Desk, reading: ReadingNo, request: Request, now: u64)
        requires waits { waits self.old.connection ≡ true }
        requires due { self.old.due ≡ Some (due.Reading request reading) }
        requires over { has_ended (reading_in (books_of desk.old).readings reading) ≡ true }
        ensures run { RunsTo self.old.connection self.new.connection }
        ensures serves { SeatServes self.old desk.old self.new desk.new }
        ensures ended { self.new.connection.ended ≡ self.old.connection.ended }
        ensures stays { self.new.leaving ≡ self.old.leaving }
        ensures desk { Keeps desk.old desk.new }
    {
        let target = request.target;
        match desk.take(reading, target) {
            Ok(Some(body)) => self.give(desk, Status::Ok, content_type(target), &body, now),
            Ok(None) => self.give(
                desk,
                Status::InternalServerError,
                ContentType::Text,
                LOST,
                now,
            ),
            Err(_) => {
                self.due = Some(Due::Later {
                    request,
                    seconds: 1,
                })
            }
        }
    }

    /// Answers the request that waits, if its answer is there.
    pub(crate) fn settle(&mut self, desk: &mut Desk, now: u64)
        ensures run { RunsTo self.old.connection self.new.connection }
        ensures serves { SeatServes self.old desk.old self.new desk.new }
        ensures ended { self.new.connection.ended ≡ self.old.connection.ended }
        ensures stays { self.new.leaving ≡ self.old.leaving }
        ensures desk { Keeps desk.old desk.new }
    {
        self.settle_reading(desk, now);
        self.settle_later(desk, now);
    }

    /// Answers the request that waits, if its reading has ended.
    fn settle_reading(&mut self, desk: &mut Desk, now: u64)
        ensures run { RunsTo self.old.connection self.new.connection }
        ensures serves { SeatServes self.old desk.old self.new desk.new }
        ensures ended { self.new.connection.ended ≡ self.old.connection.ended }
        ensures stays { self.new.leaving ≡ self.old.leaving }
        ensures desk { Keeps desk.old desk.new }
    {
        if let Some(Due::Reading { request, reading }) = self.due {
            if desk.monitor.has_ended(reading) {
                self.give_reading(desk, reading, request, now);
            }
        }
    }

    /// Tells the client to try again, if that is due.
    fn settle_later(&mut self, desk: &mut Desk, now: u64)
        ensures run { RunsTo self.old.connection self.new.connection }
        ensures serves { SeatServes self.old desk.old self.new desk.new }
        ensures ended { self.new.connection.ended ≡ self.old.connection.ended }
        ensures stays { self.new.leaving ≡ self.old.leaving }
        ensures desk { Keeps desk.old desk.new }
    {
        if let Some(Due::Later { seconds, .. }) = self.due {
            self.give_later(desk, seconds, now);
        }
    }

    /// Takes a request up: it answers now, or begins the reading that the answer needs.
    fn take_up(&mut self, desk: &mut Desk, request: Request, moment: Moment)
        requires waits { waits self.old.connection ≡ true }
        requires due { self.old.due ≡ Some (due.Later request 1) }
        ensures run { RunsTo self.old.connection self.new.connection }
        ensures serves { ServesWith moment.connections self.old desk.old self.new desk.new }
        ensures stays { self.new.leaving ≡ self.old.leaving }
        ensures desk { Keeps desk.old desk.new }
    {
        self.answer_or_begin(desk, request, moment);
        self.settle(desk, moment.now);
    }

    /// Answers a request that needs no reading, or begins its reading.
    fn answer_or_begin(&mut self, desk: &mut Desk, request: Request, moment: Moment)
        requires waits { waits self.old.connection ≡ true }
        requires due { self.old.due ≡ Some (due.Later request 1) }
        ensures run { RunsTo self.old.connection self.new.connection }
        ensures serves { ServesWith moment.connections self.old desk.old self.new desk.new }
        ensures stays { self.new.leaving ≡ self.old.leaving }
        ensures desk { Keeps desk.old desk.new }
    {
        let target = request.target;
        let kind = content_type(target);
        match target {
            Target::Index => self.give(desk, Status::Ok, kind, INDEX, moment.now),
            Target::Metrics => {
                if let Ok(body) = desk.metrics(moment.connections) {
                    self.give(desk, Status::Ok, kind, &body, moment.now);
                }
            }
            _ if request.method == Method::Head => {
                self.give(desk, Status::Ok, kind, b"", moment.now);
            }
            _ => self.due = Some(desk.begin(request, moment)),
        }
    }

    /// What the connection does next by itself. A request that it gives waits, to be told to try again until it is taken up.
    fn step(&mut self, desk: &mut Desk, now: u64) -> Result<Action, HttpError>
        ensures run { RunsTo self.old.connection self.new.connection }
        ensures serves { SeatServes self.old desk.old self.new desk.new }
        ensures asks { IfOk result (λ a. asks_one a ≡ true → waits self.new.connection ≡ true) }
        ensures due { IfOk result (λ a. self.new.due ≡ due_after a self.old.due) }
        ensures shut { IfOk result (λ a. a ≡ Close → is_shut (state_of self.new.connection.phase) ≡ true) }
        ensures stays { self.new.leaving ≡ self.old.leaving }
        ensures desk { Keeps desk.old desk.new }
    {
        let (_, before) = self.connection.counts();
        let action = self.connection.next(now / MILLI)?;
        let (_, after) = self.connection.counts();
        desk.tally.add_told(before, after, self.connection.output());
        if let Action::Ask(request) = action {
            self.due = Some(Due::Later {
                request,
                seconds: 1,
            });
        }
        Ok(action)
    }

    /// What the caller does next. Requests are taken up here.
    pub(crate) fn next(&mut self, desk: &mut Desk, moment: Moment) -> Result<Todo, HttpError>
        ensures run { RunsTo self.old.connection self.new.connection }
        ensures serves { ServesWith moment.connections self.old desk.old self.new desk.new }
        ensures says { IfOk result (λ t. Says self.new.connection t) }
        ensures stays { self.new.leaving ≡ self.old.leaving }
        ensures desk { Keeps desk.old desk.new }
    {
        self.settle(desk, moment.now);
        match self.step(desk, moment.now)? {
            Action::Ask(request) => {
                self.take_up(desk, request, moment);
                Ok(self.todo())
            }
            Action::Close => Ok(Todo::Close),
            _ => Ok(self.todo()),
        }
    }

    /// Whether there is something to write.
    fn todo(&self) -> Todo
        ensures { Says self.now.connection result }
    {
        if self.connection.output().is_empty() {
            Todo::Wait
        } else {
            Todo::Write
        }
    }

    /// Gives an answer that is there, and gives up on a peer that takes too long.
    pub(crate) fn tick(&mut self, desk: &mut Desk, now: u64)
        ensures run { RunsTo self.old.connection self.new.connection }
        ensures serves { SeatServes self.old desk.old self.new desk.new }
        ensures stays { self.new.leaving ≡ self.old.leaving }
        ensures desk { Keeps desk.old desk.new }
    {
        self.settle(desk, now);
        let (_, before) = self.connection.counts();
        match self.connection.tick(now / MILLI) {
            Ok(()) => {
                let (_, after) = self.connection.counts();
                desk.tally.add_told(before, after, self.connection.output());
            }
            Err(_) => (),
        }
    }
}

ghost use Rattle.std.specs.Prelude.{◌≡◌, ◌≤◌, ◌/◌, false, length, min, take, true, IfErr, IfOk, None, OnErr, Some};
ghost use Rattle.ti_http.specs.declared.connection.Action.TheVariants.{Close};
ghost use Rattle.ti_http.specs.declared.error.HttpError.TheVariants.{OutOfMemory};
ghost use Rattle.ti_http.specs.Runs.{is_shut, state_of};
ghost use Rattle.ti_http.specs.Talks.{deadline_of, ended_by_peer, fed, opened, room_in, written_from};
ghost use Rattle.ti_monitor.specs.declared.door_desk.Due.TheVariants as due;
ghost use Rattle.ti_monitor.specs.Monitors.{has_ended, reading_in};
ghost use Rattle.ti_monitor.specs.Seats.{QuietIn, RunsTo, Says, asks_one, idle_until, in_nanos, is_due, profile_of, seconds_of, waits};
ghost use Rattle.ti_monitor.specs.Serving.{due_after, response};
