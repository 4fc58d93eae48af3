//! The connections of an inspection service over HTTP.

use crate::door_desk::{Desk, Moment};
use crate::door_error::DoorError;
use crate::door_seat::{Seat, Todo};
use crate::door_seats::{ConnNo, Seats};
use crate::door_tally::Tally;
use crate::monitor::Monitor;
use std::alloc::Global;
use std::marker::Model;
use ti_http::Hosts;
use ti_service::Service;
use ti_types::TiError;

/// Connections that ask a monitor. Times are nanoseconds of a clock that never goes back. Contracts see a door as a `DoorValue`: the
/// hosts that it serves, each connection as `ti_http` sees it, the program's name and the version that it tells, its environment, what
/// the request of each connection waits for, the monitor's metrics, and how many answers had each status.
#[derive(Drop)]
pub struct Door {
    alloc: Global,
    hosts: Hosts,
    seats: Seats,
    desk: Desk,
}

impl Model for Door {
    ghost use Rattle.ti_monitor.specs.Doors.{DoorValue};
    ghost use Rattle.ti_monitor.specs.SeatLists.{door_of};

    ghost Value = { DoorValue };

    ghost view = { λ d. door_of d.hosts d.seats.list.items d.desk };
}

impl Door {
    /// A door without connections. `version` is what `/metrics` names. Profiles name the program of the monitor.
    pub fn new(alloc: Global, monitor: Monitor, hosts: Hosts, version: String) -> Door
        ensures { result ≡ door_with hosts [] (string_bytes monitor.program) (string_bytes version) monitor.agent [] (kept monitor.metrics no_answers) }
    {
        Door {
            alloc,
            hosts,
            seats: Seats::new(Vec::new(alloc)),
            desk: Desk {
                alloc,
                monitor,
                version,
                tally: Tally::new(),
            },
        }
    }

    /// Opens a connection.
    ///
    /// The error is one of these. No connection opens then.
    ///
    /// - 216 (this service: `Full`): 16 connections are open. The one that has been idle for longest closes, unless one closes
    ///   already or none is idle: its `next` gives `Close`, and after `closed` there is room.
    /// - 110 OUT_OF_MEMORY (JVM TI 11): fewer are open, and there is no memory for one more. Nothing changed.
    pub fn open(&mut self, now: u64) -> Result<ConnNo, DoorError>
        ensures opened { IfOk result (λ c. Opens self.old self.new c.0 (now / 1000000)) }
        ensures refused { IfErr result (OpensNone self.old self.new) }
        ensures few { length self.new.talks ≤ 16 }
    {
        let seat = Seat::new(self.alloc, self.hosts, now);
        if let Some(conn) = self.seats.free() {
            self.seats.put(conn, seat);
            return Ok(conn);
        }
        if self.seats.is_full() {
            self.make_room();
            return Err(DoorError::Full);
        }
        self.seats.add(seat)
    }

    /// Closes the connection that has been idle for longest, unless one closes already.
    fn make_room(&mut self)
        ensures run { AllRun self.old self.new }
        ensures few { length self.new.talks ≡ length self.old.talks }
        ensures rest { self.new ≡ record self.old { talks = self.new.talks } }
    {
        if self.seats.is_any_leaving() {
            return;
        }
        let Some(conn) = self.seats.longest_idle() else {
            return;
        };
        let Some(mut seat) = self.seats.take(conn) else {
            return;
        };
        seat.leave();
        self.seats.put(conn, seat);
    }

    /// Whether a connection of this number is open.
    pub fn is_open(&self, conn: ConnNo) -> bool
        ensures { result ≡ is_some (talk_at self.now conn.0) }
    {
        self.seats.get(conn).is_some()
    }

    /// How many bytes `feed` takes now, at most 8192. 0 if there is no such connection.
    pub fn room(&self, conn: ConnNo) -> usize
        ensures room { result ≡ room_of (talk_at self.now conn.0) }
        ensures bound { result ≤ 8192 }
    {
        match self.seats.get(conn) {
            Some(seat) => seat.room(),
            None => 0,
        }
    }

    /// The bytes that are to be written. None if there is no such connection.
    pub fn output(&self, conn: ConnNo) -> &[u8]
        ensures { result.now ≡ output_of (talk_at self.now conn.0) }
    {
        match self.seats.get(conn) {
            Some(seat) => seat.output(),
            None => &[],
        }
    }

    /// Takes bytes that the socket gave, as many as there is room for. It gives their number.
    ///
    /// - 103 ILLEGAL_ARGUMENT: there is no such connection. Nothing changes.
    /// - 110 OUT_OF_MEMORY: there is no memory for them. Nothing changes.
    pub fn feed(&mut self, conn: ConnNo, bytes: &[u8], now: u64) -> Result<usize, DoorError>
        ensures fed { IfOk result (λ n. Changes self.old self.new conn.0 (Feeds bytes.now n (now / 1000000))) }
        ensures refused { IfErr result (Refuses (talk_at self.old conn.0)) }
        ensures kept { OnErr result (self.new ≡ self.old) }
    {
        let Some(mut seat) = self.seats.take(conn) else {
            return Err(DoorError::NoConnection);
        };
        let taken = seat.feed(bytes, now);
        self.seats.put(conn, seat);
        Ok(taken?)
    }

    /// Says that the socket gives no more. A profile that the connection waits for ends now, with what is there.
    ///
    /// - 103 ILLEGAL_ARGUMENT: there is no such connection. Nothing changes.
    pub fn end(&mut self, conn: ConnNo, now: u64) -> Result<(), DoorError>
        ensures ended { OnOk result (GoesOn self.old self.new conn.0 (λ t t'. RunsTo t t' × (t'.ended ≡ true))) }
        ensures serves { OnOk result (ServesAt self.old self.new conn.0) }
        ensures unknown { IfErr result (IsUnknown self.old conn.0) }
        ensures kept { OnErr result (self.new ≡ self.old) }
    {
        let Some(mut seat) = self.seats.take(conn) else {
            return Err(DoorError::NoConnection);
        };
        seat.end(&mut self.desk, now);
        self.seats.put(conn, seat);
        Ok(())
    }

    /// What the caller does next with a connection. Requests are taken up here. `unix` is the time in nanoseconds since 1970.
    ///
    /// - 103 ILLEGAL_ARGUMENT: there is no such connection. Nothing changes.
    /// - 110 OUT_OF_MEMORY: there is no memory for the answer to a request that is refused. It waits for the next call.
    pub fn next(&mut self, conn: ConnNo, now: u64, unix: u64) -> Result<Todo, DoorError>
        ensures told { IfOk result (λ todo. GoesOn self.old self.new conn.0 (λ t t'. RunsTo t t' × Says t' todo)) }
        ensures serves { ServesOne self.old self.new conn.0 }
        ensures refused { IfErr result (Refuses (talk_at self.old conn.0)) }
        ensures run { OnErr result (AllRun self.old self.new) }
    {
        let moment = Moment {
            now,
            unix,
            connections: self.seats.count(),
        };
        let Some(mut seat) = self.seats.take(conn) else {
            return Err(DoorError::NoConnection);
        };
        let todo = seat.next(&mut self.desk, moment);
        self.seats.put(conn, seat);
        Ok(todo?)
    }

    /// Says that the socket took so many bytes of the output; more than there are count as all of them.
    ///
    /// - 103 ILLEGAL_ARGUMENT: there is no such connection. Nothing changes.
    pub fn written(&mut self, conn: ConnNo, count: usize, now: u64) -> Result<(), DoorError>
        ensures written { OnOk result (Changes self.old self.new conn.0 (λ t t'. t' ≡ written_from t count (now / 1000000))) }
        ensures unknown { IfErr result (IsUnknown self.old conn.0) }
        ensures kept { OnErr result (self.new ≡ self.old) }
    {
        let Some(mut seat) = self.seats.take(conn) else {
            return Err(DoorError::NoConnection);
        };
        seat.written(count, now);
        self.seats.put(conn, seat);
        Ok(())
    }

    /// Says that the socket is gone. Its reading is given up, and its number may be used again.
    ///
    /// - 103 ILLEGAL_ARGUMENT: there is no such connection. Nothing changes.
    pub fn closed(&mut self, conn: ConnNo) -> Result<(), DoorError>
        ensures gone { OnOk result (Closes self.old self.new conn.0) }
        ensures known { talk_at self.old conn.0 ≡ None → result ≡ Err NoConnection }
        ensures unknown { IfErr result (IsUnknown self.old conn.0) }
        ensures kept { OnErr result (self.new ≡ self.old) }
    {
        let Some(seat) = self.seats.take(conn) else {
            return Err(DoorError::NoConnection);
        };
        self.desk.forget(seat.due());
        Ok(())
    }

    /// Does what is due: the monitor's part, answers that are there, and connections whose peers take too long.
    pub fn tick(&mut self, now: u64)
        ensures run { AllRun self.old self.new }
        ensures serves { IsTicked self.old self.new }
    {
        self.desk.tick(now);
        for place in 0..16 {
            self.tick_one(ConnNo(place), now);
        }
    }

    /// Does what is due at one connection, if it is open.
    fn tick_one(&mut self, conn: ConnNo, now: u64)
        ensures run { AllRun self.old self.new }
        ensures serves { ServesOne self.old self.new conn.0 }
    {
        if let Some(mut seat) = self.seats.take(conn) {
            seat.tick(&mut self.desk, now);
            self.seats.put(conn, seat);
        }
    }

    /// When `tick` has something to do next.
    pub fn deadline(&self) -> u64 {
        self.desk.monitor.deadline().min(self.seats.deadline())
    }

    /// Disposes of the monitor's agent. The connections are gone. With an error the door comes back as it was, but for its agent.
    ///
    /// - 110 OUT_OF_MEMORY, 215 `Busy` and 216 `Full` (this profile), as `Monitor::end`. The agent may have left some of its threads
    ///   already, and can only be disposed of.
    pub fn finish(self) -> Result<Service, (TiError, Door)>
        ensures disposed { IfOk result (λ s. Disposes (state_of self.agent) s) }
        ensures refused { IfErr result (λ r. StaysOn (state_of self.agent) (state_of r.1.agent) r.0) }
        ensures events { IfErr result (λ r. r.1.agent.home.events ≡ self.agent.home.events) }
        ensures rest { IfErr result (λ r. r.1 ≡ record self { agent = r.1.agent }) }
    {
        let Door {
            alloc,
            hosts,
            seats,
            desk,
        } = self;
        let Desk {
            alloc: _,
            monitor,
            version,
            tally,
        } = desk;
        match monitor.end() {
            Ok(service) => Ok(service),
            Err((error, monitor)) => {
                let desk = Desk {
                    alloc,
                    monitor,
                    version,
                    tally,
                };
                Err((
                    error,
                    Door {
                        alloc,
                        hosts,
                        seats,
                        desk,
                    },
                ))
            }
        }
    }
}

ghost use Rattle.std.specs.Prelude.{◌≡◌, ◌≤◌, ◌/◌, [], is_some, length, true, Err, IfErr, IfOk, None, OnErr, OnOk};
ghost use Rattle.std.specs.String.{string_bytes};
ghost use Rattle.ti_http.specs.Talks.{written_from};
ghost use Rattle.ti_monitor.specs.declared.door_error.DoorError.TheVariants.{NoConnection};
ghost use Rattle.ti_service.specs.Leaving.{Disposes, StaysOn};
ghost use Rattle.ti_service.specs.Memberships.{state_of};
ghost use Rattle.ti_monitor.specs.Doors.{AllRun, Changes, Closes, Feeds, GoesOn, IsTicked, IsUnknown, Opens, OpensNone, Refuses, ServesAt, ServesOne, door_with, output_of, room_of, talk_at};
ghost use Rattle.ti_monitor.specs.Door.{no_answers};
ghost use Rattle.ti_monitor.specs.Keeping.{kept};
ghost use Rattle.ti_monitor.specs.Seats.{RunsTo, Says};
