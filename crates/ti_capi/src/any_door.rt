//! A door of either kind: for requests of HTTP, or for debuggers.

use ti_debugger::{Debugger, DebuggerError, Question, TellError, Todo, Told, Variable};
use ti_jdwp::JdwpError;
use ti_monitor::{ConnNo, Door, DoorError, Todo as HttpTodo};
use ti_service::Service;
use ti_types::TiError;

/// A door. That for debuggers has one connection at most, and its number is 0.
#[derive(Drop)]
pub enum AnyDoor {
    Http(Door),
    Debugger(Debugger),
}

/// Whether there may be a connection of this number at a door for debuggers.
fn only(connection: u32) -> Result<(), DoorError>
    ensures { result ≡ only connection }
{
    if connection == 0 {
        Ok(())
    } else {
        Err(DoorError::NoConnection)
    }
}

/// The same error, by the other door's name.
fn at_door(error: DebuggerError) -> DoorError
    ensures { result ≡ at_door error }
{
    match error {
        DebuggerError::OutOfMemory => DoorError::OutOfMemory,
        DebuggerError::NoDebugger => DoorError::NoConnection,
    }
}

/// What is to be done, by the other door's name.
fn todo_at_door(todo: HttpTodo) -> Todo
    ensures { result ≡ todo_at_door todo }
{
    match todo {
        HttpTodo::Wait => Todo::Wait,
        HttpTodo::Write => Todo::Write,
        HttpTodo::Close => Todo::Close,
    }
}

impl AnyDoor {
    /// Takes a new connection in, and gives its number. The error is `Full` if as many are there as may be, or `OutOfMemory`.
    pub(crate) fn connect(&mut self, now: u64) -> Result<u32, DoorError>
        ensures opened { IfOk result (λ c. Opens now c self.old self.new) }
        ensures refused { IfErr result (OpensNone self.old self.new) }
    {
        match self {
            AnyDoor::Http(door) => Ok(door.open(now)?.0),
            AnyDoor::Debugger(debugger) => {
                if debugger.connect(now) {
                    Ok(0)
                } else {
                    Err(DoorError::Full)
                }
            }
        }
    }

    /// What is to be done with a connection. `unix` is the time in nanoseconds since 1970, or 0.
    pub(crate) fn next(&mut self, connection: u32, now: u64, unix: u64) -> Result<Todo, DoorError>
        ensures told { IfOk result (λ todo. Goes connection now todo self.old self.new) }
        ensures refused { IfErr result (Refuses connection self.old) }
        ensures run { OnErr result (AllRun self.old self.new) }
    {
        match self {
            AnyDoor::Http(door) => door.next(ConnNo(connection), now, unix).map(todo_at_door),
            AnyDoor::Debugger(debugger) => {
                only(connection)?;
                debugger.next(now).map_err(at_door)
            }
        }
    }

    /// How many bytes `feed` takes now. 0 if there is no such connection.
    pub(crate) fn room(&self, connection: u32) -> usize
        ensures { result ≡ room_at connection self.now }
    {
        match self {
            AnyDoor::Http(door) => door.room(ConnNo(connection)),
            AnyDoor::Debugger(debugger) => { if connection == 0 { debugger.room() } else { 0 } }
        }
    }

    /// Takes bytes that a socket gave, as many as there is room for. It gives their number.
    pub(crate) fn feed(
        &mut self,
        connection: u32,
        bytes: &[u8],
        now: u64,
    ) -> Result<usize, DoorError>
        ensures fed { IfOk result (λ n. Feeds connection bytes.now now n self.old self.new) }
        ensures refused { IfErr result (Refuses connection self.old) }
        ensures kept { OnErr result (self.new ≡ self.old) }
    {
        match self {
            AnyDoor::Http(door) => door.feed(ConnNo(connection), bytes, now),
            AnyDoor::Debugger(debugger) => {
                only(connection)?;
                debugger.feed(bytes, now).map_err(at_door)
            }
        }
    }

    /// The peer sends no more.
    pub(crate) fn end(&mut self, connection: u32, now: u64) -> Result<(), DoorError>
        ensures ended { OnOk result (Ends connection self.old self.new) }
        ensures refused { IfErr result (IsUnknown connection self.old self.new) }
    {
        match self {
            AnyDoor::Http(door) => door.end(ConnNo(connection), now),
            AnyDoor::Debugger(debugger) => {
                only(connection)?;
                debugger.end(now).map_err(at_door)
            }
        }
    }

    /// Whether there is a connection of this number.
    pub(crate) fn is_open(&self, connection: u32) -> bool
        ensures { result ≡ is_there connection self.now }
    {
        match self {
            AnyDoor::Http(door) => door.is_open(ConnNo(connection)),
            AnyDoor::Debugger(debugger) => connection == 0 && debugger.is_connected(),
        }
    }

    /// The bytes that are to be written. None if there is no such connection.
    pub(crate) fn output(&self, connection: u32) -> &[u8]
        ensures { result.now ≡ output_at connection self.now }
    {
        match self {
            AnyDoor::Http(door) => door.output(ConnNo(connection)),
            AnyDoor::Debugger(debugger) => {
                if connection == 0 {
                    debugger.output()
                } else {
                    &[]
                }
            }
        }
    }

    /// The socket took so many bytes.
    pub(crate) fn written(
        &mut self,
        connection: u32,
        count: usize,
        now: u64,
    ) -> Result<(), DoorError>
        ensures written { OnOk result (Writes connection count now self.old self.new) }
        ensures refused { IfErr result (IsUnknown connection self.old self.new) }
    {
        match self {
            AnyDoor::Http(door) => door.written(ConnNo(connection), count, now),
            AnyDoor::Debugger(debugger) => {
                only(connection)?;
                debugger.written(count).map_err(at_door)
            }
        }
    }

    /// The socket is gone.
    pub(crate) fn disconnect(&mut self, connection: u32) -> Result<(), DoorError>
        ensures gone { OnOk result (Disconnects connection self.old self.new) }
        ensures refused { IfErr result (IsUnknown connection self.old self.new) }
    {
        match self {
            AnyDoor::Http(door) => door.closed(ConnNo(connection)),
            AnyDoor::Debugger(debugger) => {
                only(connection)?;
                if !debugger.is_connected() {
                    return Err(DoorError::NoConnection);
                }
                debugger.closed();
                Ok(())
            }
        }
    }

    /// The runtime ends, of which a debugger is told. Nothing happens at a door for HTTP.
    pub(crate) fn runtime_ends(&mut self)
        ensures { RuntimeEnds self.old self.new }
    {
        match self {
            AnyDoor::Http(_) => (),
            AnyDoor::Debugger(debugger) => debugger.runtime_ends(),
        }
    }

    /// Does what is due.
    pub(crate) fn tick(&mut self, now: u64)
        ensures { Ticks self.old self.new }
    {
        match self {
            AnyDoor::Http(door) => door.tick(now),
            AnyDoor::Debugger(debugger) => debugger.tick(now),
        }
    }

    /// When `tick` has something to do next.
    pub(crate) fn deadline(&self) -> u64 {
        match self {
            AnyDoor::Http(door) => door.deadline(),
            AnyDoor::Debugger(debugger) => debugger.deadline(),
        }
    }

    /// How many times it has resumed a thread.
    pub(crate) fn resumptions(&self) -> u64
        ensures { result ≡ resumptions self.now }
    {
        match self {
            AnyDoor::Http(_) => 0,
            AnyDoor::Debugger(debugger) => debugger.resumptions(),
        }
    }

    /// Says whether the runtime tells variables. Nothing happens at a door for HTTP.
    pub(crate) fn tells_variables(&mut self, tells: bool)
        ensures { SaysTells tells self.old self.new 0 }
    {
        match self {
            AnyDoor::Http(_) => (),
            AnyDoor::Debugger(debugger) => debugger.tells_variables(tells),
        }
    }

    /// Says whether the runtime waits for its first debugger. Nothing happens at a door for HTTP.
    pub(crate) fn starts_suspended(&mut self, suspended: bool)
        ensures { SaysStarts suspended self.old self.new 0 }
    {
        match self {
            AnyDoor::Http(_) => (),
            AnyDoor::Debugger(debugger) => debugger.starts_suspended(suspended),
        }
    }

    /// Says whether threads of the runtime go on without the frames that were popped. Nothing happens at a door for HTTP.
    pub(crate) fn pops_frames(&mut self, pops: bool) -> Result<(), TiError>
        ensures { SaysPops pops self.old self.new (code_done result) }
    {
        match self {
            AnyDoor::Http(_) => Ok(()),
            AnyDoor::Debugger(debugger) => debugger.pops_frames(pops),
        }
    }

    /// The question that is open. At a door for HTTP there is none.
    pub(crate) fn question(&self) -> Option<Question>
        ensures { result ≡ question_at self.now }
    {
        match self {
            AnyDoor::Http(_) => None,
            AnyDoor::Debugger(debugger) => debugger.question(),
        }
    }

    /// Answers a question for variables.
    pub(crate) fn tell_variables(
        &mut self,
        variables: &[Variable],
        names: &[u8],
    ) -> Result<(), TellError>
        ensures { TellsVariables variables.now names.now self.old self.new result }
    {
        match self {
            AnyDoor::Http(_) => Err(TellError::NotAsked),
            AnyDoor::Debugger(debugger) => debugger.tell_variables(variables, names),
        }
    }

    /// Answers a question for values.
    pub(crate) fn tell_values(&mut self, values: &[Told], texts: &[u8]) -> Result<(), TellError>
        ensures { TellsTold values.now texts.now self.old self.new result }
    {
        match self {
            AnyDoor::Http(_) => Err(TellError::NotAsked),
            AnyDoor::Debugger(debugger) => debugger.tell_values(values, texts),
        }
    }

    /// Answers a question by an error.
    pub(crate) fn tell_none(&mut self, error: JdwpError) -> Result<(), TellError>
        ensures { TellsNone error self.old self.new result }
    {
        match self {
            AnyDoor::Http(_) => Err(TellError::NotAsked),
            AnyDoor::Debugger(debugger) => debugger.tell_none(error),
        }
    }

    /// Disposes of the environment. With an error the door comes back.
    pub(crate) fn finish(self) -> Result<Service, (TiError, AnyDoor)>
        ensures done { OnOk result (MayEnd self) }
        ensures disposed { IfOk result (EndsAs self) }
        ensures stays { IfErr result (λ p. StaysAs p.0 self p.1) }
    {
        match self {
            AnyDoor::Http(door) => match door.finish() {
                Ok(service) => Ok(service),
                Err((error, door)) => Err((error, AnyDoor::Http(door))),
            },
            AnyDoor::Debugger(debugger) => match debugger.finish() {
                Ok(service) => Ok(service),
                Err((error, debugger)) => Err((error, AnyDoor::Debugger(debugger))),
            },
        }
    }
}

ghost use Rattle.std.specs.Prelude.{◌≡◌, IfErr, IfNone, IfOk, IfSome, OnErr, OnOk};
ghost use Rattle.ti_capi.specs.Codes.{code_done};
ghost use Rattle.ti_capi.specs.Questions.{SaysPops, SaysStarts, SaysTells, TellsNone, TellsTold, TellsVariables, question_at};
ghost use Rattle.ti_capi.specs.AnyDoors.{AllRun, Disconnects, Ends, EndsAs, Feeds, Goes, IsUnknown, MayEnd, Opens, OpensNone, Refuses, RuntimeEnds, StaysAs, Ticks, Writes, at_door, is_there, only, output_at, resumptions, room_at, todo_at_door};
