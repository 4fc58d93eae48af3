//! A door of a service: for requests of HTTP, or for debuggers.

use crate::any_door::AnyDoor;
use crate::codes::{CQ_MISUSED, CQ_NONE, CQ_OK};
use crate::handle::{CqDoor, CqService};
use crate::handle_lends::{behind, makes};
use crate::held::{Held, HeldDoor};
use crate::service_calls::{boxed, fill, name_of};
use crate::writes::write_bytes;
use std::alloc::Global;
use ti_debugger::{About, Debugger, Todo};
use ti_http::Hosts;
use ti_monitor::{Door, DoorError, Monitor};
use ti_service::Service;
use ti_types::TiError;

/// The hosts that are served at a port. Above 65,535 there is no port, and every host is served.
fn hosts_at(port: u32) -> Hosts
    ensures { result ≡ hosts_at port }
{
    if port <= 65_535 {
        Hosts::Local { port: port as u16 }
    } else {
        Hosts::Any
    }
}

/// The code of what a door refuses.
fn refusal_code(error: DoorError) -> u32
    ensures { result ≡ code_refused error }
{
    match error {
        DoorError::NoConnection => CQ_NONE,
        DoorError::OutOfMemory => TiError::OutOfMemory.number(),
        DoorError::Full => TiError::Full.number(),
    }
}

/// The code of what is done at a door, or refused.
fn code_of(done: Result<(), DoorError>) -> u32
    ensures { result ≡ code_done done }
{
    match done {
        Ok(()) => CQ_OK,
        Err(error) => refusal_code(error),
    }
}

/// The number of what is to be done with a connection.
fn action_of(todo: Todo) -> u32
    ensures { result ≡ action_of todo }
{
    match todo {
        Todo::Wait => 0,
        Todo::Write => 1,
        Todo::Close => 2,
        Todo::Ask => 3,
    }
}

/// A door for requests of HTTP in a box, with an environment of its own. `/metrics` tells the version.
fn open(
    alloc: Global,
    service: &mut Service,
    program: &[u8],
    version: &[u8],
    port: u32,
    now: u64,
) -> Result<Box<Held>, TiError>
    ensures made { OnOk result (service.new ≡ with_handle service.old) }
    ensures opened { IfOk result (λ b. HasDoor program.now version.now port service.old (Some b.value)) }
    ensures refused { IfErr result (λ e. RefusesDoor program.now version.now service.old service.new e) }
{
    let program = name_of(alloc, program)?;
    let version = name_of(alloc, version)?;
    let mut held = boxed(alloc, Held::Door(HeldDoor { door: None }))?;
    let agent = service.attach_environment_now(alloc)?;
    let monitor = Monitor::new(alloc, agent, program, now);
    let door = Door::new(alloc, monitor, hosts_at(port), version);
    *held = Held::Door(HeldDoor {
        door: Some(AnyDoor::Http(door)),
    });
    Ok(held)
}

/// Opens a door for requests of HTTP. `cq_open_door` calls it, and gives the version of the library.
#[unsafe(no_mangle)]
pub extern "C" fn cebdyraq_open_door(
    alloc: Global,
    service: &mut CqService,
    program: &[u8],
    version: &[u8],
    port: u32,
    now: u64,
    door: &mut CqDoor,
) -> u32
    ensures { OpensDoor program.now version.now port service.old service.new door.old door.new result }
{
    makes!(service for door);
    fill(door, open(alloc, service, program, version, port, now))
}

/// What a debugger is told of the runtime, and of the library by its version.
fn about(alloc: Global, program: &[u8], path: &[u8], version: &[u8]) -> Result<About, TiError>
    ensures told { IfOk result (TellsAbout program.now path.now version.now) }
    ensures refused { IfErr result (TellsWrongly program.now path.now version.now) }
{
    Ok(About {
        description: name_of(alloc, program)?,
        version: name_of(alloc, version)?,
        name: name_of(alloc, program)?,
        base: name_of(alloc, path)?,
        path: name_of(alloc, path)?,
    })
}

/// A door for debuggers in a box, with an environment of its own.
fn open_debugger(
    alloc: Global,
    service: &mut Service,
    program: &[u8],
    path: &[u8],
    version: &[u8],
    now: u64,
) -> Result<Box<Held>, TiError>
    ensures made { OnOk result (service.new ≡ with_handle service.old) }
    ensures opened { IfOk result (λ b. AwaitsDebugger program.now path.now version.now (Some b.value)) }
    ensures refused { IfErr result (λ e. RefusesDebugger program.now path.now version.now service.old service.new e) }
{
    let about = about(alloc, program, path, version)?;
    let mut held = boxed(alloc, Held::Door(HeldDoor { door: None }))?;
    let agent = service.attach_environment_now(alloc)?;
    *held = Held::Door(HeldDoor {
        door: Some(AnyDoor::Debugger(Debugger::new(alloc, agent, about, now))),
    });
    Ok(held)
}

/// Opens a door for debuggers. `cq_open_debugger` calls it, and gives the version of the library.
#[unsafe(no_mangle)]
pub extern "C" fn cebdyraq_open_debugger(
    alloc: Global,
    service: &mut CqService,
    program: &[u8],
    path: &[u8],
    version: &[u8],
    now: u64,
    door: &mut CqDoor,
) -> u32
    ensures { OpensDebugger program.now path.now version.now service.old service.new door.old door.new result }
{
    makes!(service for door);
    fill(
        door,
        open_debugger(alloc, service, program, path, version, now),
    )
}

/// Takes a new connection in.
#[unsafe(no_mangle)]
pub extern "C" fn cq_door_connect(door: &mut CqDoor, now: u64, connection: &mut u32) -> u32
    ensures { CallsDoor (Connects now connection.old connection.new) (connection.new ≡ connection.old) door.old door.new result }
{
    behind!(door in door.held_door());
    match door.connect(now) {
        Ok(number) => {
            *connection = number;
            CQ_OK
        }
        Err(error) => refusal_code(error),
    }
}

/// What is to be done with a connection, and how many bytes it takes.
#[unsafe(no_mangle)]
pub extern "C" fn cq_door_next(
    door: &mut CqDoor,
    connection: u32,
    now: u64,
    unix_time: u64,
    action: &mut u32,
    room: &mut u64,
) -> u32
    ensures { CallsDoor (Tells connection now action.new room.new ((action.new ≡ action.old) × (room.new ≡ room.old))) ((action.new ≡ action.old) × (room.new ≡ room.old)) door.old door.new result }
{
    behind!(door in door.held_door());
    match door.next(connection, now, unix_time) {
        Ok(todo) => {
            *action = action_of(todo);
            *room = door.room(connection) as u64;
            CQ_OK
        }
        Err(error) => refusal_code(error),
    }
}

/// Takes bytes that a socket gave.
#[unsafe(no_mangle)]
pub extern "C" fn cq_door_feed(
    door: &mut CqDoor,
    connection: u32,
    bytes: &[u8],
    now: u64,
    taken: &mut u64,
) -> u32
    ensures { CallsDoor (Takes connection bytes.now now taken.old taken.new) (taken.new ≡ taken.old) door.old door.new result }
{
    behind!(door in door.held_door());
    match door.feed(connection, bytes, now) {
        Ok(count) => {
            *taken = count as u64;
            CQ_OK
        }
        Err(error) => refusal_code(error),
    }
}

/// The peer sends no more.
#[unsafe(no_mangle)]
pub extern "C" fn cq_door_end(door: &mut CqDoor, connection: u32, now: u64) -> u32
    ensures { CallsDoor (ChangesOne connection (Ends connection)) ⊤ door.old door.new result }
{
    behind!(door in door.held_door());
    code_of(door.end(connection, now))
}

/// The first bytes of what is to be written.
#[unsafe(no_mangle)]
pub extern "C" fn cq_door_output(
    door: &mut CqDoor,
    connection: u32,
    bytes: &mut [u8],
    count: &mut u64,
) -> u32
    ensures { CallsDoor (GivesOutput connection bytes.old bytes.new count.old count.new) ((bytes.new ≡ bytes.old) × (count.new ≡ count.old)) door.old door.new result }
{
    behind!(door in door.held_door());
    if !door.is_open(connection) {
        return CQ_NONE;
    }
    let output = door.output(connection);
    *count = output.len().min(bytes.len()) as u64;
    write_bytes(output, bytes);
    CQ_OK
}

/// The socket took so many bytes.
#[unsafe(no_mangle)]
pub extern "C" fn cq_door_written(door: &mut CqDoor, connection: u32, count: u64, now: u64) -> u32
    ensures { CallsDoor (ChangesOne connection (Writes connection count now)) ⊤ door.old door.new result }
{
    behind!(door in door.held_door());
    code_of(door.written(connection, count as usize, now))
}

/// The socket is gone.
#[unsafe(no_mangle)]
pub extern "C" fn cq_door_disconnect(door: &mut CqDoor, connection: u32) -> u32
    ensures { CallsDoor (ChangesOne connection (Disconnects connection)) ⊤ door.old door.new result }
{
    behind!(door in door.held_door());
    code_of(door.disconnect(connection))
}

/// The runtime ends.
#[unsafe(no_mangle)]
pub extern "C" fn cq_door_runtime_ends(door: &mut CqDoor) -> u32
    ensures { CallsDoor TellsOfEnd ⊤ door.old door.new result }
{
    behind!(door in door.held_door());
    door.runtime_ends();
    CQ_OK
}

/// Does what is due.
#[unsafe(no_mangle)]
pub extern "C" fn cq_door_tick(door: &mut CqDoor, now: u64, deadline: &mut u64) -> u32
    ensures { CallsDoor IsTicked (deadline.new ≡ deadline.old) door.old door.new result }
{
    behind!(door in door.held_door());
    door.tick(now);
    *deadline = door.deadline();
    CQ_OK
}

/// How many times the door has resumed a thread.
#[unsafe(no_mangle)]
pub extern "C" fn cq_door_resumptions(door: &mut CqDoor, count: &mut u64) -> u32
    ensures { CallsDoor (TellsResumptions count.new) (count.new ≡ count.old) door.old door.new result }
{
    behind!(door in door.held_door());
    *count = door.resumptions();
    CQ_OK
}

/// Closes the door.
#[unsafe(no_mangle)]
pub extern "C" fn cq_close_door(alloc: Global, door: &mut CqDoor) -> u32
    ensures { ClosesDoor door.old door.new result }
{
    let Some(held) = door.held_door() else {
        return CQ_MISUSED;
    };
    let code = close(held);
    if code == CQ_OK {
        door.clear(alloc);
    }
    code
}

/// Closes the door in a box. It stays there if its environment is not disposed of.
fn close(held: &mut HeldDoor) -> u32
    ensures { Closes held.old.door held.new.door result }
{
    let Some(door) = held.door.take() else {
        return CQ_MISUSED;
    };
    match door.finish() {
        Ok(_service) => CQ_OK,
        Err((error, door)) => {
            held.door = Some(door);
            error.number()
        }
    }
}

ghost use Rattle.std.specs.Prelude.{◌≡◌, ⊤, IfErr, IfOk, OnOk, Some};
ghost use Rattle.ti_capi.specs.AnyDoors.{Disconnects, Ends, Writes};
ghost use Rattle.ti_capi.specs.Doors.{AwaitsDebugger, CallsDoor, ChangesOne, Closes, ClosesDoor, Connects, GivesOutput, HasDoor, IsTicked, OpensDebugger, OpensDoor, RefusesDebugger, RefusesDoor, Takes, Tells, TellsAbout, TellsOfEnd, TellsResumptions, TellsWrongly, action_of, code_done, code_refused, hosts_at};
ghost use Rattle.ti_service.specs.Service.{with_handle};
