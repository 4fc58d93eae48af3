//! Handles of the service, and what is attached by them.

use crate::codes::{CQ_MISUSED, CQ_OK, code};
use crate::handle::{CqEnv, CqHandle, CqService, CqThread};
use crate::handle_lends::makes;
use crate::held::{Held, HeldEnv, HeldThread};
use std::alloc::Global;
use ti_service::{Service, ThreadInfo};
use ti_thread::HostThread;
use ti_types::{Caps, Limits, TiError};

/// The limits of a service. `None` if a number is not within its range.
fn limits(depth: u32, envs: u32, window: u32) -> Option<Limits>
    ensures { LimitsOf depth envs window result }
{
    Limits::lasting(1, envs, depth)?.with_window(window)
}

/// Puts what a handle is to hold into a box.
pub(crate) fn boxed(alloc: Global, held: Held) -> Result<Box<Held>, TiError>
    ensures same { IfOk result (λ b. b.value ≡ held) }
    ensures memory { IfErr result (λ e. e ≡ OutOfMemory) }
{
    match Box::new(alloc, held) {
        Ok(held) => Ok(held),
        Err(_) => Err(TiError::OutOfMemory),
    }
}

/// Puts what was made into an empty handle, or gives the code that tells why nothing was.
pub(crate) fn fill(handle: &mut CqHandle, made: Result<Box<Held>, TiError>) -> u32
    ensures put { IfOk made (λ b. (handle.new.place.held ≡ Some b.value) × (result ≡ 0)) }
    ensures refused { IfErr made (λ e. (handle.new ≡ handle.old) × (result ≡ number_of e)) }
{
    code!(made, held => handle.put(held))
}

/// Makes a service in a box, whose environments can have these capabilities. 103 if a number is not within its range, and then 98
/// if a capability cannot be had anywhere.
fn make(
    alloc: Global,
    depth: u32,
    envs: u32,
    window: u32,
    capabilities: u32,
) -> Result<Box<Held>, TiError>
    ensures new { IfOk result (λ b. HasService depth envs window capabilities (Some b.value)) }
    ensures refused { IfErr result (RefusesService depth envs window capabilities) }
{
    let Some(limits) = limits(depth, envs, window) else {
        return Err(TiError::IllegalArgument);
    };
    if capabilities > 3 {
        return Err(TiError::NotAvailable);
    }
    let potential = Caps {
        bits: capabilities as u8,
    };
    boxed(
        alloc,
        Held::Service(Service::make_with(alloc, limits, potential)?),
    )
}

/// Makes a service whose environments can have these capabilities.
#[unsafe(no_mangle)]
pub extern "C" fn cq_make(
    alloc: Global,
    depth: u32,
    envs: u32,
    window: u32,
    capabilities: u32,
    service: &mut CqService,
) -> u32
    ensures { Makes depth envs window capabilities service.old service.new result }
{
    if !service.is_empty() {
        return CQ_MISUSED;
    }
    fill(service, make(alloc, depth, envs, window, capabilities))
}

/// One more handle of the service, in a box.
fn share(alloc: Global, service: &mut Service) -> Result<Box<Held>, TiError>
    ensures made { OnOk result (service.new ≡ with_handle service.old) }
    ensures other { IfOk result (λ b. IsSomeAnd (service_of (Some b.value)) (IsShareOf service.old)) }
    ensures refused { IfErr result (λ e. RefusesHandle service.old service.new e) }
{
    boxed(alloc, Held::Service(service.share()?))
}

/// One more handle of the service.
#[unsafe(no_mangle)]
pub extern "C" fn cq_share(alloc: Global, service: &mut CqService, other: &mut CqService) -> u32
    ensures { Shares service.old service.new other.old other.new result }
{
    makes!(service for other);
    fill(other, share(alloc, service))
}

/// Frees a handle of the service.
#[unsafe(no_mangle)]
pub extern "C" fn cq_free(alloc: Global, service: &mut CqService) -> u32
    ensures { Frees service.old service.new result }
{
    if !service.is_service() {
        return CQ_MISUSED;
    }
    service.clear(alloc);
    CQ_OK
}

/// The name of a thread or a program. 103 if it is not UTF-8, and 110 if there is no memory for it.
pub(crate) fn name_of(alloc: Global, name: &[u8]) -> Result<String, TiError>
    ensures same { IfOk result (λ s. string_bytes s ≡ name.now) }
    ensures refused { IfErr result (λ e. NamesWrongly name.now e) }
{
    match str::from_utf8(name) {
        Ok(name) => Ok(String::from_str(alloc, name)?),
        Err(_) => Err(TiError::IllegalArgument),
    }
}

/// Attaches a thread in a box.
fn attach_thread(
    alloc: Global,
    service: &mut Service,
    name: &[u8],
    priority: i32,
) -> Result<Box<Held>, TiError>
    ensures attached { IfOk result (λ b. IsSomeAnd (thread_of (Some b.value)) (AttachesThread name.now priority service.old service.new)) }
    ensures refused { IfErr result (λ e. RefusesThread name.now service.old service.new e) }
{
    let name = name_of(alloc, name)?;
    let empty = HeldThread {
        service: service.share()?,
        thread: None,
        frames: Vec::new(alloc),
    };
    let mut held = boxed(alloc, Held::Thread(empty))?;
    let fresh = service.attach_thread_now(alloc, ThreadInfo { name, priority })?;
    match held.thread() {
        Some(place) => place.thread = Some(HostThread::new(fresh)),
        None => unreachable!(),
    }
    Ok(held)
}

/// Attaches a thread.
#[unsafe(no_mangle)]
pub extern "C" fn cq_attach_thread(
    alloc: Global,
    service: &mut CqService,
    name: &[u8],
    priority: i32,
    thread: &mut CqThread,
) -> u32
    ensures { Attaches name.now priority service.old service.new thread.old thread.new result }
{
    makes!(service for thread);
    fill(thread, attach_thread(alloc, service, name, priority))
}

/// Attaches an environment in a box.
fn attach_environment(alloc: Global, service: &mut Service) -> Result<Box<Held>, TiError>
    ensures made { OnOk result (service.new ≡ with_handle service.old) }
    ensures attached { IfOk result (λ b. IsSomeAnd (env_of (Some b.value)) (HasNewAgent service.old)) }
    ensures refused { IfErr result (λ e. RefusesEnv service.old service.new e) }
{
    let empty = HeldEnv {
        agent: None,
        trace: None,
        stacks: None,
    };
    let mut held = boxed(alloc, Held::Env(empty))?;
    let agent = service.attach_environment_now(alloc)?;
    match held.env() {
        Some(place) => place.agent = Some(agent),
        None => unreachable!(),
    }
    Ok(held)
}

/// Attaches an environment.
#[unsafe(no_mangle)]
pub extern "C" fn cq_attach_environment(
    alloc: Global,
    service: &mut CqService,
    env: &mut CqEnv,
) -> u32
    ensures { AttachesEnv service.old service.new env.old env.new result }
{
    makes!(service for env);
    fill(env, attach_environment(alloc, service))
}

ghost use Rattle.std.specs.Prelude.{◌≡◌, IfErr, IfOk, IsSomeAnd, OnOk, Some};
ghost use Rattle.std.specs.String.{string_bytes};
ghost use Rattle.ti_types.specs.TiError.{number_of};
ghost use Rattle.ti_types.specs.declared.error.TiError.TheVariants.{OutOfMemory};
ghost use Rattle.ti_capi.specs.Handles.{env_of, service_of, thread_of};
ghost use Rattle.ti_capi.specs.Services.{Attaches, AttachesEnv, AttachesThread, Frees, HasNewAgent, HasService, IsShareOf, LimitsOf, Makes, NamesWrongly, RefusesEnv, RefusesHandle, RefusesService, RefusesThread, Shares};
ghost use Rattle.ti_service.specs.Service.{with_handle};
