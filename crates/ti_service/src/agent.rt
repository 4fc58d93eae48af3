//! An agent: an environment of the service.

use crate::membership::Membership;
use ti_agent::Env;

/// An environment of the service, with its handle. Its calls have the names of JVM TI, and reach the threads that it has met.
///
/// A call at a thread may be refused before it reaches the thread, with the first of these errors that fits:
///
/// - 99 MUST_POSSESS_CAPABILITY: it needs a capability that the agent does not have.
/// - 10 INVALID_THREAD: the agent has met no thread of this number. But 15 THREAD_NOT_ALIVE if a thread of this number had
///   come by its last meeting, and it has no desk there.
/// - 103 ILLEGAL_ARGUMENT: its count or depth is negative.
/// - 209 CALLS_SPENT (this profile): the agent has no call left at this thread.
///
/// Then nothing changes. Otherwise the call spends one call at the thread, and gives the thread's answer, an error included.
///
/// Its calls at threads are those of `ti_agent::Env`. What it does at the service is in `ServiceCalls`, and in `ServiceTries`
/// without a wait. Contracts see the environment (`env`) and its membership (`home`): the handle, the desks that it has taken
/// and not added yet, and the next event that it is to be told. `state_of` puts them side by side.
///
/// What is always true of it (`Env::facts`): its handle and its environment are one environment's, under the same limits. Each
/// of its desks is at the cell of a thread that came to the service under the desk's number.
///
/// # Examples
///
/// ```rattle
/// # use ti_service::{Service, ServiceCalls, ThreadInfo};
/// # use ti_types::{Limits, ThreadNo, TiError};
/// # let alloc = rt.alloc();
/// # let limits = Limits::new(1, 1, 4, 16, 8).ok_or("the limits are in range")?;
/// let mut service = Service::make(alloc, limits)?;
/// let name = String::from_str(alloc, "main")?;
/// let fresh = service.attach_thread(&rt, alloc, ThreadInfo { name, priority: 5 })?;
/// let Ok(running) = service.start_thread(&rt, fresh) else {
///     return Err("nobody suspends it".into());
/// };
/// let mut first = service.attach_environment(&rt, alloc)?;
/// first.meet(&rt, alloc)?;
/// first.set_thread_local_storage(&rt, ThreadNo(0), 7)?;
/// // There is room for one environment, again once the first is disposed of, and nothing of it is left.
/// assert!(rt; service.attach_environment(&rt, alloc).is_err());
/// let Ok(_handle) = first.dispose(&rt, alloc) else {
///     return Err("there is memory".into());
/// };
/// let mut second = service.attach_environment(&rt, alloc)?;
/// second.meet(&rt, alloc)?;
/// assert!(rt; second.get_thread_local_storage(&rt, ThreadNo(0)) == Ok(0));
/// // A thread that was given back is let go of, so that its memory is freed.
/// assert!(rt; !second.let_go(&rt, ThreadNo(0)));
/// let Ok(ended) = service.end_thread(&rt, running) else {
///     return Err("it runs".into());
/// };
/// let Ok(()) = service.detach_thread(&rt, ended) else {
///     return Err("it is there".into());
/// };
/// assert!(rt; second.let_go(&rt, ThreadNo(0)));
/// let word = second.get_thread_local_storage(&rt, ThreadNo(0));
/// assert!(rt; word == Err(TiError::ThreadNotAlive));
/// ```
pub type Agent = Env<Membership>;

/// A trace of several threads that is being made, with the agent that makes it (this profile).
///
/// While it is there, the agent makes no other call. `Gathering::finish` gives the agent back, with what was read. Dropping it
/// before is a compile error.
///
/// # Examples
///
/// ```rattle
/// # use ti_service::{Service, ServiceCalls, ThreadInfo};
/// # use ti_types::{Limits, MethodNo, Step, TiError};
/// # let alloc = rt.alloc();
/// # let limits = Limits::new(1, 1, 4, 16, 8).ok_or("the limits are in range")?;
/// let mut service = Service::make(alloc, limits)?;
/// let name = String::from_str(alloc, "main")?;
/// let fresh = service.attach_thread(&rt, alloc, ThreadInfo { name, priority: 5 })?;
/// let Ok(mut running) = service.start_thread(&rt, fresh) else {
///     return Err("nobody suspends it".into());
/// };
/// running.step(Step::Enter(MethodNo(3)))?;
/// let mut agent = service.attach_environment(&rt, alloc)?;
/// agent.meet(&rt, alloc)?;
/// let Ok(mut trace) = agent.gather_all_stack_traces(alloc, 8) else {
///     return Err("there is memory".into());
/// };
/// // The thread is stopped. It runs on until it polls.
/// while trace.step().is_ok() {}
/// assert!(rt; trace.step() == Err(TiError::StillRunning));
/// // So the trace is given up, and the thread is let go.
/// assert!(rt; trace.give_up());
/// let (_agent, told) = loop {
///     let _ = trace.step();
///     match trace.finish() {
///         Ok(ended) => break ended,
///         Err(rest) => trace = rest,
///     }
/// };
/// assert!(rt; told.is_none());
/// ```
pub type Gathering = ti_agent::Gathering<Membership>;
