//! `watch`: two threads that compute, and an agent that suspends, reads and resumes each of them.
//!
//! Each thread adds up numbers in method 1, called by method 0, and polls in each iteration. The agent has a thread of the
//! operating system for itself. It suspends one thread after the other, writes the thread's state, its methods, the newest
//! first, and how many they are, and resumes it. Then it leaves the service, and the threads compute on until they have to end.
//!
//! Each function joins two threads at the most: the proof of one with nested joins takes far longer than that of two.
//!
//! The status is 0, or 1 if memory runs out, something was refused, or the lines cannot be written.
#![tactic(auto)]

mod traces;

use crate::traces::trace_twice;
use std::process::ExitCode;
use std::rt::Clock;
use std::sync::Wait;
use std::sync::atomic::{AtomicBool, Ordering};
use std::thread::{Threads, join};
use std::time::Duration;
use ti_agent::Within;
use ti_handshake::{Polled, Running};
use ti_service::{Agent, Service, ServiceCalls, ThreadInfo};
use ti_types::{Caps, Limits, MethodNo, Step, ThreadNo, TraceBuf};

/// Computes until `over` is set, and polls in each iteration. A poll is one load if nobody calls for the thread. If the thread is
/// held, it waits until it may return.
fn compute<R: Wait>(rt: &R, over: &AtomicBool, running: Running) -> (u64, Running) {
    let mut running = running;
    let mut sum: u64 = 0;
    for turn in 0..u64::MAX {
        if over.load(Ordering::SeqCst) {
            break;
        }
        sum = sum.wrapping_add(turn);
        if !running.poll_clear() {
            running = hand_over(rt, running);
        }
    }
    (sum, running)
}

/// Hands the frames over, so that the calls which wait take place. It returns when the thread may run.
fn hand_over<R: Wait>(rt: &R, running: Running) -> Running {
    match running.poll(rt) {
        Polled::Go(running) => running,
        Polled::Held(held) => held.back(rt),
    }
}

/// Writes a thread's state.
fn write_state<R: Wait + Print>(rt: &R, agent: &mut Agent, thread: ThreadNo) -> Option<()> {
    let state = agent.get_thread_state(rt, thread).ok()?;
    println!(rt; "state {state:#x}").ok()
}

/// Writes the methods of a trace, the newest first.
fn write_methods<R: Print>(rt: &R, trace: &TraceBuf) -> Option<()> {
    for frame in trace.frames() {
        println!(rt; "method {}", frame.method.0).ok()?;
    }
    Some(())
}

/// Writes how many frames a thread has. The count waits ten seconds at the most.
fn write_count<R: Wait + Clock + Print + AllocGlobal>(
    rt: &R,
    agent: &mut Agent,
    thread: ThreadNo,
) -> Option<()> {
    let alloc = rt.alloc();
    let time = Duration::from_secs(10);
    let within = Within { rt, alloc, time };
    let count = agent.get_frame_count(within, thread).ok()?;
    println!(rt; "frames {count}").ok()
}

/// Suspends a thread, writes its state and its methods, and resumes it. The suspension waits for the thread's next poll.
fn inspect<R: Wait + Clock + Print + AllocGlobal>(
    rt: &R,
    agent: &mut Agent,
    thread: ThreadNo,
) -> Option<()> {
    let (trace, _again) = trace_twice(rt, rt.alloc(), agent, thread, 8).ok()?;
    show(rt, agent, thread, &trace)
}

/// Writes the state and the methods of a thread that is suspended, and resumes it.
fn show<R: Wait + Clock + Print + AllocGlobal>(
    rt: &R,
    agent: &mut Agent,
    thread: ThreadNo,
    trace: &TraceBuf,
) -> Option<()> {
    write_state(rt, agent, thread)?;
    write_methods(rt, trace)?;
    write_count(rt, agent, thread)?;
    agent.resume_thread(rt, thread).ok()?;
    write_state(rt, agent, thread)
}

/// Inspects all threads, one after the other.
fn inspect_all<R: Wait + Clock + Print + AllocGlobal>(rt: &R, agent: &mut Agent) -> Option<()> {
    let alloc = rt.alloc();
    agent.meet(rt, alloc).ok()?;
    agent.add_capabilities(Caps::CAN_SUSPEND).ok()?;
    for thread in agent.get_all_threads(rt, alloc).ok()? {
        inspect(rt, agent, thread)?;
    }
    Some(())
}

/// Inspects the threads, and leaves the service. Then it sets `over`, so that the threads end.
fn watch<R: Wait + Clock + Print + AllocGlobal>(
    rt: &R,
    over: &AtomicBool,
    agent: Agent,
) -> Option<()> {
    let mut agent = agent;
    let done = inspect_all(rt, &mut agent);
    over.store(true, Ordering::SeqCst);
    agent.dispose(rt, rt.alloc()).ok()?;
    done
}

/// A thread of this name that runs, in method 1 called by method 0.
fn attach<R: Wait + AllocGlobal>(rt: &R, service: &mut Service, name: &str) -> Option<Running> {
    let alloc = rt.alloc();
    let name = String::from_str(alloc, name).ok()?;
    let info = ThreadInfo { name, priority: 5 };
    let fresh = service.attach_thread(rt, alloc, info).ok()?;
    let mut running = service.start_thread(rt, fresh).ok()?;
    running.step(Step::Enter(MethodNo(0))).ok()?;
    running.step(Step::Enter(MethodNo(1))).ok()?;
    Some(running)
}

/// Runs two threads side by side, until both are told to end.
fn compute_both<R: Threads + Wait + Sync>(
    rt: &R,
    over: &AtomicBool,
    first: Running,
    second: Running,
) -> (Running, Running) {
    let ((_sum, first), (_other, second)) = join(
        rt,
        move || -> (u64, Running) { compute(rt, over, first) },
        move || -> (u64, Running) { compute(rt, over, second) },
    );
    (first, second)
}

/// Runs two threads and an agent, each in a thread of its own.
fn run_all<R: Threads + Wait + Sync + Clock + Print + AllocGlobal>(
    rt: &R,
    first: Running,
    second: Running,
    agent: Agent,
) -> ((Running, Running), Option<()>) {
    let over = AtomicBool::new(false);
    let over = &over;
    join(
        rt,
        move || -> (Running, Running) { compute_both(rt, over, first, second) },
        move || -> Option<()> { watch(rt, over, agent) },
    )
}

/// Ends a thread, and gives it back.
fn leave<R: Wait>(rt: &R, service: &mut Service, running: Running) -> Option<()> {
    let ended = service.end_thread(rt, running).ok()?;
    service.detach_thread(rt, ended).ok()
}

/// Ends two threads, and gives them back.
fn leave_both<R: Wait>(
    rt: &R,
    service: &mut Service,
    first: Running,
    second: Running,
) -> Option<()> {
    leave(rt, service, first)?;
    leave(rt, service, second)
}

/// Lets two threads and an agent come to a service and go.
fn come_and_go<R: Threads + Wait + Sync + Clock + Print + AllocGlobal>(
    rt: &R,
    service: &mut Service,
) -> Option<()> {
    let first = attach(rt, service, "adder")?;
    let second = attach(rt, service, "other adder")?;
    let agent = service.attach_environment(rt, rt.alloc()).ok()?;
    let ((first, second), done) = run_all(rt, first, second, agent);
    leave_both(rt, service, first, second)?;
    done
}

/// Makes a service, for two threads and an agent.
fn run<R: Threads + Wait + Sync + Clock + Print + AllocGlobal>(rt: &R) -> Option<()> {
    let mut service = Service::make(rt.alloc(), Limits::lasting(2, 1, 64)?).ok()?;
    come_and_go(rt, &mut service)
}

fn main(rt: HostRuntime) -> ExitCode {
    match run(&rt) {
        Some(()) => ExitCode::from(0),
        None => ExitCode::from(1),
    }
}
