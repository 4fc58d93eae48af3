//! One service for all threads and all agents of a runtime, which come and go.
//!
//! A runtime makes one `Service`, and shares it: each of its threads that attaches others has a handle of its own. A thread
//! is attached under a number of its own, starts and ends by calls of the service, and is given back when it has ended. An agent attaches an environment, and meets
//! the threads that came since it last did.
//!
//! This crate uses `ti_roster`, which has the list of who is there, `ti_methods`, which has the classes, and `ti_agent`, which
//! has an environment's calls. It promises:
//!
//! - No two threads have one number, and none is used again.
//! - An environment that meets the threads has a desk at each thread that came since it last did and is still there. If it has no
//!   room for one, it lets go of threads that were given back.
//! - A desk at a thread is at the cell that the thread itself has, from the day it was attached.
//! - An agent's calls reach threads of its own service alone.
//! - An agent that makes a trace of several threads step by step comes back at its end, with what was read.
//! - No two agents have one environment's number.
//! - Agents are told the events of threads' lives in one order, each once, as far as they asked for its kind. What was lost is
//!   counted.
//! - A thread that the service starts is told as started if and only if it has started; so for its end. Until then it is listed as
//!   live.
//! - Agents are told of classes in the order of their numbers, each once. None is lost.
//! - An agent's breakpoints, steps and pops of frames are its own. A thread that stops for agents waits until each has let it go.
//! - What is told of a class or a method is what was defined under its number, and never waits.
//! - The list of who is there is held for each coming, going and meeting, and never while a thread is asked.
#![tactic(auto)]

mod agent;
mod agent_calls;
mod agent_classes;
mod agent_desks;
mod agent_events;
mod agent_meetings;
mod agent_stops;
mod agent_tries;
mod event;
mod holding;
mod laws;
mod letting_go;
mod membership;
mod service;
mod service_classes;
mod service_stops;
mod service_threads;
mod service_tries;

pub use agent::{Agent, Gathering};
pub use agent_calls::ServiceCalls;
pub use agent_classes::ClassCalls;
pub use agent_stops::StopCalls;
pub use agent_tries::ServiceTries;
pub use event::{Event, EventKind, NextEvent};
pub use laws::cleared_words_read_zero;
pub use membership::Membership;
pub use service::Service;
pub use ti_methods::{
    ClassError, ClassInfo, ClassNo, Defined, LineEntry, Lines, MethodInfo, MethodName,
};
pub use ti_roster::{
    LifeEvent, LifeKind, Stop, StopCall, StopError, StopKind, StopReply, ThreadInfo,
};
