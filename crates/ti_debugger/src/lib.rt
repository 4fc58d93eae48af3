//! The agent behind a debugger's session: it answers the Java Debug Wire Protocol (JDWP) from a service's threads.
//!
//! A `Debugger` is an agent of the service, kept from one debugger to the next, with at most one session of `ti_jdwp`. It suspends
//! and resumes threads as the session says, and replies with their names, states and stacks, and with the runtime's classes. It has
//! no socket and no clock: bytes and the time go in, bytes and what is to be done come out. No call waits. It knows no variables: it
//! asks the runtime for them, and a request waits for the answer.
#![tactic(auto)]

mod about;
mod asked;
mod asking;
mod bytes;
mod class_answers;
mod crowd;
mod debugger;
mod debugger_error;
mod desk;
mod due;
mod effects;
mod halted;
mod halting;
mod hold;
mod holding;
mod meeting;
mod method_answers;
mod nearest;
mod object_answers;
mod objects;
mod popping;
mod pops;
mod prepared;
mod question;
mod refusal;
mod seat;
mod source;
mod stacks;
mod status;
mod stopping;
mod taking;
mod tellers;
mod telling;
mod variable_answers;
mod watched;

pub use about::About;
pub use debugger::Debugger;
pub use debugger_error::DebuggerError;
pub use question::{Content, Question, TellError, Told, Variable};
pub use seat::Todo;
