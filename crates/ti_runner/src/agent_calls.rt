//! Makes an agent's calls, one after another.

use crate::gate::Gate;
use std::alloc::Global;
use std::sync::{Mutex, Wait};
use ti_agent::Env;
use ti_cell::EnvSeat;
use ti_handshake::Desk;
use ti_live::{AgentCall, Listed, Reply};
use ti_types::{Answer, Caps, EnvNo, StackInfo, TiError};
use ti_vmop::{Round, VmTurn};

/// What an agent gives back when its list is done.
#[derive(Drop)]
pub struct Called {
    /// Its seats, in the order of the threads' numbers.
    pub seats: Vec<EnvSeat>,
    /// The replies to its calls, in their order.
    pub replies: Vec<Reply>,
    /// Whether the gate ended its list.
    pub spent: bool,
}

/// The answer of a call without a value of its own.
fn done(came: Result<(), TiError>) -> Answer
    ensures { said result ≡ in_done came }
{
    match came {
        Ok(()) => Answer::Done,
        Err(error) => Answer::Refused(error),
    }
}

/// The answer of a call for a word.
fn word(came: Result<u64, TiError>) -> Answer
    ensures { said result ≡ in_word came }
{
    match came {
        Ok(word) => Answer::Word(word),
        Err(error) => Answer::Refused(error),
    }
}

/// The answer of a call for the environment's capabilities.
fn caps(came: Result<Caps, TiError>) -> Answer
    ensures { result ≡ in_caps came }
{
    match came {
        Ok(caps) => Answer::Caps(caps),
        Err(error) => Answer::Refused(error),
    }
}

/// The reply of a call for a list of threads: the codes, or the error that refused it.
fn codes(came: Result<Vec<u32>, TiError>) -> Reply {
    match came {
        Ok(codes) => Reply::Codes(Listed::from(codes)),
        Err(error) => Reply::Plain(Answer::Refused(error)),
    }
}

/// The reply of a trace of several threads: the stacks, or the error that refused it.
fn stacks(came: Result<(Vec<StackInfo>, Round), TiError>) -> Reply {
    match came {
        Ok((infos, _round)) => Reply::Stacks(Listed::from(infos)),
        Err(error) => Reply::Plain(Answer::Refused(error)),
    }
}

/// Makes a call, and gives the reply to it.
fn make<R: Wait>(
    rt: &R,
    alloc: Global,
    turn: &Mutex<VmTurn>,
    env: &mut Env,
    call: &AgentCall,
) -> Reply
    ensures { cells_at env.new.env.desks ≡ cells_at env.old.env.desks }
{
    match call {
        AgentCall::Ask(thread, call) => Reply::Plain(env.call(rt, alloc, *thread, *call)),
        AgentCall::AddCaps(caps) => Reply::Plain(done(env.add_capabilities(*caps))),
        AgentCall::Relinquish(caps) => Reply::Plain(done(env.relinquish_capabilities(*caps))),
        AgentCall::GetCaps => Reply::Plain(caps(env.get_capabilities())),
        AgentCall::SetEnvWord(value) => {
            Reply::Plain(done(env.set_environment_local_storage(*value)))
        }
        AgentCall::GetEnvWord => Reply::Plain(word(env.get_environment_local_storage())),
        AgentCall::SuspendList(threads) => {
            codes(env.suspend_thread_list(rt, alloc, threads.as_slice()))
        }
        AgentCall::ResumeList(threads) => {
            codes(env.resume_thread_list(rt, alloc, threads.as_slice()))
        }
        AgentCall::AllStacks(max_count) => {
            stacks(env.get_all_stack_traces(rt, alloc, turn, *max_count))
        }
        AgentCall::ListStacks(threads, max_count) => {
            stacks(env.get_thread_list_stack_traces(
                rt,
                alloc,
                turn,
                threads.as_slice(),
                *max_count,
            ))
        }
    }
}

/// The seats of these desks, in their order.
fn seats_of(desks: Vec<Desk>, seats: Vec<EnvSeat>) -> Vec<EnvSeat>
    requires empty { seats.items ≡ [] }
    requires room { length desks.items ≤ vec_capacity seats }
    ensures { seats_at result.items ≡ cells_at desks.items }
{
    let mut seats = seats;
    for desk in desks {
        seats.push_reserved(desk.into_seat());
    }
    seats
}

/// Makes an agent's calls, one after another, until the gate ends the list. `replies` has room for all replies.
pub(crate) fn call_all<R: Wait, G: Gate>(
    rt: &R,
    alloc: Global,
    gate: &G,
    turn: &Mutex<VmTurn>,
    number: EnvNo,
    env: Env,
    calls: &[AgentCall],
    replies: Vec<Reply>,
    seats: Vec<EnvSeat>,
) -> Called
    requires empty { seats.items ≡ [] }
    requires room { length env.env.desks ≤ vec_capacity seats }
    ensures { seats_at result.seats.items ≡ cells_at env.env.desks }
{
    let mut env = env;
    let mut replies = replies;
    let mut spent = false;
    let mut place: u32 = 0;
    for call in calls {
        if !gate.before_call(number, place) {
            spent = true;
            break;
        }
        let _full = replies.push(make(rt, alloc, turn, &mut env, call));
        gate.answered(number, place);
        place = place.wrapping_add(1);
    }
    Called {
        seats: seats_of(env.into_desks(), seats),
        replies,
        spent,
    }
}

ghost use Rattle.std.specs.Prelude.{◌≡◌, ◌≤◌, [], length, vec_capacity};
ghost use Rattle.ti_types.specs.Answer.{said};
ghost use Rattle.ti_agent.specs.Asks.{in_word, in_done};
ghost use Rattle.ti_agent.specs.Env.{cells_at};
ghost use Rattle.ti_runner.specs.Calls.{in_caps};
ghost use Rattle.ti_runner.specs.Cells.{seats_at};
