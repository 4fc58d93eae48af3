//! Questions of a door for debuggers, and the runtime's answers.

use crate::any_door::AnyDoor;
use crate::codes::{CQ_NONE, CQ_OK, done_code};
use crate::handle::CqDoor;
use crate::handle_lends::behind;
use std::alloc::Global;
use ti_debugger::{Content, Question, TellError, Told, Variable};
use ti_jdwp::JdwpError;
use ti_types::TiError;

/// A question, as C has it. What it does not ask about is 0.
#[repr(C)]
#[derive(Clone, Copy)]
pub struct CqQuestion {
    /// 0: there is none. 1: the variables of `method`. 2: the values of the frame at `depth` of `thread`.
    pub kind: u32,
    pub method: u32,
    pub thread: u32,
    pub depth: u32,
}

/// A variable of a method.
pub type CqVariable = Variable;

/// The value of a variable, or an entry of the table before it, as C has it.
#[repr(C)]
#[derive(Clone, Copy)]
pub struct CqValue {
    pub slot: u32,
    pub kind: u32,
    pub bits: u64,
}

/// A question for C.
fn question_out(question: Option<Question>) -> CqQuestion
    ensures { result ≡ question_out question }
{
    match question {
        None => CqQuestion {
            kind: 0,
            method: 0,
            thread: 0,
            depth: 0,
        },
        Some(Question::Variables { method }) => CqQuestion {
            kind: 1,
            method,
            thread: 0,
            depth: 0,
        },
        Some(Question::Values { thread, depth }) => CqQuestion {
            kind: 2,
            method: 0,
            thread,
            depth,
        },
    }
}

/// What a value of C's has. 103 if there is no such kind, or a boolean is neither 0 nor 1.
fn content_of(value: CqValue) -> Result<Content, TellError>
    ensures told { result ≡ content_of value }
    ensures refused { IfErr result (λ e. e ≡ IllegalArgument) }
{
    match value.kind {
        0 => Ok(Content::Nil),
        1 => match value.bits {
            0 => Ok(Content::Boolean(false)),
            1 => Ok(Content::Boolean(true)),
            _ => Err(TellError::IllegalArgument),
        },
        2 => Ok(Content::Integer(value.bits.cast_signed())),
        3 => Ok(Content::Number(value.bits)),
        4 => Ok(Content::Text(value.bits as usize)),
        5 => Ok(Content::Table(value.bits as usize)),
        6 => Ok(Content::Entry(value.bits as usize)),
        _ => Err(TellError::IllegalArgument),
    }
}

/// A value with its slot. 103 if it is none.
fn told_of(value: CqValue) -> Result<Told, TellError>
    ensures told { IfOk result (IsTold value) }
    ensures refused { IfErr result (λ e. (e ≡ IllegalArgument) × (HasContent value → ⊥)) }
{
    Ok(Told {
        slot: value.slot,
        content: content_of(value)?,
    })
}

/// The values that C gives. 103 if one is none, 110 if there is no memory.
fn values_of(alloc: Global, values: &[CqValue]) -> Result<Vec<Told>, TellError>
    ensures same { IfOk result (λ v. AreTold values.now v.items) }
    ensures refused { IfErr result (λ e. (e ≡ OutOfMemory) ⊎ ((e ≡ IllegalArgument) × (HaveTold values.now → ⊥))) }
{
    let mut told = Vec::with_capacity(alloc, values.len())?;
    for i in 0..values.len() {
        told.push_reserved(told_of(values[i])?);
    }
    Ok(told)
}

/// The error that a debugger is told for a code: 13 and 110 as they are, and 101 for each other.
fn untold(code: u32) -> JdwpError
    ensures { result ≡ untold code }
{
    match code {
        13 => JdwpError::ThreadNotSuspended,
        110 => JdwpError::OutOfMemory,
        _ => JdwpError::AbsentInformation,
    }
}

/// The code of an answer.
fn told_code(told: Result<(), TellError>) -> u32
    ensures { result ≡ told_code told }
{
    match told {
        Ok(()) => CQ_OK,
        Err(TellError::IllegalArgument) => TiError::IllegalArgument.number(),
        Err(TellError::OutOfMemory) => TiError::OutOfMemory.number(),
        Err(TellError::NotAsked) => CQ_NONE,
    }
}

/// Whether this is a question for values.
fn asks_values(question: Option<Question>) -> bool
    ensures { result ≡ asks_values question }
{
    matches!(question, Some(Question::Values { .. }))
}

/// Answers a question for values by what C gives. If no such question is open, what C gives is not looked at.
fn tell_values(
    alloc: Global,
    door: &mut AnyDoor,
    values: &[CqValue],
    texts: &[u8],
) -> Result<(), TellError>
    ensures { TellsValues values.now texts.now door.old door.new result }
{
    if !asks_values(door.question()) {
        return Err(TellError::NotAsked);
    }
    let told = values_of(alloc, values)?;
    door.tell_values(told.as_slice(), texts)
}

/// Says whether the runtime tells variables.
#[unsafe(no_mangle)]
pub extern "C" fn cq_door_tells_variables(door: &mut CqDoor, tells: bool) -> u32
    ensures { CallsDoor (SaysTells tells) ⊤ door.old door.new result }
{
    behind!(door in door.held_door());
    door.tells_variables(tells);
    CQ_OK
}

/// Says whether the runtime waits for its first debugger.
#[unsafe(no_mangle)]
pub extern "C" fn cq_door_starts_suspended(door: &mut CqDoor, suspended: bool) -> u32
    ensures { CallsDoor (SaysStarts suspended) ⊤ door.old door.new result }
{
    behind!(door in door.held_door());
    door.starts_suspended(suspended);
    CQ_OK
}

/// Says whether threads of the runtime go on without the frames that were popped.
#[unsafe(no_mangle)]
pub extern "C" fn cq_door_pops_frames(door: &mut CqDoor, pops: bool) -> u32
    ensures { CallsDoor (SaysPops pops) ⊤ door.old door.new result }
{
    behind!(door in door.held_door());
    done_code(door.pops_frames(pops))
}

/// The question that is open.
#[unsafe(no_mangle)]
pub extern "C" fn cq_door_question(door: &mut CqDoor, question: &mut CqQuestion) -> u32
    ensures { CallsDoor (GivesQuestion question.new) (question.new ≡ question.old) door.old door.new result }
{
    behind!(door in door.held_door());
    *question = question_out(door.question());
    CQ_OK
}

/// Answers a question for the variables of a method.
#[unsafe(no_mangle)]
pub extern "C" fn cq_door_tell_variables(
    door: &mut CqDoor,
    variables: &[CqVariable],
    names: &[u8],
) -> u32
    ensures { CallsDoor (Answers (TellsVariables variables.now names.now)) ⊤ door.old door.new result }
{
    behind!(door in door.held_door());
    told_code(door.tell_variables(variables, names))
}

/// Answers a question for the values of a frame.
#[unsafe(no_mangle)]
pub extern "C" fn cq_door_tell_values(
    alloc: Global,
    door: &mut CqDoor,
    values: &[CqValue],
    texts: &[u8],
) -> u32
    ensures { CallsDoor (Answers (TellsValues values.now texts.now)) ⊤ door.old door.new result }
{
    behind!(door in door.held_door());
    told_code(tell_values(alloc, door, values, texts))
}

/// Answers a question by an error.
#[unsafe(no_mangle)]
pub extern "C" fn cq_door_tell_none(door: &mut CqDoor, code: u32) -> u32
    ensures { CallsDoor (Answers (TellsNone (untold code))) ⊤ door.old door.new result }
{
    behind!(door in door.held_door());
    told_code(door.tell_none(untold(code)))
}

ghost use Rattle.std.specs.Prelude.{◌≡◌, ◌⊎◌, ⊤, IfErr, IfOk};
ghost use Rattle.ti_capi.specs.Doors.{CallsDoor};
ghost use Rattle.ti_capi.specs.Questions.{Answers, AreTold, GivesQuestion, HasContent, HaveTold, IsTold, SaysPops, SaysStarts, SaysTells, TellsNone, TellsValues, TellsVariables, content_of, question_out, told_code, untold};
ghost use Rattle.ti_debugger.specs.VariableReplies.{asks_values};
ghost use Rattle.ti_debugger.specs.declared.question.TellError.TheVariants.{IllegalArgument, OutOfMemory};
