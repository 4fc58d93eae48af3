//! What is told of variables: the runtime is asked, and the request waits for its answer.

use crate::asked::{Asked, Named, Row};
use crate::desk::Desk;
use crate::question::Question;
use crate::refusal::Refusal;
use std::alloc::Global;
use ti_jdwp::{
    JdwpError, Value, VariableRow, frame_of, generic_variables_body, read_slots, values_body,
    variables_body,
};

/// The body of the reply for these variables, with generic signatures or without (6/5, 6/2). The error is lack of memory.
fn body_of(alloc: Global, generic: bool, variables: &[Named]) -> Result<Vec<u8>, JdwpError>
    ensures { IfOk result (λ v. v.items ≡ variables_text generic variables.now) }
{
    let mut rows = Vec::new(alloc);
    for named in variables {
        rows.reserve(1)?;
        rows.push_reserved(VariableRow {
            first: named.first,
            count: named.count,
            name: named.name.as_slice(),
            slot: named.slot,
        });
    }
    if generic {
        generic_variables_body(alloc, rows.as_slice())
    } else {
        variables_body(alloc, rows.as_slice())
    }
}

/// The value of the variable of a slot.
fn value_at(rows: &[Row], slot: u32) -> Option<Value>
    ensures { result ≡ value_at rows.now slot }
{
    for row in rows {
        if row.slot == slot {
            return Some(row.value);
        }
    }
    None
}

/// The values at these slots, in their order. 35 INVALID_SLOT if there is none at one of them.
pub(crate) fn picked(alloc: Global, rows: &[Row], slots: &[u32]) -> Result<Vec<Value>, JdwpError>
    ensures ok { IfOk result (λ v. picked rows.now slots.now ≡ Some v.items) }
    ensures err { IfErr result (λ e. (e ≡ OutOfMemory) ⊎ ((e ≡ InvalidSlot) × (picked rows.now slots.now ≡ None))) }
{
    let mut values = Vec::new(alloc);
    for slot in slots {
        let Some(value) = value_at(rows, *slot) else {
            return Err(JdwpError::InvalidSlot);
        };
        values.reserve(1)?;
        values.push_reserved(value);
    }
    Ok(values)
}

/// The body of the reply for the values at these slots (16/1), which stand in these bytes.
fn values_of(alloc: Global, rows: &[Row], bytes: &[u8]) -> Result<Vec<u8>, JdwpError>
    ensures { IfOk result (λ v. TellsValues rows.now bytes.now v.items) }
{
    let slots = read_slots(alloc, bytes)?;
    let values = picked(alloc, rows, slots.as_slice())?;
    values_body(alloc, values.as_slice())
}

impl Desk {
    /// Asks the runtime. The reply waits for its answer.
    fn ask(&mut self, question: Question) -> Refusal
        ensures later { result ≡ Later }
        ensures asks { self.new.asked ≡ Open question }
        ensures rest { self.new ≡ record self.old { asked = self.new.asked } }
    {
        self.asked = Asked::Open(question);
        Refusal::Later
    }

    /// The variables of a method (6/2, 6/5), as the runtime tells them.
    ///
    /// - 21, 23: the class has no such method.
    /// - 101 ABSENT_INFORMATION: the runtime tells no variables, or not these.
    pub(crate) fn variables(
        &mut self,
        class: u64,
        method: u64,
        generic: bool,
    ) -> Result<Vec<u8>, Refusal>
        ensures told { IfOk result (λ v. TellsVariables generic method self.old.asked v.items) }
        ensures rest { self.new ≡ record self.old { agent = self.new.agent; asked = self.new.asked } }
    {
        let method = self.method_in(class, method)?.0;
        match &self.asked {
            Asked::Variables {
                method: told,
                variables,
            } if *told == method => {
                return Ok(body_of(self.alloc, generic, variables.as_slice())?);
            }
            Asked::Untold {
                question: Question::Variables { method: told },
                error,
            } if *told == method => return Err(Refusal::Error(*error)),
            _ => (),
        }
        if !self.tells {
            return Err(Refusal::Error(JdwpError::AbsentInformation));
        }
        Err(self.ask(Question::Variables { method }))
    }

    /// The values of variables of a frame (16/1), as the runtime tells them. The slots stand in these bytes.
    ///
    /// - 13 THREAD_NOT_SUSPENDED: the thread has ended, or still runs.
    /// - 30 INVALID_FRAMEID: it has no such frame.
    /// - 35 INVALID_SLOT: no value was told for a slot.
    /// - 99 NOT_IMPLEMENTED: the runtime tells no variables. 101 ABSENT_INFORMATION: not these.
    pub(crate) fn values(
        &mut self,
        thread: u32,
        frame: u64,
        bytes: &[u8],
    ) -> Result<Vec<u8>, Refusal>
        ensures told { IfOk result (λ v. TellsFrame thread frame bytes.now self.old.asked v.items) }
        ensures rest { self.new ≡ record self.old { agent = self.new.agent; asked = self.new.asked } }
    {
        let (of, depth) = frame_of(frame);
        if of != thread {
            return Err(Refusal::Error(JdwpError::InvalidFrameId));
        }
        match &self.asked {
            Asked::Values {
                thread: told,
                depth: at,
                rows,
            } if *told == thread && *at == depth => {
                return Ok(values_of(self.alloc, rows.as_slice(), bytes)?);
            }
            Asked::Untold {
                question: Question::Values {
                    thread: told,
                    depth: at,
                },
                error,
            } if *told == thread && *at == depth => return Err(Refusal::Error(*error)),
            _ => (),
        }
        if !self.tells {
            return Err(Refusal::Error(JdwpError::NotImplemented));
        }
        Err(self.ask_values(thread, depth))
    }

    /// Asks the runtime for the values of a frame, if it is there.
    fn ask_values(&mut self, thread: u32, depth: u32) -> Refusal
        ensures { self.new ≡ record self.old { agent = self.new.agent; asked = self.new.asked } }
    {
        match self.depth(thread) {
            Ok(count) if i64::from(depth) < i64::from(count) => {
                self.ask(Question::Values { thread, depth })
            }
            Ok(_) => Refusal::Error(JdwpError::InvalidFrameId),
            Err(refusal) => refusal,
        }
    }
}

ghost use Rattle.std.specs.Prelude.{◌≡◌, ◌⊎◌, Some, None, IfOk, IfErr};
ghost use Rattle.ti_jdwp.specs.declared.error.JdwpError.TheVariants.{InvalidSlot, OutOfMemory};
ghost use Rattle.ti_debugger.specs.declared.asked.Asked.TheVariants.{Open};
ghost use Rattle.ti_debugger.specs.declared.refusal.Refusal.TheVariants.{Later};
ghost use Rattle.ti_debugger.specs.VariableReplies.{TellsFrame, TellsValues, TellsVariables, picked, value_at, variables_text};
