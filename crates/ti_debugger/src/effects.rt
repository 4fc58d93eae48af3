//! What a reply does to the texts and tables that are kept.

use crate::asked::{Asked, Row};
use crate::desk::Desk;
use crate::objects::{Disposal, Objects};
use crate::refusal::Refusal;
use crate::stacks::{Part, part_of, wanted_of};
use crate::variable_answers::picked;
use std::alloc::Global;
use ti_jdwp::{
    DISPOSED_LEN, JdwpError, Request, Value, disposed_at, read_slots, table_of, text_of,
};

/// What a reply does to the texts and tables that are kept, once it is written.
#[derive(Drop)]
pub(crate) enum Effect {
    Nothing,
    /// The debugger is told these values.
    Values(Vec<Value>),
    /// The debugger is told so many texts from this number on.
    Entries { first: u32, count: u32 },
    /// The debugger does not need these any more.
    Disposed(Vec<Disposal>),
}

/// The body of a reply, and what it does to the texts and tables that are kept.
#[derive(Drop)]
pub(crate) struct Reply {
    pub(crate) body: Vec<u8>,
    pub(crate) effect: Effect,
}

/// The object at this place of those that a debugger does not need any more. `None` if the id is no text's and no table's.
fn disposal_at(bytes: &[u8], place: usize) -> Option<Disposal>
    ensures { result ≡ disposal_at bytes.now place }
{
    let (id, count) = disposed_at(bytes, place)?;
    if let Some(number) = text_of(id) {
        return Some(Disposal {
            is_text: true,
            number,
            count,
        });
    }
    let number = table_of(id)?;
    Some(Disposal {
        is_text: false,
        number,
        count,
    })
}

/// The texts and tables that a debugger does not need any more, which stand in these bytes. The error is lack of memory.
fn disposals_in(alloc: Global, bytes: &[u8]) -> Result<Vec<Disposal>, JdwpError>
    ensures { IfOk result (λ v. v.items ≡ disposals (length bytes.now / 12) bytes.now) }
{
    let mut list = Vec::new(alloc);
    for place in 0..bytes.len() / DISPOSED_LEN {
        match disposal_at(bytes, place) {
            Some(disposal) => {
                list.reserve(1)?;
                list.push_reserved(disposal);
            }
            None => (),
        }
    }
    Ok(list)
}

/// The values at the slots that stand in these bytes.
fn values_told(alloc: Global, rows: &[Row], bytes: &[u8]) -> Result<Vec<Value>, JdwpError>
    ensures { IfOk result (λ v. ArePicked rows.now bytes.now v.items) }
{
    let slots = read_slots(alloc, bytes)?;
    picked(alloc, rows, slots.as_slice())
}

/// The texts that are this part of the entries of a table.
fn entries_told(table: u32, part: Option<Part>) -> Effect
    ensures { result ≡ entries_told table part }
{
    match part {
        Some(part) => Effect::Entries {
            first: table
                .saturating_add(1)
                .saturating_add(part.start.cast_unsigned()),
            count: part.count.cast_unsigned(),
        },
        None => Effect::Nothing,
    }
}

impl Desk {
    /// The reply to a request, whose data are these bytes, and what it does to the texts and tables that are kept once it is written.
    pub(crate) fn reply_to(&mut self, request: Request, bytes: &[u8]) -> Result<Reply, Refusal>
        ensures told { IfOk result (λ r. IsBodyOf request bytes.now self.old self.new r.body.items) }
        ensures effect { IfOk result (λ r. IsEffectOf request bytes.now self.new r.effect) }
        ensures rest { self.new ≡ record self.old { agent = self.new.agent; asked = self.new.asked } }
    {
        let body = self.answer(request, bytes)?;
        let effect = self.effect_of(request, bytes)?;
        Ok(Reply { body, effect })
    }

    /// What the reply to a request does to the texts and tables that are kept.
    fn effect_of(&self, request: Request, bytes: &[u8]) -> Result<Effect, Refusal>
        ensures { IfOk result (λ e. IsEffectOf request bytes.now self.now e) }
    {
        match request {
            Request::DisposeObjects(range) => {
                let list = disposals_in(self.alloc, range.of(bytes))?;
                Ok(Effect::Disposed(list))
            }
            Request::FrameValues { slots, .. } => self.values_effect(slots.of(bytes)),
            Request::TableEntries {
                table,
                start,
                length,
            } => Ok(self.entries_effect(table, start, length)?),
            _ => Ok(Effect::Nothing),
        }
    }

    /// The values at the slots that stand in these bytes are told.
    fn values_effect(&self, bytes: &[u8]) -> Result<Effect, Refusal>
        ensures { IfOk result (λ e. TellsPicked self.now.asked bytes.now e) }
    {
        match &self.asked {
            Asked::Values { rows, .. } => {
                let values = values_told(self.alloc, rows.as_slice(), bytes)?;
                Ok(Effect::Values(values))
            }
            _ => Ok(Effect::Nothing),
        }
    }

    /// A part of the entries of a table is told.
    fn entries_effect(&self, id: u64, start: i32, length: i32) -> Result<Effect, JdwpError>
        ensures { IfOk result (λ e. TellsPart self.now.objects.list.items id start length e) }
    {
        let (number, count) = self.table_in(id)?;
        let count = count.cast_signed();
        let part = part_of(count, start, wanted_of(count, start, length))?;
        Ok(entries_told(number, part))
    }

    /// A reply is written.
    pub(crate) fn take(&mut self, effect: &Effect)
        ensures taken { Takes effect.now self.old self.new }
    {
        self.objects.take(effect);
    }
}

impl Objects {
    /// Counts what a reply tells, and frees what the debugger does not need any more.
    fn take(&mut self, effect: &Effect)
        ensures list { self.new.list.items ≡ left_by effect.now self.old.list.items }
        ensures numbers { self.new.numbers ≡ self.old.numbers }
    {
        match effect {
            Effect::Nothing => (),
            Effect::Values(values) => self.tell_values(values.as_slice()),
            Effect::Entries { first, count } => self.tell(*first, *count),
            Effect::Disposed(list) => self.dispose_all(list.as_slice()),
        }
    }

    /// The debugger is told these values.
    fn tell_values(&mut self, values: &[Value])
        ensures told { self.new.list.items ≡ fold told_value self.old.list.items values.now }
        ensures numbers { self.new.numbers ≡ self.old.numbers }
    {
        for value in values {
            self.tell_value(*value);
        }
    }

    /// The debugger is told this value.
    fn tell_value(&mut self, value: Value)
        ensures told { self.new.list.items ≡ told_value self.old.list.items value }
        ensures numbers { self.new.numbers ≡ self.old.numbers }
    {
        match value {
            Value::Text(number) | Value::Table(number) => self.tell(number, 1),
            Value::Nil | Value::Boolean(_) | Value::Integer(_) | Value::Number(_) => (),
        }
    }
}

ghost use Rattle.std.specs.Prelude.{◌≡◌, ◌/◌, length, IfOk};
ghost use Rattle.std.specs.List.{fold};
ghost use Rattle.ti_debugger.specs.Effects.{ArePicked, IsEffectOf, TellsPart, TellsPicked, Takes, disposal_at, disposals, entries_told, left_by, told_value};
ghost use Rattle.ti_debugger.specs.Replies.{IsBodyOf};
