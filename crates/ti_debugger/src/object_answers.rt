//! What is told of texts and tables, which are values of variables.

use crate::desk::Desk;
use crate::refusal::Refusal;
use crate::stacks::{Part, part_of, wanted_of};
use std::alloc::Global;
use ti_jdwp::{
    JdwpError, TEXT_CLASS, class_of_object_body, class_of_table_body, collected_body, entries_body,
    int_body, table_of, text_body, text_of,
};

/// So many numbers from `first` on. 503 INVALID_INDEX if one is 2^32 or more, and 110 if there is no memory.
fn numbers_from(alloc: Global, first: u32, count: u32) -> Result<Vec<u32>, JdwpError>
    ensures { IfOk result (λ v. v.items ≡ numbers_from first count) }
{
    let mut numbers = Vec::new(alloc);
    for more in 0..count {
        let Ok(number) = u32::try_from(u64::from(first) + u64::from(more)) else {
            return Err(JdwpError::InvalidIndex);
        };
        numbers.reserve(1)?;
        numbers.push_reserved(number);
    }
    Ok(numbers)
}

/// The numbers of the texts that are this part of the entries of a table, which stand behind it.
fn entries_of(alloc: Global, table: u32, part: Option<Part>) -> Result<Vec<u32>, JdwpError>
    ensures { IfOk result (λ v. v.items ≡ entries_of table part) }
{
    let Some(part) = part else {
        return Ok(Vec::new(alloc));
    };
    let first = u64::from(table) + 1 + u64::from(part.start.cast_unsigned());
    match u32::try_from(first) {
        Ok(first) => numbers_from(alloc, first, part.count.cast_unsigned()),
        Err(_) => Err(JdwpError::InvalidIndex),
    }
}

impl Desk {
    /// The class of a text or a table (9/1). 20 INVALID_OBJECT if it is not kept.
    pub(crate) fn class_of_object(&self, id: u64) -> Result<Vec<u8>, Refusal>
        ensures { IfOk result (λ v. TellsClass self.now.objects.list.items id v.items) }
    {
        if let Some(number) = text_of(id) {
            if self.objects.text(number).is_some() {
                return Ok(class_of_object_body(self.alloc, TEXT_CLASS)?);
            }
        }
        if let Some(number) = table_of(id) {
            if self.objects.table(number).is_some() {
                return Ok(class_of_table_body(self.alloc)?);
            }
        }
        Err(Refusal::Error(JdwpError::InvalidObject))
    }

    /// That a text or a table was not collected (9/9). 20 INVALID_OBJECT if it is not kept.
    pub(crate) fn is_collected(&self, id: u64) -> Result<Vec<u8>, Refusal>
        ensures { IfOk result (λ v. v.items ≡ 0 ∷ []) }
    {
        let _it_is_there = self.class_of_object(id)?;
        Ok(collected_body(self.alloc, false)?)
    }

    /// The bytes of a text (10/1). 20 INVALID_OBJECT if it is not kept.
    pub(crate) fn text_value(&self, id: u64) -> Result<Vec<u8>, Refusal>
        ensures { IfOk result (λ v. TellsText self.now.objects.list.items id v.items) }
    {
        let Some(number) = text_of(id) else {
            return Err(Refusal::Error(JdwpError::InvalidObject));
        };
        match self.objects.text(number) {
            Some(text) => Ok(text_body(self.alloc, text)?),
            None => Err(Refusal::Error(JdwpError::InvalidObject)),
        }
    }

    /// The number of a table, and how many entries it has. 20 INVALID_OBJECT if it is not kept.
    pub(crate) fn table_in(&self, id: u64) -> Result<(u32, u32), JdwpError>
        ensures { IfOk result (λ t. IsTable self.now.objects.list.items id t.0 t.1) }
    {
        let Some(number) = table_of(id) else {
            return Err(JdwpError::InvalidObject);
        };
        match self.objects.table(number) {
            Some(count) => Ok((number, count)),
            None => Err(JdwpError::InvalidObject),
        }
    }

    /// How many entries a table has (13/1).
    pub(crate) fn table_length(&self, id: u64) -> Result<Vec<u8>, Refusal>
        ensures { IfOk result (λ v. TellsLength self.now.objects.list.items id v.items) }
    {
        let (_, count) = self.table_in(id)?;
        Ok(int_body(self.alloc, count.cast_signed())?)
    }

    /// Entries of a table (13/2), which are texts behind it.
    ///
    /// - 503 INVALID_INDEX: the table has no entry at the start.
    /// - 504 INVALID_LENGTH: it has fewer entries than were asked for.
    pub(crate) fn table_entries(&self, id: u64, start: i32, length: i32) -> Result<Vec<u8>, Refusal>
        ensures { IfOk result (λ v. TellsEntries self.now.objects.list.items id start length v.items) }
    {
        let (number, count) = self.table_in(id)?;
        let count = count.cast_signed();
        let wanted = wanted_of(count, start, length);
        let part = part_of(count, start, wanted)?;
        let texts = entries_of(self.alloc, number, part)?;
        Ok(entries_body(self.alloc, texts.as_slice())?)
    }
}

ghost use Rattle.std.specs.Prelude.{◌≡◌, ◌∷◌, [], IfOk};
ghost use Rattle.ti_debugger.specs.VariableReplies.{IsTable, TellsClass, TellsEntries, TellsLength, TellsText, entries_of, numbers_from};
