//! What is told of methods.

use crate::desk::Desk;
use crate::refusal::Refusal;
use std::alloc::{AllocError, Global};
use ti_jdwp::{
    JdwpError, LineRow, MethodRow, class_of, collected_body, identity_lines_body, line_table_body,
    method_of, methods_body,
};
use ti_service::{ClassCalls, ClassError, ClassNo, LineEntry, Lines};
use ti_types::MethodNo;

/// The signature that each method has: the runtime's own need not be one of Java's.
const SIGNATURE: &[u8] = b"()V";

/// How many lines are told of a method whose locations are its lines, from its first line on.
const MOST_LINES: u32 = 4_096;

/// A method with its name.
#[derive(Drop)]
struct Known {
    method: u32,
    name: String,
    native: bool,
}

/// The rows of a list of methods. The error is lack of memory.
fn body_of(alloc: Global, methods: &[Known]) -> Result<Vec<u8>, JdwpError>
    ensures { IfOk result (λ v. v.items ≡ list method_item (map known_method methods.now)) }
{
    let mut rows = Vec::new(alloc);
    for known in methods {
        rows.reserve(1)?;
        rows.push_reserved(MethodRow {
            method: known.method,
            name: known.name.as_bytes(),
            signature: SIGNATURE,
            native: known.native,
        });
    }
    methods_body(alloc, rows.as_slice())
}

/// The lines from this one on, 1 if it is not known. The error is lack of memory.
fn lines_from(alloc: Global, first: u32) -> Result<Vec<u32>, AllocError>
    ensures { IfOk result (λ v. v.items ≡ lines_for (max first 1) 4096) }
{
    let mut lines = Vec::new(alloc);
    let from = first.max(1);
    for more in 0..MOST_LINES {
        lines.reserve(1)?;
        lines.push_reserved(from.saturating_add(more));
    }
    Ok(lines)
}

/// The rows of a table, in the order of their locations. The error is lack of memory.
fn rows_of(alloc: Global, entries: &[LineEntry]) -> Result<Vec<LineRow>, AllocError>
    ensures same { IfOk result (λ v. IsPermutation (map row_of entries.now) v.items) }
    ensures order { IfOk result (λ v. IsNonDecreasingBy index_of v.items) }
{
    let mut rows = Vec::new(alloc);
    for entry in entries {
        rows.reserve(1)?;
        rows.push_reserved(LineRow {
            index: u64::from(entry.start_location),
            line: entry.line,
        });
    }
    rows.sort_by_key(|row: &LineRow| row.index)?;
    Ok(rows)
}

/// The lines of a method whose first line is this one (6/1). The range of the table begins with its first location, which is that of
/// the method.
fn table_of(alloc: Global, lines: Lines, first: u32) -> Result<Vec<u8>, JdwpError>
    ensures { IfOk result (λ v. TellsTable lines first v.items) }
{
    match lines {
        Lines::Absent => identity_lines_body(alloc, &[]),
        Lines::Locations => {
            let lines = lines_from(alloc, first)?;
            identity_lines_body(alloc, lines.as_slice())
        }
        Lines::Table(entries) => {
            let rows = rows_of(alloc, entries.as_slice())?;
            let start = match rows.first() {
                Some(row) => row.index,
                None => 0,
            };
            line_table_body(alloc, start, u64::from(u32::MAX), rows.as_slice())
        }
    }
}

impl Desk {
    /// A method with its name.
    fn known_method(&mut self, method: MethodNo) -> Result<Known, ClassError>
        ensures told { IfOk result (λ k. IsKnown (classes_of self.new.agent) method (known_method k)) }
        ensures grows { OnOk result (IsPrefix (classes_of self.old.agent) (classes_of self.new.agent)) }
        ensures rest { self.new ≡ record self.old { agent = self.new.agent } }
    {
        let named = self.agent.get_method_name(self.alloc, method)?;
        let native = self.agent.is_method_native(method)?;
        Ok(Known {
            method: method.0,
            name: named.name,
            native,
        })
    }

    /// The methods of a class (2/15).
    pub(crate) fn methods(&mut self, id: u64) -> Result<Vec<u8>, Refusal>
        ensures told { IfOk result (λ v. TellsMethods (classes_of self.new.agent) id v.items) }
        ensures rest { self.new ≡ record self.old { agent = self.new.agent } }
    {
        let Some(class) = class_of(id) else {
            return Err(Refusal::Error(JdwpError::InvalidClass));
        };
        let mut known = Vec::new(self.alloc);
        let methods = self.agent.get_class_methods(self.alloc, ClassNo(class))?;
        for method in &methods {
            known.reserve(1)?;
            known.push_reserved(self.known_method(*method)?);
        }
        Ok(body_of(self.alloc, known.as_slice())?)
    }

    /// A method of a class. 21 or 23 if the class has no such method.
    pub(crate) fn method_in(&mut self, class: u64, method: u64) -> Result<MethodNo, Refusal>
        ensures found { IfOk result (λ m. number_from first_method method ≡ Some m.0) }
        ensures declared { IfOk result (λ m. Declares (classes_of self.new.agent) class m) }
        ensures rest { self.new ≡ record self.old { agent = self.new.agent } }
    {
        let (Some(class), Some(method)) = (class_of(class), method_of(method)) else {
            return Err(Refusal::Error(JdwpError::InvalidMethodId));
        };
        if self.agent.get_method_declaring_class(MethodNo(method))? != ClassNo(class) {
            return Err(Refusal::Error(JdwpError::InvalidMethodId));
        }
        Ok(MethodNo(method))
    }

    /// That a method is not obsolete (6/4): no class is defined anew. 21 or 23 if the class has no such method.
    pub(crate) fn is_obsolete(&mut self, class: u64, method: u64) -> Result<Vec<u8>, Refusal>
        ensures told { IfOk result (λ v. IsNotObsolete (classes_of self.new.agent) class method v.items) }
        ensures rest { self.new ≡ record self.old { agent = self.new.agent } }
    {
        let _it_is_there = self.method_in(class, method)?;
        Ok(collected_body(self.alloc, false)?)
    }

    /// The lines of a method, if they are known.
    fn lines_of(&mut self, method: MethodNo) -> Result<Lines, ClassError>
        ensures told { IfOk result (λ l. HasLines (classes_of self.new.agent) method l) }
        ensures grows { OnOk result (IsPrefix (classes_of self.old.agent) (classes_of self.new.agent)) }
        ensures rest { self.new ≡ record self.old { agent = self.new.agent } }
    {
        match self.agent.get_line_number_table(self.alloc, method) {
            Ok(lines) => Ok(lines),
            Err(ClassError::AbsentInformation) => Ok(Lines::Absent),
            Err(error) => Err(error),
        }
    }

    /// The lines of a method (6/1). One whose lines are not known has none.
    pub(crate) fn line_table(&mut self, class: u64, method: u64) -> Result<Vec<u8>, Refusal>
        ensures told { IfOk result (λ v. TellsLines (classes_of self.new.agent) class method v.items) }
        ensures rest { self.new ≡ record self.old { agent = self.new.agent } }
    {
        let method = self.method_in(class, method)?;
        let first = self.agent.get_method_name(self.alloc, method)?.first_line;
        let lines = self.lines_of(method)?;
        Ok(table_of(self.alloc, lines, first)?)
    }
}

ghost use Rattle.std.specs.Prelude.{◌≡◌, map, max, Some, IfOk, OnOk};
ghost use Rattle.std.specs.List.Sorted.{IsNonDecreasingBy, IsPermutation};
ghost use mathlib.Core.List.{IsPrefix};
ghost use Rattle.ti_jdwp.specs.Bodies.{list};
ghost use Rattle.ti_jdwp.specs.Ids.{number_from, first_method};
ghost use Rattle.ti_service.specs.Classes.{classes_of};
ghost use Rattle.ti_debugger.specs.LineReplies.{Declares, HasLines, IsNotObsolete, TellsLines, TellsTable, index_of, lines_for, row_of};
ghost use Rattle.ti_debugger.specs.MethodReplies.{IsKnown, TellsMethods, known_method, method_item};
