//! The bodies of replies about variables.
//!
//! Each function gives the bytes of one body. It fails with 110 OUT_OF_MEMORY alone: if there is no memory, or if a list or a
//! text has 2^31 items or bytes or more.

use crate::error::JdwpError;
use crate::ids::{table_id, text_id};
use crate::rows::{PutRow, put_rows, rows_body};
use crate::writing::{put_byte, put_int, put_long, put_tagged, put_text};
use std::alloc::Global;

/// What each variable is declared as: it may have values of any kind.
const SIGNATURE: &[u8] = b"Ljava/lang/Object;";

/// A variable of a method, which is there at this many locations from `first` on.
#[derive(Clone, Copy, Debug)]
pub struct VariableRow<'a> {
    pub first: u32,
    pub count: u32,
    pub name: &'a [u8],
    pub slot: u32,
}

/// The value of a variable. Texts and tables have their numbers.
#[derive(Clone, Copy, Debug, PartialEq, Eq)]
pub enum Value {
    /// The null object.
    Nil,
    Boolean(bool),
    Integer(i64),
    /// The bits of an IEEE 754 double.
    Number(u64),
    Text(u32),
    /// An array of texts.
    Table(u32),
}

/// How variables are listed: with the empty text for each generic signature, or with none.
#[derive(Drop)]
struct Variables {
    generic: bool,
}

impl PutRow<VariableRow<'_>> for Variables {
    ghost bytes = { λ v row. if v.generic then generic_variable_row row else variable_row row };

    ghost Fits = { λ row. length row.name.now < 2 ^ 31 };

    fn put(&self, out: &mut Vec<u8>, row: &VariableRow<'_>) -> Result<(), JdwpError> {
        put_long(out, u64::from(row.first))?;
        put_text(out, row.name)?;
        put_text(out, SIGNATURE)?;
        if self.generic {
            put_text(out, &[])?;
        }
        put_int(out, row.count)?;
        put_int(out, row.slot)
    }
}

/// The variables of a method (6/2). None is told as an argument.
pub fn variables_body(alloc: Global, variables: &[VariableRow<'_>]) -> Result<Vec<u8>, JdwpError>
    ensures ok { IfOk result (λ v. v.items ≡ variable_list variables.now) }
    ensures fits { IfOk result (λ _. (length variables.now < 2 ^ 31) × All (λ r. length r.name.now < 2 ^ 31) variables.now) }
    ensures memory { IfErr result (λ e. e ≡ OutOfMemory) }
{
    listed(alloc, false, variables)
}

/// The variables of a method, with the empty text for each generic signature (6/5). None is told as an argument.
pub fn generic_variables_body(
    alloc: Global,
    variables: &[VariableRow<'_>],
) -> Result<Vec<u8>, JdwpError>
    ensures ok { IfOk result (λ v. v.items ≡ generic_variable_list variables.now) }
    ensures fits { IfOk result (λ _. (length variables.now < 2 ^ 31) × All (λ r. length r.name.now < 2 ^ 31) variables.now) }
    ensures memory { IfErr result (λ e. e ≡ OutOfMemory) }
{
    listed(alloc, true, variables)
}

/// The variables of a method, with the empty text for each generic signature or with none.
fn listed(alloc: Global, generic: bool, variables: &[VariableRow<'_>]) -> Result<Vec<u8>, JdwpError>
    ensures ok { IfOk result (λ v. v.items ≡ int 0 ++ list (λ row. if generic then generic_variable_row row else variable_row row) variables.now) }
    ensures fits { IfOk result (λ _. (length variables.now < 2 ^ 31) × All (λ r. length r.name.now < 2 ^ 31) variables.now) }
    ensures memory { IfErr result (λ e. e ≡ OutOfMemory) }
{
    let mut out = Vec::new(alloc);
    put_int(&mut out, 0)?;
    put_rows(&mut out, &Variables { generic }, variables)?;
    Ok(out)
}

/// How values are listed, with their tags.
struct Values;

impl PutRow<Value> for Values {
    ghost bytes = { λ _ value. value_bytes value };

    fn put(&self, out: &mut Vec<u8>, value: &Value) -> Result<(), JdwpError> {
        match *value {
            Value::Nil => put_tagged(out, b'L', 0),
            Value::Boolean(is) => {
                put_byte(out, b'Z')?;
                put_byte(out, u8::from(is))
            }
            Value::Integer(number) => put_tagged(out, b'J', number.cast_unsigned()),
            Value::Number(bits) => put_tagged(out, b'D', bits),
            Value::Text(text) => put_tagged(out, b's', text_id(text)),
            Value::Table(table) => put_tagged(out, b'[', table_id(table)),
        }
    }
}

/// The values of variables (16/1), with their tags.
pub fn values_body(alloc: Global, values: &[Value]) -> Result<Vec<u8>, JdwpError>
    ensures ok { IfOk result (λ v. v.items ≡ value_list values.now) }
    ensures fits { IfOk result (λ _. length values.now < 2 ^ 31) }
    ensures memory { IfErr result (λ e. e ≡ OutOfMemory) }
{
    rows_body(alloc, &Values, values)
}

/// How entries of a table are listed.
struct Entries;

impl PutRow<u32> for Entries {
    ghost bytes = { λ _ text. 115 ∷ long (id_from first_text text) };

    fn put(&self, out: &mut Vec<u8>, text: &u32) -> Result<(), JdwpError> {
        put_tagged(out, b's', text_id(*text))
    }
}

/// Entries of a table (13/2): the tag of all, and each text by its number, with its own tag.
pub fn entries_body(alloc: Global, texts: &[u32]) -> Result<Vec<u8>, JdwpError>
    ensures ok { IfOk result (λ v. v.items ≡ entry_list texts.now) }
    ensures fits { IfOk result (λ _. length texts.now < 2 ^ 31) }
    ensures memory { IfErr result (λ e. e ≡ OutOfMemory) }
{
    let mut out = Vec::new(alloc);
    put_byte(&mut out, b's')?;
    put_rows(&mut out, &Entries, texts)?;
    Ok(out)
}

ghost use Rattle.std.specs.Prelude.{◌≡◌, ◌<◌, ◌^◌, length, All, ◌∷◌, ◌++◌, IfOk, IfErr, if◌then◌else◌};
ghost use Rattle.ti_jdwp.specs.Bodies.{list};
ghost use Rattle.ti_jdwp.specs.Fields.{int, long};
ghost use Rattle.ti_jdwp.specs.Ids.{id_from, first_text};
ghost use Rattle.ti_jdwp.specs.Variables.{variable_row, variable_list, generic_variable_row, generic_variable_list, value_bytes, value_list, entry_list};
ghost use Rattle.ti_jdwp.specs.declared.error.JdwpError.TheVariants.{OutOfMemory};
