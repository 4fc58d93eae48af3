//! How an answer of the runtime is read.

use crate::asked::{Named, Row};
use crate::bytes::Bytes;
use crate::objects::Object;
use crate::question::{Content, TellError, Told, Variable};
use std::alloc::Global;
use ti_jdwp::Value;

/// How many texts and tables are kept at most.
pub(crate) const MOST: usize = 65_536;

/// How many numbers they have.
const NUMBERS: usize = 4_294_967_296;

/// A variable with its name. The error is lack of memory.
fn named_as(alloc: Global, variable: Variable, name: &[u8]) -> Result<Named, TellError>
    ensures ok { IfOk result (λ n. n ≡ named variable name.now) }
    ensures memory { IfErr result (λ e. e ≡ OutOfMemory) }
{
    Ok(Named {
        slot: variable.slot,
        first: variable.first,
        count: variable.count,
        name: Bytes::from_slice(alloc, name)?,
    })
}

/// Whether a name of so many bytes comes next, in UTF-8.
fn is_name(bytes: &[u8], count: usize) -> bool
    ensures { result ≡ is_name count bytes.now }
{
    if count > bytes.len() {
        return false;
    }
    match str::from_utf8(&bytes[..count]) {
        Ok(_) => true,
        Err(_) => false,
    }
}

/// The bytes behind so many. None if there are fewer.
fn behind(bytes: &[u8], count: usize) -> &[u8]
    ensures { result.now ≡ drop count bytes.now }
{
    if count <= bytes.len() {
        &bytes[count..]
    } else {
        &[]
    }
}

/// The variables with their names, which stand one behind the other.
///
/// - 103: the lengths do not add up, or a name is not UTF-8.
/// - 110: there is no memory.
pub(crate) fn named_in(
    alloc: Global,
    variables: &[Variable],
    names: &[u8],
) -> Result<Vec<Named>, TellError>
    ensures told { IfOk result (λ v. named_in variables.now names.now ≡ Some v.items) }
    ensures refused { IfErr result (λ e. (e ≡ OutOfMemory) ⊎ ((e ≡ IllegalArgument) × (named_in variables.now names.now ≡ None))) }
{
    let mut all = Vec::new(alloc);
    let mut rest = names;
    for variable in variables {
        let length = variable.name_length as usize;
        if !is_name(rest, length) {
            return Err(TellError::IllegalArgument);
        }
        let one = named_as(alloc, *variable, &rest[..length])?;
        all.reserve(1)?;
        all.push_reserved(one);
        rest = behind(rest, length);
    }
    if rest.is_empty() {
        Ok(all)
    } else {
        Err(TellError::IllegalArgument)
    }
}

/// What was read of an answer.
#[derive(Drop)]
pub(crate) struct Taken {
    pub(crate) rows: Vec<Row>,
    pub(crate) objects: Vec<Object>,
    /// How many entries of the last table are to come.
    pub(crate) left: usize,
}

impl Taken {
    fn new(alloc: Global) -> Taken
        ensures rows { result.rows.items ≡ [] }
        ensures objects { result.objects.items ≡ [] }
        ensures left { result.left ≡ 0 }
    {
        Taken {
            rows: Vec::new(alloc),
            objects: Vec::new(alloc),
            left: 0,
        }
    }

    /// Adds the value of a variable. The error is lack of memory.
    fn row(&mut self, slot: u32, value: Value) -> Result<(), TellError>
        ensures rows { OnOk result (self.new.rows.items ≡ self.old.rows.items ++ record { slot = slot; value = value } ∷ []) }
        ensures rest { OnOk result (self.new ≡ record self.old { rows = self.new.rows }) }
        ensures memory { IfErr result (λ e. e ≡ OutOfMemory) }
    {
        self.rows.reserve(1)?;
        self.rows.push_reserved(Row { slot, value });
        Ok(())
    }

    /// Adds a text or a table, and gives its number, behind those that were given. 110 if there is no memory, no room or no number.
    fn object(&mut self, given: usize, object: Object) -> Result<u32, TellError>
        ensures number { IfOk result (λ n. n ≡ given + length self.old.objects.items) }
        ensures objects { OnOk result (self.new.objects.items ≡ self.old.objects.items ++ object ∷ []) }
        ensures rest { OnOk result (self.new ≡ record self.old { objects = self.new.objects }) }
        ensures memory { IfErr result (λ e. e ≡ OutOfMemory) }
    {
        if self.objects.len() >= MOST || given >= NUMBERS - self.objects.len() {
            return Err(TellError::OutOfMemory);
        }
        let number = (given + self.objects.len()) as u32;
        self.objects.reserve(1)?;
        self.objects.push_reserved(object);
        Ok(number)
    }

    /// Reads a value that is neither a text nor a table.
    fn plain(&mut self, slot: u32, value: Value) -> Result<usize, TellError>
        ensures ok { IfOk result (λ used. (used ≡ 0) × (self.old.left ≡ 0)) }
        ensures rows { OnOk result (self.new.rows.items ≡ self.old.rows.items ++ record { slot = slot; value = value } ∷ []) }
        ensures rest { OnOk result (self.new ≡ record self.old { rows = self.new.rows }) }
        ensures refused { IfErr result (λ e. (e ≡ OutOfMemory) ⊎ ((e ≡ IllegalArgument) × (0 < self.old.left))) }
    {
        if self.left > 0 {
            return Err(TellError::IllegalArgument);
        }
        self.row(slot, value)?;
        Ok(0)
    }

    /// Reads a text of so many bytes.
    fn text(
        &mut self,
        alloc: Global,
        given: usize,
        slot: u32,
        texts: &[u8],
        count: usize,
    ) -> Result<usize, TellError>
        ensures { Reads given slot (Text count) texts.now self.old self.new result }
    {
        if self.left > 0 || count > texts.len() {
            return Err(TellError::IllegalArgument);
        }
        let text = Bytes::from_slice(alloc, &texts[..count])?;
        let number = self.object(given, Object::Text(text))?;
        self.row(slot, Value::Text(number))?;
        Ok(count)
    }

    /// Reads a table of so many entries, which are to come.
    fn table(&mut self, given: usize, slot: u32, count: usize) -> Result<usize, TellError>
        ensures { (texts : List ℕ) → Reads given slot (Table count) texts self.old self.new result }
    {
        if self.left > 0 {
            return Err(TellError::IllegalArgument);
        }
        if count > MOST {
            return Err(TellError::OutOfMemory);
        }
        let number = self.object(given, Object::Table(count as u32))?;
        self.row(slot, Value::Table(number))?;
        self.left = count;
        Ok(0)
    }

    /// Reads an entry of so many bytes.
    fn entry(
        &mut self,
        alloc: Global,
        given: usize,
        texts: &[u8],
        count: usize,
    ) -> Result<usize, TellError>
        ensures { (slot : ℕ) → Reads given slot (Entry count) texts.now self.old self.new result }
    {
        if self.left == 0 || count > texts.len() {
            return Err(TellError::IllegalArgument);
        }
        let text = Bytes::from_slice(alloc, &texts[..count])?;
        let _its_place_is_known = self.object(given, Object::Text(text))?;
        self.left -= 1;
        Ok(count)
    }

    /// Whether each table has its entries, and no bytes are left.
    fn is_whole(&self, rest: &[u8]) -> bool
        ensures { result ≡ is_whole (reading_of self.now rest.now) }
    {
        self.left == 0 && rest.is_empty()
    }

    /// Reads one value, whose texts come next, and gives how many bytes they have. So many numbers of texts and tables were given.
    ///
    /// - 103: entries are to come and this is none, or none is to come and this is one, or fewer bytes are there.
    /// - 110: there is no memory, or no room.
    fn take(
        &mut self,
        alloc: Global,
        given: usize,
        told: Told,
        texts: &[u8],
    ) -> Result<usize, TellError>
        ensures { Reads given told.slot told.content texts.now self.old self.new result }
    {
        match told.content {
            Content::Nil => self.plain(told.slot, Value::Nil),
            Content::Boolean(is) => self.plain(told.slot, Value::Boolean(is)),
            Content::Integer(number) => self.plain(told.slot, Value::Integer(number)),
            Content::Number(bits) => self.plain(told.slot, Value::Number(bits)),
            Content::Text(count) => self.text(alloc, given, told.slot, texts, count),
            Content::Table(count) => self.table(given, told.slot, count),
            Content::Entry(count) => self.entry(alloc, given, texts, count),
        }
    }
}

/// What an answer says, if so many numbers of texts and tables were given.
///
/// - 103: it is not laid out as `Told` says.
/// - 110: there is no memory, or no room.
pub(crate) fn read_answer(
    alloc: Global,
    given: usize,
    values: &[Told],
    texts: &[u8],
) -> Result<Taken, TellError>
    ensures ok { IfOk result (λ t. read_answer given values.now texts.now ≡ Some (reading_of t [])) }
    ensures refused { IfErr result (λ e. (e ≡ OutOfMemory) ⊎ ((e ≡ IllegalArgument) × (read_answer given values.now texts.now ≡ None))) }
{
    let mut taken = Taken::new(alloc);
    let mut rest = texts;
    for told in values {
        let used = match taken.take(alloc, given, *told, rest) {
            Ok(used) => used,
            Err(error) => return Err(error),
        };
        rest = behind(rest, used);
    }
    if taken.is_whole(rest) {
        Ok(taken)
    } else {
        Err(TellError::IllegalArgument)
    }
}

ghost use Rattle.std.specs.Prelude.{◌≡◌, ◌+◌, ◌<◌, ◌⊎◌, ◌∷◌, ◌++◌, [], ℕ, List, drop, length, Some, None, IfOk, IfErr, OnOk};
ghost use Rattle.ti_debugger.specs.Questions.{is_name, is_whole, named, named_in, read_answer};
ghost use Rattle.ti_debugger.specs.Taking.{Reads, reading_of};
ghost use Rattle.ti_debugger.specs.declared.question.Content.TheVariants.{Text, Table, Entry};
ghost use Rattle.ti_debugger.specs.declared.question.TellError.TheVariants.{IllegalArgument, OutOfMemory};
