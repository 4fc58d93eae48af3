//! The texts and the functions of a profile.

use crate::messages::push_function;
use crate::names::{About, Function, Names, Unit};
use crate::texts::Texts;
use crate::wire::push_block;
use std::alloc::{AllocError, Global};

/// Adds the words that each profile has. The error is lack of memory.
fn add_common_words(texts: &mut Texts<'_>) -> Result<(), AllocError>
    ensures { OnOk result (strings_in texts.new ≡ fold with_string (strings_in texts.old) common_words) }
{
    texts.add("")?;
    texts.add("samples")?;
    texts.add("count")?;
    texts.add("wall")?;
    texts.add("nanoseconds")?;
    texts.add("thread")?;
    texts.add("state")?;
    texts.add("(no frames)")?;
    texts.add("(no room)")?;
    texts.add("(unknown)")?;
    Ok(())
}

/// Adds the words that a profile with this unit has besides. The error is lack of memory.
fn add_unit_words(texts: &mut Texts<'_>, unit: Unit) -> Result<(), AllocError>
    ensures { OnOk result (strings_in texts.new ≡ fold with_string (strings_in texts.old) (unit_words unit)) }
{
    match unit {
        Unit::Wall { .. } => Ok(()),
        Unit::Threads => texts.add("threads"),
    }
}

/// Adds the words that a profile with this unit has. The error is lack of memory.
fn add_words(texts: &mut Texts<'_>, unit: Unit) -> Result<(), AllocError>
    ensures { OnOk result (strings_in texts.new ≡ fold with_string (strings_in texts.old) (words unit)) }
{
    add_common_words(texts)?;
    add_unit_words(texts, unit)?;
    Ok(())
}

/// Adds the texts of a list. The error is lack of memory.
fn add_list<'t>(texts: &mut Texts<'t>, list: &'t [String]) -> Result<(), AllocError>
    ensures { OnOk result (strings_in texts.new ≡ fold with_string (strings_in texts.old) (map string_bytes list.now)) }
{
    for text in list {
        texts.add(text.as_str())?;
    }
    Ok(())
}

/// Adds the names and files of functions. The error is lack of memory.
fn add_functions<'t>(texts: &mut Texts<'t>, functions: &'t [Function]) -> Result<(), AllocError>
    ensures { OnOk result (strings_in texts.new ≡ fold with_string (strings_in texts.old) (flat_map texts_of_function functions.now)) }
{
    for function in functions {
        texts.add(function.name.as_str())?;
        texts.add(function.file.as_str())?;
    }
    Ok(())
}

/// Adds the texts of a profile, in the order of their first use. The error is lack of memory.
fn add_texts<'t>(
    texts: &mut Texts<'t>,
    about: &'t About,
    names: &'t Names,
) -> Result<(), AllocError>
    ensures { OnOk result (strings_in texts.new ≡ fold with_string (strings_in texts.old) (texts_of about.now names.now)) }
{
    add_words(texts, about.unit)?;
    texts.add(about.program.as_str())?;
    add_functions(texts, &names.functions)?;
    add_list(texts, &names.threads)?;
    add_list(texts, &names.states)?;
    add_list(texts, &about.comments)?;
    Ok(())
}

/// The texts of a profile, each once. The error is lack of memory.
pub(crate) fn texts_of<'t>(
    alloc: Global,
    about: &'t About,
    names: &'t Names,
) -> Result<Texts<'t>, AllocError>
    ensures { IfOk result (λ t. strings_in t ≡ strings_of (texts_of about.now names.now)) }
{
    let mut texts = Texts::new(alloc);
    add_texts(&mut texts, about, names)?;
    Ok(texts)
}

/// The numbers of the texts of a list. The error is lack of memory.
pub(crate) fn numbers_of(
    alloc: Global,
    texts: &Texts<'_>,
    list: &[String],
) -> Result<Vec<u64>, AllocError>
    ensures { IfOk result (λ n. n.items ≡ map (number_of (strings_in texts.now)) (map string_bytes list.now)) }
{
    let mut numbers = Vec::new(alloc);
    for text in list {
        numbers.push(texts.number(text.as_str()))?;
    }
    Ok(numbers)
}

/// Appends the functions that have names. Their first id is 4. The error is lack of memory.
fn push_named(
    out: &mut Vec<u8>,
    texts: &Texts<'_>,
    functions: &[Function],
) -> Result<(), AllocError>
    requires { length functions.now < 2 ^ 63 }
    ensures { OnOk result (out.new.items ≡ out.old.items ++ functions_from (strings_in texts.now) 4 functions.now) }
{
    let mut id = 4;
    for function in functions {
        push_function(
            out,
            texts,
            id,
            function.name.as_str(),
            function.file.as_str(),
            function.start_line,
        )?;
        id += 1;
    }
    Ok(())
}

/// Appends all functions: one for no frames, one for no room, one for frames whose function has no name, and those that have
/// names. The error is lack of memory.
pub(crate) fn push_functions(
    out: &mut Vec<u8>,
    texts: &Texts<'_>,
    functions: &Vec<Function>,
) -> Result<(), AllocError>
    ensures { OnOk result (out.new.items ≡ out.old.items ++ function_fields (strings_in texts.now) functions.now.items) }
{
    push_function(out, texts, 1, "(no frames)", "", 0)?;
    push_function(out, texts, 2, "(no room)", "", 0)?;
    push_function(out, texts, 3, "(unknown)", "", 0)?;
    push_named(out, texts, functions.as_slice())
}

/// Appends the table of strings. The error is lack of memory.
pub(crate) fn push_strings(out: &mut Vec<u8>, texts: &Texts<'_>) -> Result<(), AllocError>
    ensures { OnOk result (out.new.items ≡ out.old.items ++ string_fields (strings_in texts.now)) }
{
    push_texts(out, texts.strings())
}

/// Appends these texts, one behind the other. The error is lack of memory.
fn push_texts(out: &mut Vec<u8>, texts: &[&str]) -> Result<(), AllocError>
    ensures { OnOk result (out.new.items ≡ out.old.items ++ string_fields (map (λ s. s.now) texts.now)) }
{
    for text in texts {
        push_block(out, 6, text.as_bytes())?;
    }
    Ok(())
}

ghost use Rattle.std.specs.Prelude.{◌≡◌, ◌<◌, ◌^◌, ◌++◌, fold, length, map, OnOk, IfOk};
ghost use Rattle.std.specs.List.{flat_map};
ghost use Rattle.std.specs.String.{string_bytes};
ghost use Rattle.ti_pprof.specs.Units.{unit_words};
ghost use Rattle.ti_pprof.specs.Profile.{common_words, function_fields, functions_from, string_fields, texts_of, texts_of_function, words};
ghost use Rattle.ti_pprof.specs.Strings.{number_of, strings_in, strings_of, with_string};
