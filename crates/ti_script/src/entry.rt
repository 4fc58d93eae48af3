//! Reads an entry of a history.

use crate::element::{kind_named, number_in, signed_in, u32_in};
use crate::item::{Item, Spot};
use crate::located::LocatedFault;
use crate::tree::array_in;
use serde_json::Value;
use ti_types::{Call, Entry, EnvNo, MethodNo, Safe, Step};

fn env_in(value: &Value) -> Option<EnvNo>
    ensures { result ≡ env_in (view value.now) }
{
    Some(EnvNo(u32_in(value)?))
}

fn number_of_method(value: &Value) -> Option<MethodNo>
    ensures { result ≡ number_of_method (view value.now) }
{
    Some(MethodNo(u32_in(value)?))
}

fn safe_named(text: &str) -> Option<Safe>
    ensures { result ≡ safe_named text.now }
{
    match text {
        "native" => Some(Safe::Native),
        "poll" => Some(Safe::AtPoll),
        _ => Some(Safe::Blocked(kind_named(text)?)),
    }
}

fn safe_in(value: &Value) -> Option<Safe>
    ensures { result ≡ safe_in (view value.now) }
{
    safe_named(value.as_str()?)
}

/// The environment that an element means. `Shape` if it is no whole number of 32 bits.
fn env_at(spot: Spot, value: &Value) -> Result<EnvNo, LocatedFault>
    ensures { result ≡ ok_or (env_in (view value.now)) (shape_at spot) }
{
    env_in(value).ok_or(spot.shape())
}

/// The method that an element means. `Shape` if it is no whole number of 32 bits.
fn method_at(spot: Spot, value: &Value) -> Result<MethodNo, LocatedFault>
    ensures { result ≡ ok_or (number_of_method (view value.now)) (shape_at spot) }
{
    number_of_method(value).ok_or(spot.shape())
}

/// An entry with nothing after its word.
fn plain_entry(item: Item, entry: Entry, rest: &[Value]) -> Result<Entry, LocatedFault>
    ensures { result ≡ none item entry (map view rest.now) }
{
    match rest {
        [] => Ok(entry),
        _ => Err(item.shape()),
    }
}

fn enter_entry(item: Item, rest: &[Value]) -> Result<Entry, LocatedFault>
    ensures { result ≡ one item 1 number_of_method (λ m. Own (Enter m)) (map view rest.now) }
{
    match rest {
        [method] => {
            let method = method_at(item.behind_word(1), method)?;
            Ok(Entry::Own(Step::Enter(method)))
        }
        _ => Err(item.shape()),
    }
}

fn enter_native_entry(item: Item, rest: &[Value]) -> Result<Entry, LocatedFault>
    ensures { result ≡ one item 1 number_of_method (λ m. Own (EnterNative m)) (map view rest.now) }
{
    match rest {
        [method] => {
            let method = method_at(item.behind_word(1), method)?;
            Ok(Entry::Own(Step::EnterNative(method)))
        }
        _ => Err(item.shape()),
    }
}

fn at_entry(item: Item, rest: &[Value]) -> Result<Entry, LocatedFault>
    ensures { result ≡ one item 1 u32_in (λ p. Own (At p)) (map view rest.now) }
{
    match rest {
        [place] => {
            let place = number_in(item.behind_word(1), place)?;
            Ok(Entry::Own(Step::At(place)))
        }
        _ => Err(item.shape()),
    }
}

fn hand_entry(item: Item, rest: &[Value]) -> Result<Entry, LocatedFault>
    ensures { result ≡ one item 1 safe_in Hand (map view rest.now) }
{
    match rest {
        [safe] => {
            let safe = safe_in(safe).ok_or(item.behind_word(1).shape())?;
            Ok(Entry::Hand(safe))
        }
        _ => Err(item.shape()),
    }
}

/// An entry of the thread itself. `None` if the word is none of these.
fn own_entry(item: Item, text: &str, rest: &[Value]) -> Option<Result<Entry, LocatedFault>>
    ensures { result ≡ by_table (own_table item) text.now (map view rest.now) }
{
    match text {
        "start" => Some(plain_entry(item, Entry::Start, rest)),
        "back" => Some(plain_entry(item, Entry::Back, rest)),
        "end" => Some(plain_entry(item, Entry::End, rest)),
        "enter" => Some(enter_entry(item, rest)),
        "enter_native" => Some(enter_native_entry(item, rest)),
        "at" => Some(at_entry(item, rest)),
        "leave" => Some(plain_entry(item, Entry::Own(Step::Leave), rest)),
        "hand" => Some(hand_entry(item, rest)),
        _ => None,
    }
}

/// A call with nothing after its word.
fn plain_call(item: Item, call: Call, rest: &[Value]) -> Result<Call, LocatedFault>
    ensures { result ≡ none item call (map view rest.now) }
{
    match rest {
        [] => Ok(call),
        _ => Err(item.shape()),
    }
}

fn trace_call(item: Item, rest: &[Value]) -> Result<Call, LocatedFault>
    ensures { result ≡ two item 4 i32_in i32_in Trace (map view rest.now) }
{
    match rest {
        [start, max_count] => {
            let start = signed_in(item.behind_word(4), start)?;
            let max_count = signed_in(item.behind_word(5), max_count)?;
            Ok(Call::Trace { start, max_count })
        }
        _ => Err(item.shape()),
    }
}

fn location_call(item: Item, rest: &[Value]) -> Result<Call, LocatedFault>
    ensures { result ≡ one item 4 i32_in Location (map view rest.now) }
{
    match rest {
        [depth] => {
            let depth = signed_in(item.behind_word(4), depth)?;
            Ok(Call::Location { depth })
        }
        _ => Err(item.shape()),
    }
}

fn set_call(item: Item, rest: &[Value]) -> Result<Call, LocatedFault>
    ensures { result ≡ one item 4 whole_in SetWord (map view rest.now) }
{
    match rest {
        [word] => {
            let word = word.as_u64().ok_or(item.behind_word(4).shape())?;
            Ok(Call::SetWord(word))
        }
        _ => Err(item.shape()),
    }
}

/// A call of both formats. `None` if the word is none of these.
fn call_of(item: Item, text: &str, rest: &[Value]) -> Option<Result<Call, LocatedFault>>
    ensures { result ≡ by_table (call_table item) text.now (map view rest.now) }
{
    match text {
        "state" => Some(plain_call(item, Call::State, rest)),
        "count" => Some(plain_call(item, Call::FrameCount, rest)),
        "trace" => Some(trace_call(item, rest)),
        "location" => Some(location_call(item, rest)),
        "suspend" => Some(plain_call(item, Call::Suspend, rest)),
        "resume" => Some(plain_call(item, Call::Resume, rest)),
        "get" => Some(plain_call(item, Call::GetWord, rest)),
        "set" => Some(set_call(item, rest)),
        _ => None,
    }
}

/// A call of format 2 alone. `None` if the word is none of these.
fn later_call_of(item: Item, text: &str, rest: &[Value]) -> Option<Result<Call, LocatedFault>>
    ensures { result ≡ by_table (later_call_table item) text.now (map view rest.now) }
{
    match text {
        "pop" => Some(plain_call(item, Call::Pop, rest)),
        _ => None,
    }
}

/// A call in a document of this format. `None` if the format has no such word.
fn call_of_format(
    format: u64,
    item: Item,
    text: &str,
    rest: &[Value],
) -> Option<Result<Call, LocatedFault>>
    ensures { result ≡ option_or (by_table (call_table item) text.now (map view rest.now)) (if format == 2 then by_table (later_call_table item) text.now (map view rest.now) else None) }
{
    match call_of(item, text, rest) {
        Some(call) => Some(call),
        None => if format == 2 {
            later_call_of(item, text, rest)
        } else {
            None
        },
    }
}

/// A call in a document of this format. `Shape` if the format has no such word.
fn call_in(format: u64, item: Item, text: &str, rest: &[Value]) -> Result<Call, LocatedFault>
    ensures { result ≡ call_in item format text.now (map view rest.now) }
{
    match call_of_format(format, item, text, rest) {
        Some(call) => call,
        None => Err(item.behind_word(3).shape()),
    }
}

/// What comes after `asked`: an environment, the number of its call, and the call.
fn asked(format: u64, item: Item, rest: &[Value]) -> Result<Entry, LocatedFault>
    ensures { result ≡ asked item format (map view rest.now) }
{
    let [env, number, text, rest @ ..] = rest else {
        return Err(item.shape());
    };
    let env = env_at(item.behind_word(1), env)?;
    let number = number_in(item.behind_word(2), number)?;
    let Some(text) = text.as_str() else {
        return Err(item.behind_word(3).shape());
    };
    let call = call_in(format, item, text, rest)?;
    Ok(Entry::Asked(env, u64::from(number), call))
}

fn stop_entry(item: Item, rest: &[Value]) -> Result<Entry, LocatedFault>
    ensures { result ≡ one item 1 env_in Stop (map view rest.now) }
{
    match rest {
        [env] => Ok(Entry::Stop(env_at(item.behind_word(1), env)?)),
        _ => Err(item.shape()),
    }
}

fn read_entry(item: Item, rest: &[Value]) -> Result<Entry, LocatedFault>
    ensures { result ≡ two item 1 env_in i32_in Read (map view rest.now) }
{
    match rest {
        [env, max_count] => {
            let env = env_at(item.behind_word(1), env)?;
            let max_count = signed_in(item.behind_word(2), max_count)?;
            Ok(Entry::Read(env, max_count))
        }
        _ => Err(item.shape()),
    }
}

fn go_entry(item: Item, rest: &[Value]) -> Result<Entry, LocatedFault>
    ensures { result ≡ one item 1 env_in Go (map view rest.now) }
{
    match rest {
        [env] => Ok(Entry::Go(env_at(item.behind_word(1), env)?)),
        _ => Err(item.shape()),
    }
}

/// An entry of an environment. `None` if the word is none of these.
fn environment_entry(
    format: u64,
    item: Item,
    text: &str,
    rest: &[Value],
) -> Option<Result<Entry, LocatedFault>>
    ensures { result ≡ by_table (environment_table item format) text.now (map view rest.now) }
{
    match text {
        "asked" => Some(asked(format, item, rest)),
        "stop" => Some(stop_entry(item, rest)),
        "read" => Some(read_entry(item, rest)),
        "go" => Some(go_entry(item, rest)),
        _ => None,
    }
}

/// An entry of the thread itself or of an environment. `None` if the word is none of these.
fn word_entry(
    format: u64,
    item: Item,
    text: &str,
    rest: &[Value],
) -> Option<Result<Entry, LocatedFault>>
    ensures { result ≡ option_or (by_table (own_table item) text.now (map view rest.now)) (by_table (environment_table item format) text.now (map view rest.now)) }
{
    match own_entry(item, text, rest) {
        Some(entry) => Some(entry),
        None => environment_entry(format, item, text, rest),
    }
}

/// The entry in the item of this number, in a document of this format.
pub(crate) fn entry_in(format: u64, number: u32, value: &Value) -> Result<Entry, LocatedFault>
    ensures { result ≡ entry_in format number (view value.now) }
{
    let item = Item::of_list(number);
    let Some([word, rest @ ..]) = array_in(value) else {
        return Err(item.shape());
    };
    let Some(word) = word.as_str() else {
        return Err(item.word().shape());
    };
    match word_entry(format, item, word, rest) {
        Some(entry) => entry,
        None => Err(item.word().shape()),
    }
}

ghost use Rattle.std.specs.Prelude.{◌≡◌, ◌==◌, map, None, if◌then◌else◌};
ghost use Rattle.std.specs.Option.{ok_or, option_or};
ghost use Rattle.serde_json.specs.View.{view};
ghost use Rattle.ti_types.specs.declared.step.Step.TheVariants.{Enter, EnterNative, At};
ghost use Rattle.ti_types.specs.declared.call.Call.TheVariants.{Trace, Location, SetWord};
ghost use Rattle.ti_types.specs.declared.entry.Entry.TheVariants.{Own, Hand, Stop, Read, Go};
ghost use Rattle.ti_script.specs.Spots.{shape_at};
ghost use Rattle.ti_script.specs.Tree.{whole_in};
ghost use Rattle.ti_script.specs.Events.{u32_in, i32_in};
ghost use Rattle.ti_script.specs.Entries.{none, one, two, env_in, number_of_method, safe_named, safe_in, asked, by_table, own_table, call_table, later_call_table, call_in, environment_table, entry_in};
