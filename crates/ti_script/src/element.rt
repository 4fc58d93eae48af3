//! Reads single elements of a document: numbers, names and words.

use crate::head::are_texts;
use crate::item::Spot;
use crate::located::LocatedFault;
use crate::names::Cast;
use crate::tree::array_in;
use serde_json::Value;
use ti_types::{Caps, Kind, MethodNo, ThreadNo};

/// A whole number from 0 to 2^32 - 1.
pub(crate) fn u32_in(value: &Value) -> Option<u32>
    ensures { result ≡ u32_in (view value.now) }
{
    let number = value.as_u64()?;
    if number < 4294967296 {
        Some(number as u32)
    } else {
        None
    }
}

/// A whole number from -2^31 to 2^31 - 1.
pub(crate) fn i32_in(value: &Value) -> Option<i32>
    ensures { result ≡ i32_in (view value.now) }
{
    let number = value.as_i64()?;
    if -2147483648 <= number && number <= 2147483647 {
        Some(number as i32)
    } else {
        None
    }
}

/// The kind of block that this word means.
pub(crate) fn kind_named(text: &str) -> Option<Kind>
    ensures { result ≡ kind_named text.now }
{
    match text {
        "monitor" => Some(Kind::MonitorEnter),
        "wait" => Some(Kind::ObjectWait),
        "timed_wait" => Some(Kind::TimedWait),
        "sleep" => Some(Kind::Sleep),
        "park" => Some(Kind::Park),
        "timed_park" => Some(Kind::TimedPark),
        _ => None,
    }
}

/// The capability of this name.
fn cap_named(text: &str) -> Option<Caps>
    ensures { result ≡ cap_named text.now }
{
    match text {
        "can_suspend" => Some(Caps::CAN_SUSPEND),
        "can_pop_frame" => Some(Caps::CAN_POP_FRAME),
        "can_tag_objects" => Some(Caps::CAN_TAG_OBJECTS),
        _ => None,
    }
}

/// A thread, by its name or as a number of 32 bits. `Name` for a text that names no thread, and `Shape` for other values.
pub(crate) fn thread_in(cast: &Cast, spot: Spot, value: &Value) -> Result<ThreadNo, LocatedFault>
    ensures { result ≡ given cast.now spot thread (view value.now) }
{
    if let Some(text) = value.as_str() {
        return match cast.threads.number(text) {
            Some(number) => Ok(ThreadNo(number)),
            None => Err(spot.name()),
        };
    }
    match u32_in(value) {
        Some(number) => Ok(ThreadNo(number)),
        None => Err(spot.shape()),
    }
}

/// A method, by its name. `Shape` if it is no text, and `Name` if no method has this name.
pub(crate) fn method_in(cast: &Cast, spot: Spot, value: &Value) -> Result<MethodNo, LocatedFault>
    ensures { result ≡ given cast.now spot method (view value.now) }
{
    let Some(text) = value.as_str() else {
        return Err(spot.shape());
    };
    match cast.methods.number(text) {
        Some(number) => Ok(MethodNo(number)),
        None => Err(spot.name()),
    }
}

/// A kind of block. `Shape` if it is no text, or if there is no such kind.
pub(crate) fn kind_in(cast: &Cast, spot: Spot, value: &Value) -> Result<Kind, LocatedFault>
    ensures { result ≡ given cast.now spot kind (view value.now) }
{
    let _ = cast;
    let Some(text) = value.as_str() else {
        return Err(spot.shape());
    };
    kind_named(text).ok_or(spot.shape())
}

/// A whole number from 0 to 2^32 - 1. `Shape` for other values.
pub(crate) fn number_in(spot: Spot, value: &Value) -> Result<u32, LocatedFault>
    ensures { result ≡ ok_or (u32_in (view value.now)) (shape_at spot) }
{
    u32_in(value).ok_or(spot.shape())
}

/// A whole number from -2^31 to 2^31 - 1. `Shape` for other values.
pub(crate) fn signed_in(spot: Spot, value: &Value) -> Result<i32, LocatedFault>
    ensures { result ≡ ok_or (i32_in (view value.now)) (shape_at spot) }
{
    i32_in(value).ok_or(spot.shape())
}

/// A whole number from 0 to 2^64 - 1. `Shape` for other values.
pub(crate) fn word_in(cast: &Cast, spot: Spot, value: &Value) -> Result<u64, LocatedFault>
    ensures { result ≡ given cast.now spot word (view value.now) }
{
    let _ = cast;
    value.as_u64().ok_or(spot.shape())
}

/// The capabilities of these names. `Shape` if one is no text, and then `Name` if one is no capability.
#[tactic(auto, using(crate::proofs::TreeLaws::list_all_views))]
fn caps_in(cast: &Cast, spot: Spot, values: &[Value]) -> Result<Caps, LocatedFault>
    ensures { result ≡ caps_in cast.now spot (map view values.now) }
{
    let _ = cast;
    if !are_texts(values) {
        return Err(spot.shape());
    }
    caps_named(values).ok_or(spot.name())
}

/// The capabilities of these names, or `None` if one of them is no capability.
fn caps_named(values: &[Value]) -> Option<Caps>
    ensures { result ≡ caps_named no_caps (map text_in (map view values.now)) }
{
    let mut caps = Caps::none();
    for value in values {
        let cap = cap_named(value.as_str().unwrap_or(""))?;
        caps = caps.add(cap);
    }
    Some(caps)
}

/// An array of capabilities. `Shape` if it is no array of texts, and then `Name` if one of them is no capability.
pub(crate) fn caps_of(cast: &Cast, spot: Spot, value: &Value) -> Result<Caps, LocatedFault>
    ensures { result ≡ given cast.now spot caps (view value.now) }
{
    let Some(values) = array_in(value) else {
        return Err(spot.shape());
    };
    caps_in(cast, spot, values)
}

ghost use Rattle.std.specs.Prelude.{◌≡◌, map};
ghost use Rattle.serde_json.specs.View.{view};
ghost use Rattle.ti_types.specs.Caps.{no_caps};
ghost use Rattle.std.specs.Option.{ok_or};
ghost use Rattle.ti_script.specs.Spots.{shape_at};
ghost use Rattle.ti_script.specs.Head.{text_in};
ghost use Rattle.ti_script.specs.Events.{thread, method, kind, number, signed, word, caps, given, u32_in, i32_in, kind_named, cap_named, caps_named, caps_in};
