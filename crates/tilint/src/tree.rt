//! Looks into a document's tree.

use crate::place::Place;
use serde_json::Value;
use std::alloc::{AllocError, Global};
use ti_script::MemberName;

/// The elements of an array. `None` if the value is no array.
#[tactic(auto, using(ti_script::proofs::TreeLaws::array_found))]
fn array_in(value: &Value) -> Option<&[Value]>
    ensures { option_map (λ v. map view v.now) result ≡ array_in (view value.now) }
{
    let array = value.as_array()?;
    Some(array.as_slice())
}

/// The elements of an array. Any other value has none.
pub(crate) fn elements(value: &Value) -> &[Value]
    ensures { map view result.now ≡ elements (view value.now) }
{
    match array_in(value) {
        Some(values) => values,
        None => &[],
    }
}

/// The elements of the array in a member of a document. There are none if it has no such array.
pub(crate) fn listed_in<'a>(tree: &'a Value, member: &str) -> &'a [Value]
    ensures { map view result.now ≡ elements (at member.now (view tree.now)) }
{
    match tree.get(member) {
        Some(value) => elements(value),
        None => &[],
    }
}

/// The value of a member, also of one of `limits`.
pub(crate) fn member_in<'a>(tree: &'a Value, member: MemberName) -> Option<&'a Value> {
    let around = match member {
        MemberName::Depth | MemberName::Own | MemberName::CallLimit => tree.get("limits")?,
        _ => tree,
    };
    around.get(member.key())
}

/// The value at a place, if there is one.
pub(crate) fn value_at<'a>(tree: &'a Value, place: &Place) -> Option<&'a Value> {
    let Some(member) = place.member else {
        return Some(tree);
    };
    let mut value = member_in(tree, member)?;
    for step in [place.first, place.second, place.third] {
        if let Some(number) = step {
            value = elements(value).get(number)?;
        }
    }
    Some(value)
}

/// The texts of the array in a member.
pub(crate) fn texts_in<'a>(
    alloc: Global,
    tree: &'a Value,
    member: &str,
) -> Result<Vec<&'a str>, AllocError> {
    let mut texts = Vec::new(alloc);
    for value in listed_in(tree, member) {
        if let Some(text) = value.as_str() {
            texts.push(text)?;
        }
    }
    Ok(texts)
}

/// The names of an object's members. Any other value has none.
pub(crate) fn keys_of<'a>(alloc: Global, value: &'a Value) -> Result<Vec<&'a str>, AllocError> {
    let mut keys = Vec::new(alloc);
    if let Some(members) = value.as_object() {
        for (key, _member) in members.iter() {
            keys.push(key.as_str())?;
        }
    }
    Ok(keys)
}

/// Whether a member's array has this text.
pub(crate) fn has_text(tree: &Value, member: &str, text: &str) -> bool {
    listed_in(tree, member)
        .iter()
        .any(|value| value.as_str() == Some(text))
}

ghost use Rattle.std.specs.Prelude.{◌≡◌, map, option_map};
ghost use Rattle.serde_json.specs.View.{view};
ghost use Rattle.ti_script.specs.Tree.{at, array_in, elements};
