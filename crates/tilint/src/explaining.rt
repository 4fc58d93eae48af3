//! Explains a document's first fault.

use crate::explanation::Explanation;
use crate::head::{of_other_kind, out_of_range, wrong_document, wrong_member};
use crate::items::item_words;
use crate::kind::Kind;
use crate::names::wrong_names;
use crate::place::Place;
use crate::tree::{elements, listed_in};
use serde_json::Value;
use std::alloc::{AllocError, Global};
use ti_script::{LocatedFault, MemberName, Part};

/// The list, and the place in it, of the item of this number, counted from 0 over all lists. If there are fewer items, it is
/// behind the last list.
fn found_in(lists: &[Value], number: usize) -> (usize, usize)
    ensures { count_in_all (take result.0 (map view lists.now)) + result.1 ≡ number }
{
    let mut left = number;
    for (list, value) in lists.iter().enumerate() {
        let here = elements(value).len();
        if left < here {
            return (list, left);
        }
        left -= here;
    }
    (lists.len(), left)
}

/// The item of this number, counted from 0, of a live script.
#[tactic(auto, using(crate::proofs::ItemLaws::taken))]
fn live_item(tree: &Value, number: usize, element: Option<usize>) -> Place
    ensures { item_at (view tree.now) result ≡ number + 1 }
{
    let walks = listed_in(tree, "walks");
    let (list, left) = found_in(walks, number);
    if list < walks.len() {
        return Place {
            member: Some(MemberName::Walks),
            first: Some(list),
            second: Some(left),
            third: element,
        };
    }
    let (list, left) = found_in(listed_in(tree, "calls"), left);
    Place {
        member: Some(MemberName::Calls),
        first: Some(list),
        second: Some(left),
        third: element,
    }
}

/// The item of this number, counted from 0, or an element of it.
fn item_place(kind: Kind, tree: &Value, number: usize, element: Option<usize>) -> Place
    ensures { item_at (view tree.now) result ≡ number + 1 }
{
    match kind {
        Kind::Live => live_item(tree, number, element),
        Kind::Walk => Place {
            member: Some(MemberName::Events),
            first: Some(number),
            second: element,
            third: None,
        },
        Kind::History => Place {
            member: Some(MemberName::Entries),
            first: Some(number),
            second: element,
            third: None,
        },
    }
}

/// The element that is at fault, if it is a single one.
fn element_in(part: Part) -> Option<usize> {
    match part {
        Part::Element(place) => Some(place as usize),
        _ => None,
    }
}

/// Explains a fault of the item of this number, counted from 1.
fn explain_item(
    alloc: Global,
    kind: Kind,
    tree: &Value,
    item: u32,
    part: Part,
) -> Result<Explanation, AllocError>
    requires { 1 ≤ item }
    ensures { IfOk result (λ x. item_at (view tree.now) x.place ≡ item) }
{
    let number = item as usize - 1;
    let element = element_in(part);
    let whole = item_place(kind, tree, number, None);
    let words = item_words(alloc, kind, tree, &whole, element)?;
    Ok(Explanation::at(item_place(kind, tree, number, element), words))
}

/// Explains a wrong shape of the head.
fn explain_shape(
    alloc: Global,
    kind: Kind,
    tree: &Value,
    part: Part,
) -> Result<Explanation, AllocError>
    ensures { IfOk result (λ x. item_at (view tree.now) x.place ≡ 0) }
{
    if let Some(explanation) = of_other_kind(alloc, kind, tree)? {
        return Ok(explanation);
    }
    match part {
        Part::Member(member) => wrong_member(alloc, kind, tree, member),
        _ => wrong_document(alloc, kind, tree),
    }
}

/// Explains the first fault of a document that is JSON, by its tree: where it is, what stands there, and what may stand
/// there. The place is in the item of the fault. No clause speaks of the words.
pub fn explain(
    alloc: Global,
    kind: Kind,
    tree: &Value,
    fault: &LocatedFault,
) -> Result<Explanation, AllocError>
    ensures item { IfOk result (λ x. item_at (view tree.now) x.place ≡ item_in fault.now) }
{
    match fault {
        LocatedFault::Shape { item: 0, part } => explain_shape(alloc, kind, tree, *part),
        LocatedFault::Name {
            item: 0,
            part: Part::Member(member),
        } => wrong_names(alloc, tree, *member),
        LocatedFault::Name { item: 0, .. } => wrong_document(alloc, kind, tree),
        LocatedFault::Shape { item, part } => explain_item(alloc, kind, tree, *item, *part),
        LocatedFault::Name { item, part } => explain_item(alloc, kind, tree, *item, *part),
        LocatedFault::Limit { which } => out_of_range(alloc, kind, tree, *which),
        LocatedFault::Json => Explanation::fixed(alloc, Place::document(), "this is no JSON"),
        LocatedFault::Memory => Explanation::fixed(alloc, Place::document(), "no memory"),
    }
}

ghost use Rattle.std.specs.Prelude.{◌≡◌, ◌≤◌, ◌+◌, map, take, IfOk};
ghost use Rattle.serde_json.specs.View.{view};
ghost use Rattle.ti_script.specs.Lives.{count_in_all};
ghost use Rattle.tilint.specs.Places.{item_at, item_in};
