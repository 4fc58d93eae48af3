//! Reads a document as a walk.

use crate::event::event_in;
use crate::fault::{LimitName, ScriptFault};
use crate::head::{Bounds, bounds_in, names_in};
use crate::lists::list_of;
use crate::located::{LocatedFault, MemberName, Part};
use crate::names::{Cast, Names};
use crate::tree::{array_in, drop_tree, has_exactly, tree_of, wrong_member};
use crate::walk::{EventList, Walk};
use serde_json::Value;
use std::alloc::Global;
use ti_live::Listed;

/// Tests that the document is an object with exactly these members. `Shape` of item 0 if it is not.
pub(crate) fn check_members(value: &Value, members: &[MemberName]) -> Result<(), LocatedFault>
    ensures { result_err result ≡ members_fault members.now (view value.now) }
{
    if has_exactly(value, members) {
        Ok(())
    } else {
        Err(LocatedFault::Shape {
            item: 0,
            part: wrong_member(value, Part::Whole, members),
        })
    }
}

/// A member of the document. `Shape` if it is missing.
pub(crate) fn member<'a>(value: &'a Value, which: MemberName) -> Result<&'a Value, LocatedFault>
    ensures { MatchResult result (λ found. view found.now ≡ at (key_of which) (view value.now)) (λ e. (e ≡ member_shape which) × (at (key_of which) (view value.now) ≡ null)) }
{
    match value.get(which.key()) {
        Some(found) => Ok(found),
        None => Err(LocatedFault::in_shape_of(which)),
    }
}

/// The limits of a document, each in its range.
pub(crate) fn bounds_at(value: &Value) -> Result<Bounds, LocatedFault>
    ensures read { Reads (λ b. (b.depth, b.own, b.calls)) result (limits_fault (at (codes "limits") (view value.now))) (bounds_of (at (codes "limits") (view value.now))) }
    ensures range { IfOk result (λ b. InRange 1 1 b.depth b.own b.calls) }
{
    let limits = member(value, MemberName::Limits)?;
    bounds_in(limits)
}

/// The names in a member of the document.
fn names_at(
    alloc: Global,
    value: &Value,
    which: MemberName,
    limit: LimitName,
    low: usize,
    high: usize,
    earlier: &Names,
) -> Result<Names, LocatedFault>
    requires { high ≤ 65536 }
    ensures read { Reads (λ names. names) result (names_fault which limit low high earlier.now (at (key_of which) (view value.now))) (texts (at (key_of which) (view value.now))) }
    ensures count { IfOk result (λ names. (low ≤ length names) × (length names ≤ high)) }
{
    let names = member(value, which)?;
    names_in(alloc, names, which, limit, low, high, earlier)
}

/// Puts the names of a document's threads, agents and methods into `cast`, which has none yet.
fn put_names(alloc: Global, value: &Value, cast: &mut Cast) -> Result<(), LocatedFault>
    requires no_threads { cast.old.threads ≡ [] }
    requires no_methods { cast.old.methods ≡ [] }
    ensures read { Reads (λ _. cast.new) result (cast_fault (view value.now)) (cast_of (view value.now)) }
    ensures threads { OnOk result ((1 ≤ length cast.new.threads) × (length cast.new.threads ≤ 64)) }
    ensures agents { OnOk result ((1 ≤ length cast.new.agents) × (length cast.new.agents ≤ 32)) }
{
    cast.threads = names_at(
        alloc,
        value,
        MemberName::Threads,
        LimitName::Threads,
        1,
        64,
        &cast.threads,
    )?;
    cast.agents = names_at(
        alloc,
        value,
        MemberName::Agents,
        LimitName::Agents,
        1,
        32,
        &cast.threads,
    )?;
    cast.methods = names_at(
        alloc,
        value,
        MemberName::Methods,
        LimitName::Methods,
        0,
        65536,
        &cast.methods,
    )?;
    Ok(())
}

/// The names of a document's threads, agents and methods.
pub(crate) fn cast_in(alloc: Global, value: &Value) -> Result<Cast, LocatedFault>
    ensures read { Reads (λ cast. cast) result (cast_fault (view value.now)) (cast_of (view value.now)) }
    ensures threads { IfOk result (λ cast. (1 ≤ length cast.threads) × (length cast.threads ≤ 64)) }
    ensures agents { IfOk result (λ cast. (1 ≤ length cast.agents) × (length cast.agents ≤ 32)) }
{
    let mut cast = Cast {
        threads: Names::new(alloc),
        agents: Names::new(alloc),
        methods: Names::new(alloc),
    };
    put_names(alloc, value, &mut cast)?;
    Ok(cast)
}

/// The items of the array in a member. `Shape` if it is no array, and `Limit` if there are more than `high`.
pub(crate) fn items_at<'a>(
    value: &'a Value,
    which: MemberName,
    limit: LimitName,
    high: usize,
) -> Result<&'a [Value], LocatedFault>
    ensures read { Reads (λ items. map view items.now) result (items_fault which limit high (at (key_of which) (view value.now))) (elements (at (key_of which) (view value.now))) }
    ensures count { IfOk result (λ items. length items.now ≤ high) }
{
    let items = member(value, which)?;
    let Some(items) = array_in(items) else {
        return Err(LocatedFault::in_shape_of(which));
    };
    if high < items.len() {
        return Err(LocatedFault::Limit { which: limit });
    }
    Ok(items)
}

fn events_in(alloc: Global, cast: &Cast, items: &[Value]) -> Result<EventList, LocatedFault>
    requires { length items.now ≤ 65536 }
    ensures { Gives (λ events. events) result (events_in cast.now 1 (map view items.now)) }
{
    list_of!(alloc, items, |item from 1, value| event_in(cast, item, value))
}

/// The events of a document that declares these names.
fn events_at(alloc: Global, cast: &Cast, value: &Value) -> Result<EventList, LocatedFault>
    ensures ok { IfOk result (λ events. (items_fault Member.Events Events 65536 (at (codes "events") (view value.now)) ≡ None) × (events_in cast.now 1 (elements (at (codes "events") (view value.now))) ≡ Ok events)) }
    ensures err { IfErr result (λ e. Faults e (first_of (items_fault Member.Events Events 65536 (at (codes "events") (view value.now)) ∷ result_err (events_in cast.now 1 (elements (at (codes "events") (view value.now)))) ∷ []))) }
{
    let items = items_at(value, MemberName::Events, LimitName::Events, 65536)?;
    events_in(alloc, cast, items)
}

/// The walk that a document's tree says, or its first fault.
fn walk_in(alloc: Global, value: &Value) -> Result<Walk, LocatedFault>
    ensures ok { IfOk result (λ w. (walk_fault (view value.now) ≡ None) × IsWalk (view value.now) w) }
    ensures err { IfErr result (λ e. Faults e (walk_fault (view value.now))) }
{
    check_members(
        value,
        &[
            MemberName::Limits,
            MemberName::Threads,
            MemberName::Agents,
            MemberName::Methods,
            MemberName::Events,
        ],
    )?;
    let bounds = bounds_at(value)?;
    let cast = cast_in(alloc, value)?;
    let events = events_at(alloc, &cast, value)?;
    Ok(Walk {
        limits: bounds.limits(&cast),
        threads: cast.threads,
        agents: cast.agents,
        methods: cast.methods,
        events,
    })
}

/// The walk that the bytes of a document say, or the document's first fault, with the part at fault. `read_walk` gives the
/// same, without the part. Source: this profile.
pub fn locate_walk(alloc: Global, bytes: &[u8]) -> Result<Walk, LocatedFault>
    ensures ok { IfOk result (λ w. (d : Data) × IsDocument bytes.now d × (walk_fault d ≡ None) × IsWalk d w) }
    ensures err { IfErr result (λ f. IsLocatedBy walk_fault f bytes.now) }
    // It is the fault of `read_walk`, at the same item.
    ensures agrees { IfErr result (λ f. IsRefusal (fault_of f) bytes.now) }
{
    let document = tree_of(alloc, bytes)?;
    let walk = walk_in(alloc, &document);
    drop_tree(document);
    walk
}

/// The walk that the bytes of a document say, or the document's first fault.
///
/// The bytes are read as one JSON tree, which is dropped before the walk is returned. `Json` if they are no JSON text, and
/// `Memory` if memory runs out. Otherwise the first fault of the tree, in the order of `specs/Head.antt`, and then of
/// `specs/Events.antt` from the first item on. Source: this profile.
pub fn read_walk(alloc: Global, bytes: &[u8]) -> Result<Walk, ScriptFault>
    ensures ok { IfOk result (λ w. (d : Data) × IsDocument bytes.now d × (walk_fault d ≡ None) × IsWalk d w) }
    ensures err { IfErr result (λ e. IsRefusal e bytes.now) }
{
    locate_walk(alloc, bytes).map_err(|fault: LocatedFault| fault.without_part())
}

ghost use Rattle.std.specs.Prelude.{◌≡◌, ◌≤◌, ◌++◌, ◌∷◌, [], length, map, codes, None, Ok, IfOk, IfErr, OnOk, MatchResult};
ghost use Rattle.std.specs.Result.{result_err};
ghost use Rattle.serde_json.specs.View.{view};
ghost use Rattle.serde_json.specs.Data.{Data, null};
ghost use Rattle.ti_script.specs.Faults.{Reads, Gives, Faults, first_of, member_shape, fault_of};
ghost use Rattle.ti_script.specs.declared.fault.LimitName.TheVariants.{Events};
ghost use Rattle.ti_script.specs.declared.located.MemberName.TheVariants as Member;
ghost use Rattle.ti_types.specs.Limits.{InRange};
ghost use Rattle.ti_script.specs.Tree.{at, elements};
ghost use Rattle.ti_script.specs.Members.{key_of};
ghost use Rattle.ti_script.specs.Head.{members_fault, limits_fault, bounds_of, names_fault, texts, cast_fault, items_fault};
ghost use Rattle.ti_script.specs.Walks.{cast_of, events_in, walk_fault, IsWalk, IsDocument, IsLocatedBy, IsRefusal};
