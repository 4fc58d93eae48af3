//! Reads a live script from its bytes.

use crate::fault::{LimitName, ScriptFault};
use crate::lists::{calls_of_one, operations_in};
use crate::live::Live;
use crate::located::{LocatedFault, MemberName};
use crate::names::Cast;
use crate::tree::{array_in, drop_live, tree_of};
use crate::walk_document::{bounds_at, cast_in, check_members, member};
use serde_json::Value;
use std::alloc::Global;
use ti_live::{AgentCall, Listed};
use ti_types::{EnvNo, Event, ThreadNo};

/// The elements of an array. Any other value has none.
fn elements(value: &Value) -> &[Value]
    ensures { map view result.now ≡ elements (view value.now) }
{
    match array_in(value) {
        Some(values) => values,
        None => &[],
    }
}

/// How many elements these arrays have in all. `Limit` if there are more than 65,536.
fn items_in_all(values: &[Value], which: LimitName) -> Result<u32, LocatedFault>
    ensures read { Reads (λ n. n) result (unless (is_within 0 65536 (count_in_all (map view values.now))) (Limit which)) (count_in_all (map view values.now)) }
    ensures few { IfOk result (λ n. n ≤ 65536) }
{
    let mut count = 0u32;
    for value in values {
        let here = elements(value).len();
        if here > 65536 - count as usize {
            return Err(LocatedFault::Limit { which });
        }
        count += here as u32;
    }
    Ok(count)
}

/// The lists that these arrays mean. Each is read with its number from 0 on, and with that of its first item: items are
/// numbered over all lists, from the first on. It ends at the first fault.
macro_rules! lists_of {
    ($alloc:ident, $values:ident, |$number:ident, $item:ident from $first:expr, $list:ident| $read:expr) => {{
        let mut lists = Listed::with_room($alloc, $values.len())?;
        let mut $number = 0u32;
        let mut $item = $first;
        for value in $values {
            let $list = elements(value);
            let one = $read?;
            lists.push(one)?;
            $number += 1;
            $item += $list.len() as u32;
        }
        Ok(lists)
    }};
}

/// The walks of all threads. Their items are numbered from 1 on, over all threads.
fn walks_in(
    alloc: Global,
    cast: &Cast,
    values: &[Value],
) -> Result<Listed<Listed<Event>>, LocatedFault>
    requires few { count_in_all (map view values.now) ≤ 65536 }
    requires threads { length values.now ≤ 64 }
    ensures { Gives (λ walks. walks) result (walks_in cast.now 0 1 (map view values.now)) }
{
    lists_of!(alloc, values, |number, item from 1, list| {
        operations_in(alloc, cast, ThreadNo(number), item, list)
    })
}

/// The calls of all agents. Their items are numbered from `first` on, over all agents.
fn calls_in(
    alloc: Global,
    cast: &Cast,
    first: u32,
    values: &[Value],
) -> Result<Listed<Listed<AgentCall>>, LocatedFault>
    requires few { count_in_all (map view values.now) ≤ 65536 }
    requires first { first ≤ 65537 }
    requires agents { length values.now ≤ 64 }
    ensures { Gives (λ calls. calls) result (calls_in cast.now 0 first (map view values.now)) }
{
    lists_of!(alloc, values, |number, item from first, list| {
        calls_of_one(alloc, cast, EnvNo(number), item, list)
    })
}

/// Whether a value is an array of this many arrays.
#[tactic(auto, using(crate::proofs::TreeLaws::list_all_views, crate::proofs::TreeLaws::length_of_map))]
fn are_lists(value: &Value, count: usize) -> bool
    ensures { result ≡ are_lists count (view value.now) }
{
    let Some(values) = array_in(value) else {
        return false;
    };
    values.len() == count && are_arrays(values)
}

/// Whether each of these values is an array.
fn are_arrays(values: &[Value]) -> bool
    ensures { result ≡ list_all (λ value. is_some (array_in (view value))) values.now }
{
    values.iter().all(|value| array_in(value).is_some())
}

/// The arrays of a member. `Shape` if the member is no array of this many arrays.
#[tactic(auto, using(crate::proofs::TreeLaws::length_of_map))]
fn lists_at<'a>(
    value: &'a Value,
    which: MemberName,
    count: usize,
) -> Result<&'a [Value], LocatedFault>
    ensures read { Reads (λ lists. map view lists.now) result (unless (are_lists count (at (key_of which) (view value.now))) (member_shape which)) (elements (at (key_of which) (view value.now))) }
    ensures count { IfOk result (λ lists. length lists.now ≡ count) }
{
    let lists = member(value, which)?;
    if !are_lists(lists, count) {
        return Err(LocatedFault::in_shape_of(which));
    }
    Ok(elements(lists))
}

/// The two arrays of lists of a live script, and how many operations the first has in all.
#[derive(Drop)]
struct Lists<'a> {
    walks: &'a [Value],
    calls: &'a [Value],
    operations: u32,
}

/// The lists of operations and of calls. `Shape` if there is not one for each thread and each agent. Then `Limit` if there
/// are more than 65,536 operations or calls in all.
fn lists_in<'a>(cast: &Cast, value: &'a Value) -> Result<Lists<'a>, LocatedFault>
    ensures read { Reads {Y = List Data × List Data} (λ l. (map view l.walks.now, map view l.calls.now)) result (lists_fault cast.now (view value.now)) (elements (at (codes "walks") (view value.now)), elements (at (codes "calls") (view value.now))) }
    ensures counts { IfOk result (λ l. (length l.walks.now ≡ length cast.now.threads) × (length l.calls.now ≡ length cast.now.agents)) }
    ensures few { IfOk result (λ l. (count_in_all (map view l.walks.now) ≤ 65536) × (count_in_all (map view l.calls.now) ≤ 65536)) }
    ensures operations { IfOk result (λ l. l.operations ≡ count_in_all (map view l.walks.now)) }
{
    let walks = lists_at(value, MemberName::Walks, cast.threads.len())?;
    let calls = lists_at(value, MemberName::Calls, cast.agents.len())?;
    let operations = items_in_all(walks, LimitName::Walks)?;
    let _calls = items_in_all(calls, LimitName::CallsList)?;
    Ok(Lists {
        walks,
        calls,
        operations,
    })
}

/// The walks of all threads, and the calls of all agents. The items of the calls are numbered from `first` on.
fn items_in(
    alloc: Global,
    cast: &Cast,
    walks: &[Value],
    first: u32,
    calls: &[Value],
) -> Result<(Listed<Listed<Event>>, Listed<Listed<AgentCall>>), LocatedFault>
    requires counts { (length walks.now ≤ 64) × (length calls.now ≤ 64) }
    requires few { (count_in_all (map view walks.now) ≤ 65536) × (count_in_all (map view calls.now) ≤ 65536) }
    requires first { first ≡ 1 + count_in_all (map view walks.now) }
    ensures { Gives (λ items. items) result (items_in cast.now (map view walks.now) (map view calls.now)) }
{
    let walks = walks_in(alloc, cast, walks)?;
    let calls = calls_in(alloc, cast, first, calls)?;
    Ok((walks, calls))
}

/// The walks and the calls of a document that declares these names.
fn body_in(
    alloc: Global,
    cast: &Cast,
    value: &Value,
) -> Result<(Listed<Listed<Event>>, Listed<Listed<AgentCall>>), LocatedFault>
    requires threads { length cast.now.threads ≤ 64 }
    requires agents { length cast.now.agents ≤ 32 }
    ensures ok { IfOk result (λ items. (body_fault cast.now (view value.now) ≡ None) × (items_of cast.now (view value.now) ≡ Ok (items.0, items.1))) }
    ensures err { IfErr result (λ e. Faults e (body_fault cast.now (view value.now))) }
{
    let lists = lists_in(cast, value)?;
    items_in(alloc, cast, lists.walks, 1 + lists.operations, lists.calls)
}

/// The live script that a document's tree says, or its first fault.
fn live_in(alloc: Global, value: &Value) -> Result<Live, LocatedFault>
    ensures ok { IfOk result (λ l. (live_fault (view value.now) ≡ None) × IsLive (view value.now) l) }
    ensures err { IfErr result (λ e. Faults e (live_fault (view value.now))) }
{
    check_members(
        value,
        &[
            MemberName::Limits,
            MemberName::Threads,
            MemberName::Agents,
            MemberName::Methods,
            MemberName::Walks,
            MemberName::Calls,
        ],
    )?;
    let bounds = bounds_at(value)?;
    let cast = cast_in(alloc, value)?;
    let (walks, calls) = body_in(alloc, &cast, value)?;
    Ok(Live {
        limits: bounds.limits(&cast).recorded(),
        threads: cast.threads,
        agents: cast.agents,
        methods: cast.methods,
        walks,
        calls,
    })
}

/// The live script that the bytes of a document say, or the document's first fault, with the part at fault. `read_live` gives
/// the same, without the part. Source: this profile.
pub fn locate_live(alloc: Global, bytes: &[u8]) -> Result<Live, LocatedFault>
    ensures ok { IfOk result (λ l. (d : Data) × IsDocument bytes.now d × (live_fault d ≡ None) × IsLive d l) }
    ensures err { IfErr result (λ f. IsLocatedBy live_fault f bytes.now) }
    // It is the fault of `read_live`, at the same item.
    ensures agrees { IfErr result (λ f. IsRefusalBy live_fault (fault_of f) bytes.now) }
{
    let document = tree_of(alloc, bytes)?;
    let live = live_in(alloc, &document);
    drop_live(document);
    live
}

/// The live script that the bytes of a document say, or the document's first fault.
///
/// The bytes are read as one JSON tree, which is dropped before the script is returned. `Json` if they are no JSON text, and
/// `Memory` if memory runs out. Otherwise the first fault of the tree, in the order of `specs/Lives.antt`:
///
/// - the members, the limits and the names, as in `read_walk`
/// - `Shape` of item 0, if `walks` does not have an array for each thread, or `calls` one for each agent
/// - `Limit` of `walks` or `calls_list`, if there are more than 65,536 operations or calls in all
/// - the items, numbered from 1 over the threads' operations, and then on over the agents' calls
///
/// Source: this profile.
pub fn read_live(alloc: Global, bytes: &[u8]) -> Result<Live, ScriptFault>
    ensures ok { IfOk result (λ l. (d : Data) × IsDocument bytes.now d × (live_fault d ≡ None) × IsLive d l) }
    ensures err { IfErr result (λ e. IsRefusalBy live_fault e bytes.now) }
{
    locate_live(alloc, bytes).map_err(|fault: LocatedFault| fault.without_part())
}

ghost use Rattle.std.specs.Prelude.{◌≡◌, ◌≤◌, ◌+◌, List, length, map, codes, None, Ok, is_some, IfOk, IfErr};
ghost use Rattle.std.specs.List.{list_all};
ghost use Rattle.serde_json.specs.View.{view};
ghost use Rattle.serde_json.specs.Data.{Data};
ghost use Rattle.ti_script.specs.Faults.{Reads, Gives, Faults, unless, member_shape, fault_of};
ghost use Rattle.ti_script.specs.declared.located.LocatedFault.TheVariants.{Limit};
ghost use Rattle.ti_script.specs.Tree.{at, elements, array_in};
ghost use Rattle.ti_script.specs.Members.{key_of};
ghost use Rattle.ti_script.specs.Head.{is_within};
ghost use Rattle.ti_script.specs.Walks.{IsDocument, IsLocatedBy, IsRefusalBy};
ghost use Rattle.ti_script.specs.Lives.{are_lists, count_in_all, lists_fault, walks_in, calls_in, items_in, items_of, body_fault, live_fault, IsLive};
