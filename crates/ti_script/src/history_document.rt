//! Reads a document as a history.

use crate::entry::entry_in;
use crate::fault::{LimitName, ScriptFault};
use crate::history::{EntryList, History};
use crate::lists::list_of;
use crate::located::{LocatedFault, MemberName};
use crate::tree::{drop_tree, tree_of};
use crate::walk_document::{bounds_at, check_members, items_at, member};
use serde_json::Value;
use std::alloc::Global;
use ti_live::Listed;
use ti_types::Limits;

/// The format, which is 1 or 2. `Shape` if it is no whole number, and `Limit` for any other whole number.
fn format_in(value: &Value) -> Result<u64, LocatedFault>
    ensures { Reads (λ format. format) result (format_fault (view value.now)) (format_of (view value.now)) }
{
    match value.as_u64() {
        Some(1) => Ok(1),
        Some(2) => Ok(2),
        Some(_) => Err(LocatedFault::Limit {
            which: LimitName::Format,
        }),
        None => if value.as_i64().is_some() {
            Err(LocatedFault::Limit {
                which: LimitName::Format,
            })
        } else {
            Err(LocatedFault::in_shape_of(MemberName::Format))
        },
    }
}

/// How many agents a document of this format may have.
fn most_agents(format: u64) -> u64
    ensures most { result ≡ most_agents format }
    ensures range { result ≤ 32 }
{
    if format == 2 { 32 } else { 8 }
}

fn agents_in(format: u64, value: &Value) -> Result<u64, LocatedFault>
    ensures read { Reads (λ agents. agents) result (agents_fault format (view value.now)) (unwrap_or (whole_in (view value.now)) 0) }
    ensures range { IfOk result (λ agents. (1 ≤ agents) × (agents ≤ 32)) }
{
    let Some(agents) = value.as_u64() else {
        return Err(LocatedFault::in_shape_of(MemberName::Agents));
    };
    if agents < 1 || most_agents(format) < agents {
        return Err(LocatedFault::Limit {
            which: LimitName::Agents,
        });
    }
    Ok(agents)
}

fn format_at(value: &Value) -> Result<u64, LocatedFault>
    ensures { Reads (λ format. format) result (format_fault (at (codes "format") (view value.now))) (format_of (at (codes "format") (view value.now))) }
{
    let format = member(value, MemberName::Format)?;
    format_in(format)
}

fn agents_at(format: u64, value: &Value) -> Result<u64, LocatedFault>
    ensures read { Reads (λ agents. agents) result (agents_fault format (at (codes "agents") (view value.now))) (unwrap_or (whole_in (at (codes "agents") (view value.now))) 0) }
    ensures range { IfOk result (λ agents. (1 ≤ agents) × (agents ≤ 32)) }
{
    let agents = member(value, MemberName::Agents)?;
    agents_in(format, agents)
}

fn entries_in(alloc: Global, format: u64, items: &[Value]) -> Result<EntryList, LocatedFault>
    requires { length items.now ≤ 262144 }
    ensures { Gives (λ entries. entries) result (entries_in format 1 (map view items.now)) }
{
    list_of!(alloc, items, |item from 1, value| entry_in(format, item, value))
}

/// The history that a document's tree says, or its first fault.
fn history_in(alloc: Global, value: &Value) -> Result<History, LocatedFault>
    ensures ok { IfOk result (λ h. (history_fault (view value.now) ≡ None) × IsHistory (view value.now) h) }
    ensures err { IfErr result (λ e. Faults e (history_fault (view value.now))) }
{
    check_members(
        value,
        &[
            MemberName::Format,
            MemberName::Limits,
            MemberName::Agents,
            MemberName::Entries,
        ],
    )?;
    let format = format_at(value)?;
    let bounds = bounds_at(value)?;
    let agents = agents_at(format, value)?;
    let items = items_at(value, MemberName::Entries, LimitName::Entries, 262_144)?;
    let entries = entries_in(alloc, format, items)?;
    let limits = Limits::new(1, agents as u32, bounds.depth, bounds.own, bounds.calls).unwrap();
    Ok(History { limits, entries })
}

/// The history that the bytes of a document say, or the document's first fault, with the part at fault. `read_history` gives
/// the same, without the part. Source: this profile.
pub fn locate_history(alloc: Global, bytes: &[u8]) -> Result<History, LocatedFault>
    ensures ok { IfOk result (λ h. (d : Data) × IsDocument bytes.now d × (history_fault d ≡ None) × IsHistory d h) }
    ensures err { IfErr result (λ f. IsLocatedBy history_fault f bytes.now) }
    // It is the fault of `read_history`, at the same item.
    ensures agrees { IfErr result (λ f. IsRefusalBy history_fault (fault_of f) bytes.now) }
{
    let document = tree_of(alloc, bytes)?;
    let history = history_in(alloc, &document);
    drop_tree(document);
    history
}

/// The history that the bytes of a document say, or the document's first fault.
///
/// The bytes are read as one JSON tree, which is dropped before the history is returned. `Json` if they are no JSON text,
/// and `Memory` if memory runs out. Otherwise the first fault of the tree, in the order of `specs/Histories.antt`. It does
/// not test whether the history is legal. Source: this profile.
pub fn read_history(alloc: Global, bytes: &[u8]) -> Result<History, ScriptFault>
    ensures ok { IfOk result (λ h. (d : Data) × IsDocument bytes.now d × (history_fault d ≡ None) × IsHistory d h) }
    ensures err { IfErr result (λ e. IsRefusalBy history_fault e bytes.now) }
{
    locate_history(alloc, bytes).map_err(|fault: LocatedFault| fault.without_part())
}

ghost use Rattle.std.specs.Prelude.{◌≡◌, ◌≤◌, length, map, codes, unwrap_or, None, IfOk, IfErr};
ghost use Rattle.serde_json.specs.View.{view};
ghost use Rattle.serde_json.specs.Data.{Data};
ghost use Rattle.ti_script.specs.Faults.{Reads, Gives, Faults, fault_of};
ghost use Rattle.ti_script.specs.Tree.{at, whole_in};
ghost use Rattle.ti_script.specs.Walks.{IsDocument, IsLocatedBy, IsRefusalBy};
ghost use Rattle.ti_script.specs.Entries.{entries_in};
ghost use Rattle.ti_script.specs.Histories.{format_fault, format_of, agents_fault, most_agents, history_fault, IsHistory};
