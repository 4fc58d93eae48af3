//! What is said of a document as a whole: its fault, or its warnings.

use crate::explaining::explain;
use crate::explanation::Explanation;
use crate::hints_of_history::illegal_hint;
use crate::hints_of_live::live_hints;
use crate::hints_of_walk::walk_hints;
use crate::json::json_words;
use crate::kind::Kind;
use crate::positions::line_and_column;
use serde_json::Value;
use std::alloc::{AllocError, Global};
use std::fmt::Write;
use ti_core::Core;
use ti_replay::{ReplayFault, replay};
use ti_script::{
    History, LimitName, Live, LocatedFault, Walk, locate_history, locate_live, locate_walk,
};

/// What is said of a document. Without a fault the text has its warnings, or `fine` if there are none.
#[derive(Drop, Debug)]
pub struct Report {
    pub fault: Option<LocatedFault>,
    pub text: String,
}

/// What is said of the fault of a document that is JSON.
fn explained(
    alloc: Global,
    kind: Kind,
    bytes: &[u8],
    tree: &Value,
    fault: &LocatedFault,
) -> Result<String, AllocError> {
    let said = explain(alloc, kind, tree, fault)?;
    let place = said.place.text(alloc)?;
    let words = said.words;
    match line_and_column(bytes, &said.place) {
        Some(at) => {
            format!(in alloc;
                "{place} (line {}, column {}): {words}\n",
                at.line, at.column
            )
        }
        None => format!(in alloc; "{place}: {words}\n"),
    }
}

/// What is said of a fault.
fn fault_text(
    alloc: Global,
    kind: Kind,
    bytes: &[u8],
    fault: &LocatedFault,
) -> Result<String, AllocError> {
    if bytes.is_empty() {
        return String::from_str(alloc, "document: there is no text\n");
    }
    match Value::from_slice(alloc, bytes) {
        Ok(tree) => explained(alloc, kind, bytes, &tree, fault),
        Err(error) => {
            if error.is_memory() {
                return Err(AllocError);
            }
            let (line, column) = (error.line(), error.column());
            let words = json_words(alloc, bytes, line, column)?;
            format!(in alloc; "line {line}, column {column}: {words}\n")
        }
    }
}

/// The lines of warnings, or `fine`.
fn warnings(alloc: Global, hints: &[Explanation]) -> Result<String, AllocError> {
    if hints.is_empty() {
        return String::from_str(alloc, "fine\n");
    }
    let mut text = String::new(alloc);
    for hint in hints {
        let place = hint.place.text(alloc)?;
        write!(text, "warning: {place}: {}\n", hint.words)?;
    }
    Ok(text)
}

/// The report of a document that has this fault. Lack of memory is an error.
fn faulty(
    alloc: Global,
    kind: Kind,
    bytes: &[u8],
    fault: LocatedFault,
) -> Result<Report, AllocError>
    ensures { IfOk result (λ r. r.fault ≡ Some fault) }
{
    if fault == LocatedFault::Memory {
        return Err(AllocError);
    }
    let text = fault_text(alloc, kind, bytes, &fault)?;
    Ok(Report {
        fault: Some(fault),
        text,
    })
}

/// The report of a document that has no fault.
fn faultless(alloc: Global, hints: &[Explanation]) -> Result<Report, AllocError>
    ensures { IfOk result (λ r. r.fault ≡ None) }
{
    let text = warnings(alloc, hints)?;
    Ok(Report { fault: None, text })
}

/// The report of a walk, by a run of its events.
fn walk_report(alloc: Global, walk: &Walk) -> Result<Report, AllocError>
    ensures { IfOk result (λ r. r.fault ≡ None) }
{
    match Core::run(alloc, walk.limits, walk.events.as_slice()) {
        Ok(outcomes) => faultless(alloc, &walk_hints(alloc, walk, &outcomes)?),
        Err(_) => Err(AllocError),
    }
}

/// The report of a live script, which is not run.
fn live_report(alloc: Global, live: &Live) -> Result<Report, AllocError>
    ensures { IfOk result (λ r. r.fault ≡ None) }
{
    let hints = live_hints(alloc, live)?;
    faultless(alloc, &hints)
}

/// The report of a history, by a replay.
fn history_report(alloc: Global, history: &History) -> Result<Report, AllocError>
    ensures { IfOk result (λ r. r.fault ≡ None) }
{
    match replay(alloc, history.limits, history.entries.as_slice()) {
        Ok(_) => faultless(alloc, &[]),
        Err(ReplayFault::Illegal { at }) => {
            let hint = illegal_hint(alloc, history.entries.as_slice(), at)?;
            faultless(alloc, &[hint])
        }
        Err(ReplayFault::Memory) => Err(AllocError),
    }
}

/// The report of a document that has more bytes than are read. The error is lack of memory. Source: this profile.
pub fn lint_too_long(alloc: Global) -> Result<Report, AllocError>
    ensures { IfOk result (λ r. r.fault ≡ Some (Limit Input)) }
{
    let text = String::from_str(
        alloc,
        "document: more than 8,388,608 bytes, the most that are read\n",
    )?;
    Ok(Report {
        fault: Some(LocatedFault::Limit {
            which: LimitName::Input,
        }),
        text,
    })
}

/// Explains the first fault of a walk. If it has none, its events are run, and each that is refused or never answered is a
/// warning. The fault is that of `read_walk`. The error is lack of memory. Source: this profile.
pub fn lint_walk(alloc: Global, bytes: &[u8]) -> Result<Report, AllocError>
    ensures fault { IfOk result (λ r. IfSome r.fault (λ f. IsLocatedBy walk_fault f bytes.now)) }
    ensures agrees { IfOk result (λ r. IfSome r.fault (λ f. IsRefusalBy walk_fault (fault_of f) bytes.now)) }
    ensures faultless { IfOk result (λ r. r.fault ≡ None → (d : Data) × IsDocument bytes.now d × (walk_fault d ≡ None)) }
{
    match locate_walk(alloc, bytes) {
        Ok(walk) => {
            let report = walk_report(alloc, &walk)?;
            Ok(report)
        }
        Err(fault) => faulty(alloc, Kind::Walk, bytes, fault),
    }
}

/// Explains the first fault of a live script. If it has none, what would surprise in every run is a warning: it is not run.
/// The fault is that of `read_live`. The error is lack of memory. Source: this profile.
pub fn lint_live(alloc: Global, bytes: &[u8]) -> Result<Report, AllocError>
    ensures fault { IfOk result (λ r. IfSome r.fault (λ f. IsLocatedBy live_fault f bytes.now)) }
    ensures agrees { IfOk result (λ r. IfSome r.fault (λ f. IsRefusalBy live_fault (fault_of f) bytes.now)) }
    ensures faultless { IfOk result (λ r. r.fault ≡ None → (d : Data) × IsDocument bytes.now d × (live_fault d ≡ None)) }
{
    match locate_live(alloc, bytes) {
        Ok(live) => {
            let report = live_report(alloc, &live)?;
            Ok(report)
        }
        Err(fault) => faulty(alloc, Kind::Live, bytes, fault),
    }
}

/// Explains the first fault of a history. If it has none, its first illegal entry is a warning. The fault is that of
/// `read_history`. The error is lack of memory. Source: this profile.
pub fn lint_history(alloc: Global, bytes: &[u8]) -> Result<Report, AllocError>
    ensures fault { IfOk result (λ r. IfSome r.fault (λ f. IsLocatedBy history_fault f bytes.now)) }
    ensures agrees { IfOk result (λ r. IfSome r.fault (λ f. IsRefusalBy history_fault (fault_of f) bytes.now)) }
    ensures faultless { IfOk result (λ r. r.fault ≡ None → (d : Data) × IsDocument bytes.now d × (history_fault d ≡ None)) }
{
    match locate_history(alloc, bytes) {
        Ok(history) => {
            let report = history_report(alloc, &history)?;
            Ok(report)
        }
        Err(fault) => faulty(alloc, Kind::History, bytes, fault),
    }
}

ghost use Rattle.std.specs.Prelude.{◌≡◌, Some, None, IfOk, IfSome};
ghost use Rattle.serde_json.specs.Data.{Data};
ghost use Rattle.ti_script.specs.declared.fault.LimitName.TheVariants.{Input};
ghost use Rattle.ti_script.specs.declared.located.LocatedFault.TheVariants.{Limit};
ghost use Rattle.ti_script.specs.Faults.{fault_of};
ghost use Rattle.ti_script.specs.Walks.{IsDocument, IsLocatedBy, IsRefusalBy, walk_fault};
ghost use Rattle.ti_script.specs.Lives.{live_fault};
ghost use Rattle.ti_script.specs.Histories.{history_fault};
