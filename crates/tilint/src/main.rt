//! `tilint`: explains one document from standard input to people: its first fault in words, or what surprises in one that has
//! none.
//!
//! It takes the arguments of `tiwalk`. On standard output it writes the first fault in words, and then the line by which
//! `tiwalk` refuses the document. The status is then 2. For a document without a fault it writes warnings, or `fine`, with the
//! status 0.
//!
//! `ti_script` finds the first fault, with the part at fault. `ti_core` runs a walk, and `ti_replay` a history, for the
//! warnings. It is proved:
//!
//! - The fault of a report is that of the readers of `ti_script`. A report without a fault is of a document that has none.
//! - The place that an explanation names is in the item of the fault.
//!
//! No clause speaks of the words: `tests/cases/lint` has them.
#![tactic(auto)]

mod explaining;
mod explanation;
mod head;
mod hints_of_history;
mod hints_of_live;
mod hints_of_walk;
mod items;
mod json;
mod kind;
mod names;
mod place;
mod positions;
mod report;
mod texts;
mod tree;
mod values;
mod vocabulary;

use crate::report::{Report, lint_history, lint_live, lint_too_long, lint_walk};
use std::alloc::Global;
use std::io::{Read, Write};
use std::process::ExitCode;
use std::rt::Env;
use ti_driver::{Command, Fault, asked_command, put_fault, read_input, status, write_whole};

/// What is said of the document that these bytes are.
fn report_of(alloc: Global, command: Command, bytes: &[u8]) -> Result<Report, Fault>
    ensures fault { IfOk result (λ r. IfSome r.fault (λ f. IsLocatedBy (tests_of command) f bytes.now)) }
    ensures err { IfErr result (λ e. e ≡ Memory) }
{
    match command {
        Command::Walk => {
            let report = lint_walk(alloc, bytes)?;
            Ok(report)
        }
        Command::Live => {
            let report = lint_live(alloc, bytes)?;
            Ok(report)
        }
        Command::Check => {
            let report = lint_history(alloc, bytes)?;
            Ok(report)
        }
    }
}

/// What is said of the document that the reader gives. `Read` if the reader fails, and `Memory` if memory runs out.
fn read_report<R: Read>(alloc: Global, command: Command, reader: &mut R) -> Result<Report, Fault>
    ensures fault { IfOk result (λ r. IfSome r.fault (λ f. IsFoundBy command (R.remaining reader.old) f)) }
{
    match read_input(alloc, reader) {
        Ok(input) => report_of(alloc, command, &input),
        Err(Fault::Script(_)) => {
            let report = lint_too_long(alloc)?;
            Ok(report)
        }
        Err(fault) => Err(fault),
    }
}

/// Writes what is said of a document, and then the line by which `tiwalk` refuses it, if it does.
fn put_report<W: Write>(writer: &mut W, report: &Report) -> Result<(), Fault>
    ensures ok { OnOk result (Appends (W.contents writer.old) (W.contents writer.new) (string_bytes report.now.text ++ refusal_line report.now.fault)) }
    ensures err { IfErr result (λ e. e ≡ NotWritten) }
{
    write_whole(writer, report.text.as_bytes())?;
    match report.fault {
        Some(fault) => put_fault(writer, &Fault::Script(fault.without_part())),
        None => Ok(()),
    }
}

/// Explains the document that the reader gives. It gives `true` if, and only if, the document has no fault.
fn run<H: Env + AllocGlobal, R: Read, W: Write>(
    rt: &H,
    reader: &mut R,
    writer: &mut W,
) -> Result<bool, Fault>
    ensures { IfOk result (λ fine. (command : Command) × (words : List ℕ) × (fault : Option LocatedFault) × (fine ≡ is_none fault)
        × IfSome fault (λ f. IsFoundBy command (R.remaining reader.old) f)
        × Appends (W.contents writer.old) (W.contents writer.new) (words ++ refusal_line fault)) }
{
    let command = asked_command(rt)?;
    let report = read_report(rt.alloc(), command, reader)?;
    put_report(writer, &report)?;
    Ok(report.fault.is_none())
}

/// Writes why there is no report. A document's own fault is part of the report.
fn put_trouble<W: Write>(errors: &mut W, fault: &Fault) -> Result<(), Fault> {
    let line = match fault {
        Fault::Usage => "tilint: usage: tilint [walk|live|check]\n",
        Fault::Memory => "tilint: memory\n",
        Fault::Read => "tilint: read\n",
        _ => "tilint: write\n",
    };
    write_whole(errors, line.as_bytes())
}

/// The status with which a run ends: 0, 2 if the document has a fault, or that of what went wrong.
fn code_of(ended: &Result<bool, Fault>) -> ExitCode
    ensures { exit_status result ≡ end_status ended.now }
{
    match ended {
        Ok(fine) => ExitCode::from(if *fine { 0 } else { 2 }),
        Err(fault) => ExitCode::from(status(fault)),
    }
}

fn main(rt: HostRuntime) -> ExitCode {
    let ended = run(&rt, &mut rt.stdin(), &mut rt.stdout());
    if let Err(fault) = &ended {
        // The status is the same if the line cannot be written.
        let _ = put_trouble(&mut rt.stderr(), fault);
    }
    code_of(&ended)
}

ghost use Rattle.std.specs.Prelude.{◌≡◌, ◌++◌, ℕ, List, Option, IfOk, IfErr, OnOk, IfSome, is_none, string_bytes};
ghost use Rattle.std.specs.Process.{exit_status};
ghost use Rattle.std.specs.Io.KnownBytes.{Appends};
ghost use Rattle.ti_script.specs.declared.located.LocatedFault.{LocatedFault};
ghost use Rattle.ti_script.specs.Walks.{IsLocatedBy};
ghost use Rattle.ti_driver.specs.declared.arguments.Command.{Command};
ghost use Rattle.ti_driver.specs.declared.fault.Fault.TheVariants.{Memory, Write as NotWritten};
ghost use Rattle.tilint.specs.Findings.{tests_of, IsFoundBy, refusal_line, end_status};
