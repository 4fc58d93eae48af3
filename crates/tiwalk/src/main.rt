//! `tiwalk`: reads one document from standard input, and writes its result. All the work is done by `ti_driver`.
#![tactic(auto)]

use std::io::{Read, Write};
use std::process::ExitCode;
use std::rt::Env;
use std::sync::Wait;
use std::thread::Threads;
use ti_driver::{Fault, asked_command, carry_out, put_fault, status};

/// The status with which a run ends: 0, 1 if a history is illegal, or that of the fault.
fn code_of(ended: &Result<bool, Fault>) -> ExitCode
    ensures { exit_status result ≡ end_status ended.now }
{
    match ended {
        Ok(legal) => ExitCode::from(if *legal { 0 } else { 1 }),
        Err(fault) => ExitCode::from(status(fault)),
    }
}

/// Writes the fault line, if the run ended with a fault. `Write` if the writer fails or takes no byte. It then has a prefix
/// of the line.
fn say<W: Write>(errors: &mut W, ended: &Result<bool, Fault>) -> Result<(), Fault>
    ensures quiet { IfOk ended.now (λ _. Keeps (W.contents errors.old) (W.contents errors.new)) }
    ensures said { OnOk result (IfErr ended.now (λ fault. Appends (W.contents errors.old) (W.contents errors.new) (fault_line fault))) }
    ensures front { IfErr ended.now (λ fault. TakesFront (W.contents errors.old) (W.contents errors.new) (fault_line fault)) }
    ensures err { IfErr result (λ e. (e ≡ NotWritten) × (IfOk ended.now (λ _. ⊥))) }
{
    match ended {
        Ok(_) => Ok(()),
        Err(fault) => put_fault(errors, fault),
    }
}

/// Does what the arguments of the process ask for, from the reader to the writer.
fn run<H: Env + Threads + Wait + Sync + AllocGlobal, R: Read, W: Write>(
    rt: &H,
    reader: &mut R,
    writer: &mut W,
) -> Result<bool, Fault>
    ensures ok { IfOk result (λ legal. (command : Command) × IsDone command (R.remaining reader.old) (W.contents writer.old) (W.contents writer.new) legal) }
    ensures write { result ≡ Err NotWritten → (command : Command) × IsCutShort command (R.remaining reader.old) (W.contents writer.old) (W.contents writer.new) }
    ensures fault { IfErr result (λ e. e ≢ NotWritten → IsUsageOrMemory e ⊎ ((command : Command) × IsFaultBefore command (R.remaining reader.old) e)) }
    ensures unwritten { IfErr result (λ e. e ≢ NotWritten → Keeps (W.contents writer.old) (W.contents writer.new)) }
{
    let command = asked_command(rt)?;
    carry_out(rt, command, reader, writer)
}

fn main(rt: HostRuntime) -> ExitCode {
    let ended = run(&rt, &mut rt.stdin(), &mut rt.stdout());
    // The status is the same if the fault line cannot be written.
    let _ = say(&mut rt.stderr(), &ended);
    code_of(&ended)
}

ghost use Rattle.std.specs.Prelude.{◌≡◌, ◌≢◌, ◌⊎◌, IfOk, IfErr, OnOk, Err};
ghost use Rattle.ti_driver.specs.declared.arguments.Command.{Command};
ghost use Rattle.ti_driver.specs.declared.fault.Fault.TheVariants.{Write as NotWritten};
ghost use Rattle.ti_driver.specs.Commands.{IsUsageOrMemory};
ghost use Rattle.ti_driver.specs.Doings.{IsDone, IsCutShort, IsFaultBefore};
ghost use Rattle.std.specs.Process.{exit_status};
ghost use Rattle.std.specs.Io.KnownBytes.{Appends, Keeps};
ghost use Rattle.ti_driver.specs.Faults.{end_status, fault_line};
ghost use Rattle.ti_driver.specs.Streams.{TakesFront};
