//! Carries out a command, from the reader to the writer.

use crate::arguments::Command;
use crate::check_command::check;
use crate::fault::Fault;
use crate::live_command::live;
use crate::walk_command::walk;
use std::io::{Read, Write};
use std::sync::Wait;
use std::thread::Threads;

/// Does what a command asks, as `walk`, `live` or `check` does, with their texts and faults. It gives `false` if, and only
/// if, the command is `Check` and the history is illegal. That is no fault. Source: this profile.
pub fn carry_out<H: Threads + Wait + Sync + AllocGlobal, R: Read, W: Write>(
    rt: &H,
    command: Command,
    reader: &mut R,
    writer: &mut W,
) -> Result<bool, Fault>
    ensures ok { IfOk result (λ legal. IsDone command (R.remaining reader.old) (W.contents writer.old) (W.contents writer.new) legal) }
    ensures write { result ≡ Err NotWritten → IsCutShort command (R.remaining reader.old) (W.contents writer.old) (W.contents writer.new) }
    ensures fault { IfErr result (λ e. e ≢ NotWritten → IsFaultBefore command (R.remaining reader.old) e) }
    ensures unwritten { IfErr result (λ e. e ≢ NotWritten → Keeps (W.contents writer.old) (W.contents writer.new)) }
{
    match command {
        Command::Walk => {
            walk(rt.alloc(), reader, writer)?;
            Ok(true)
        }
        Command::Live => {
            live(rt, reader, writer)?;
            Ok(true)
        }
        Command::Check => check(rt.alloc(), reader, writer),
    }
}

ghost use Rattle.std.specs.Prelude.{◌≡◌, ◌≢◌, IfOk, IfErr, Err};
ghost use Rattle.std.specs.Io.KnownBytes.{Keeps};
ghost use Rattle.ti_driver.specs.declared.fault.Fault.TheVariants.{Write as NotWritten};
ghost use Rattle.ti_driver.specs.Doings.{IsDone, IsCutShort, IsFaultBefore};
