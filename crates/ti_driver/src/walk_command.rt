//! Reads a walk, runs it, and writes its outcomes.

use crate::fault::Fault;
use crate::input::read_input;
use crate::lines::write_lines;
use std::alloc::Global;
use std::io::{Read, Write};
use ti_core::Core;
use ti_script::{Walk, read_walk};
use ti_types::Outcome;

/// The walk that the reader gives.
#[tactic(auto, using(crate::proofs::VerdictLaws::early_from_read))]
fn read_document<R: Read>(alloc: Global, reader: &mut R) -> Result<Walk, Fault>
    ensures ok { IfOk result (λ w. IsGiven (R.remaining reader.old) w) }
    ensures err { IfErr result (λ e. IsEarlyFault walk_fault (R.remaining reader.old) e) }
{
    let input = read_input(alloc, reader)?;
    let walk = read_walk(alloc, &input)?;
    Ok(walk)
}

/// The outcomes of a walk's events. `Memory` if memory runs out.
fn run(alloc: Global, walk: &Walk) -> Result<Vec<Option<Outcome>>, Fault>
    ensures ok { IfOk result (λ os. (hs : List Happening) × IsRun walk.now hs × (lines_text walk.now.methods 0 os.items ≡ text_of walk.now hs)) }
    ensures err { IfErr result (λ e. e ≡ Memory) }
{
    match Core::run(alloc, walk.limits, walk.events.as_slice()) {
        Ok(outcomes) => Ok(outcomes),
        Err(_) => Err(Fault::Memory),
    }
}

/// Runs a walk, and writes the text of its outcomes.
fn write_walk<W: Write>(alloc: Global, walk: &Walk, writer: &mut W) -> Result<(), Fault>
    ensures ok { OnOk result ((hs : List Happening) × IsRun walk.now hs × Appends (W.contents writer.old) (W.contents writer.new) (text_of walk.now hs)) }
    ensures fault { IfErr result (λ e. e ≢ NotWritten → e ≡ Memory) }
    ensures front { result ≡ Err NotWritten → (hs : List Happening) × IsRun walk.now hs × TakesFront (W.contents writer.old) (W.contents writer.new) (text_of walk.now hs) }
    ensures unwritten { IfErr result (λ e. e ≢ NotWritten → Keeps (W.contents writer.old) (W.contents writer.new)) }
{
    let outcomes = run(alloc, walk)?;
    write_lines(alloc, writer, &walk.methods, &outcomes)
}

/// Reads the document of a walk, runs its events, and writes a line for each with its outcome. Source: this profile.
///
/// The document has at most 8,388,608 bytes, read in at most 16,777,216 calls of the reader. The faults:
///
/// - `Script`: the input is too long, or is no walk.
/// - `Read`: the reader fails.
/// - `Memory`: memory runs out.
/// - `Write`: the writer fails or takes no byte. It then has a prefix of the text.
///
/// Nothing is written before any fault but `Write`. The writer is not flushed. If it keeps bytes back, the caller flushes
/// it.
///
/// An event that was refused for lack of memory alone has the line `error 110`. The text is then that of the events with
/// this mark.
pub fn walk<R: Read, W: Write>(alloc: Global, reader: &mut R, writer: &mut W) -> Result<(), Fault>
    // The text of the definition's outcomes for the walk that the reader gave.
    ensures ok { OnOk result ((w : Walk) × (hs : List Happening) × IsGiven (R.remaining reader.old) w × IsRun w hs
        × Appends (W.contents writer.old) (W.contents writer.new) (text_of w hs)) }

    // A writer that fails has taken a prefix of the text.
    ensures write { result ≡ Err NotWritten → (w : Walk) × (hs : List Happening) × IsGiven (R.remaining reader.old) w × IsRun w hs
        × TakesFront (W.contents writer.old) (W.contents writer.new) (text_of w hs) }

    // Every other fault comes before anything is written.
    ensures fault { IfErr result (λ e. e ≢ NotWritten → IsEarlyFault walk_fault (R.remaining reader.old) e) }
    ensures unwritten { IfErr result (λ e. e ≢ NotWritten → Keeps (W.contents writer.old) (W.contents writer.new)) }
{
    let walk = read_document(alloc, reader)?;
    write_walk(alloc, &walk, writer)
}

ghost use Rattle.std.specs.Prelude.{◌≡◌, ◌≢◌, List, IfOk, OnOk, IfErr, Err};
ghost use Rattle.std.specs.Io.KnownBytes.{Appends, Keeps};
ghost use Rattle.ti_replay.specs.Admission.{Happening};
ghost use Rattle.ti_script.specs.Walks.{walk_fault};
ghost use Rattle.ti_script.specs.Texts.{lines_text};
ghost use Rattle.ti_script.specs.declared.walk.Walk.{Walk};
ghost use Rattle.ti_driver.specs.declared.fault.Fault.TheVariants.{Memory, Write as NotWritten};
ghost use Rattle.ti_driver.specs.Streams.{TakesFront};
ghost use Rattle.ti_driver.specs.Runs.{IsGiven, IsRun, IsEarlyFault, text_of};
