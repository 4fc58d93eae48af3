//! Reads a history, replays it, and writes the verdict on it.

use crate::fault::Fault;
use crate::fault_line::put_numbered;
use crate::input::read_input;
use crate::output::write_whole;
use std::alloc::Global;
use std::io::{Read, Write};
use ti_replay::{ReplayFault, replay};
use ti_script::{History, read_history};

/// The history that the reader gives.
#[tactic(auto, using(crate::proofs::VerdictLaws::early_from_read))]
fn read_document<R: Read>(alloc: Global, reader: &mut R) -> Result<History, Fault>
    ensures ok { IfOk result (λ h. IsGivenHistory (R.remaining reader.old) h) }
    ensures err { IfErr result (λ e. IsEarlyFault history_fault (R.remaining reader.old) e) }
{
    let input = read_input(alloc, reader)?;
    let history = read_history(alloc, &input)?;
    Ok(history)
}

/// The place of the first entry that may not come there, counted from 0. `None` if the history is legal, and `Memory` if
/// memory runs out.
#[tactic(auto, using(crate::proofs::VerdictLaws::legal_has_none))]
fn verdict_of(alloc: Global, history: &History) -> Result<Option<usize>, Fault>
    ensures ok { IfOk result (λ v. v ≡ first_illegal history.now.limits [] history.now.entries) }
    ensures err { IfErr result (λ e. e ≡ Memory) }
{
    match replay(alloc, history.limits, history.entries.as_slice()) {
        Ok(_) => Ok(None),
        Err(ReplayFault::Illegal { at }) => Ok(Some(at)),
        Err(ReplayFault::Memory) => Err(Fault::Memory),
    }
}

/// The verdict on the history that the reader gives.
fn read_verdict<R: Read>(alloc: Global, reader: &mut R) -> Result<Option<usize>, Fault>
    ensures ok { IfOk result (λ v. (h : History) × IsGivenHistory (R.remaining reader.old) h × (v ≡ first_illegal h.limits [] h.entries)) }
    ensures err { IfErr result (λ e. IsEarlyFault history_fault (R.remaining reader.old) e) }
{
    let history = read_document(alloc, reader)?;
    let verdict = verdict_of(alloc, &history)?;
    Ok(verdict)
}

#[tactic(auto, using(crate::proofs::StreamLaws::fronts))]
fn put_verdict<W: Write>(writer: &mut W, verdict: Option<usize>) -> Result<(), Fault>
    ensures ok { OnOk result (Appends (W.contents writer.old) (W.contents writer.new) (verdict_text verdict)) }
    ensures err { IfErr result (λ e. e ≡ NotWritten) }
    ensures front { TakesFront (W.contents writer.old) (W.contents writer.new) (verdict_text verdict) }
{
    match verdict {
        None => write_whole(writer, b"legal\n"),
        Some(at) => {
            put_numbered(writer, "illegal ", at as u64)?;
            write_whole(writer, b"\n")
        }
    }
}

/// Reads the document of a history, and writes the verdict on it. It gives `true` if, and only if, the history is legal. An
/// illegal history is no fault. Source: this profile.
///
/// The verdict is `legal`, or `illegal` and the place of the first entry that may not come there, counted from 0. A line
/// feed ends it. The document has at most 8,388,608 bytes, read in at most 16,777,216 calls of the reader. The faults:
///
/// - `Script`: the input is too long, or is no history.
/// - `Read`: the reader fails.
/// - `Memory`: memory runs out.
/// - `Write`: the writer fails or takes no byte. It then has a prefix of the text.
///
/// Nothing is written before any fault but `Write`. The writer is not flushed. If it keeps bytes back, the caller flushes
/// it.
pub fn check<R: Read, W: Write>(
    alloc: Global,
    reader: &mut R,
    writer: &mut W,
) -> Result<bool, Fault>
    // The verdict of the definition on the history that the reader gave.
    ensures ok { IfOk result (λ legal. (h : History) × IsGivenHistory (R.remaining reader.old) h × (legal ≡ is_legal h.limits h.entries)
        × Appends (W.contents writer.old) (W.contents writer.new) (verdict_text (first_illegal h.limits [] h.entries))) }

    // A writer that fails has taken a prefix of the text.
    ensures write { result ≡ Err NotWritten → (h : History) × IsGivenHistory (R.remaining reader.old) h
        × TakesFront (W.contents writer.old) (W.contents writer.new) (verdict_text (first_illegal h.limits [] h.entries)) }

    // Every other fault comes before anything is written.
    ensures fault { IfErr result (λ e. e ≢ NotWritten → IsEarlyFault history_fault (R.remaining reader.old) e) }
    ensures unwritten { IfErr result (λ e. e ≢ NotWritten → Keeps (W.contents writer.old) (W.contents writer.new)) }
{
    let verdict = read_verdict(alloc, reader)?;
    put_verdict(writer, verdict)?;
    Ok(verdict.is_none())
}

ghost use Rattle.std.specs.Prelude.{◌≡◌, ◌≢◌, [], Option, IfOk, OnOk, IfErr, Err};
ghost use Rattle.std.specs.Io.KnownBytes.{Appends, Keeps};
ghost use Rattle.ti_replay.specs.Legal.{first_illegal, is_legal};
ghost use Rattle.ti_script.specs.declared.history.History.{History};
ghost use Rattle.ti_script.specs.Histories.{history_fault};
ghost use Rattle.ti_driver.specs.declared.fault.Fault.TheVariants.{Memory, Write as NotWritten};
ghost use Rattle.ti_driver.specs.Streams.{TakesFront};
ghost use Rattle.ti_driver.specs.Runs.{IsGivenHistory, IsEarlyFault, verdict_text};
