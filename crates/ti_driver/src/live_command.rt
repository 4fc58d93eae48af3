//! Reads a live script, runs it, and writes its report.

use crate::fault::Fault;
use crate::input::read_input;
use crate::live_lines::write_report;
use std::alloc::Global;
use std::io::{Read, Write};
use std::sync::Wait;
use std::thread::Threads;
use ti_live::{LiveReport, Script};
use ti_runner::{Open, run_live};
use ti_script::{Cast, Live, read_live};

/// The live script that the reader gives.
#[tactic(auto, using(crate::proofs::VerdictLaws::early_from_read))]
fn read_document<R: Read>(alloc: Global, reader: &mut R) -> Result<Live, Fault>
    ensures ok { IfOk result (λ l. IsGivenLive (R.remaining reader.old) l) }
    ensures err { IfErr result (λ e. IsEarlyFault live_fault (R.remaining reader.old) e) }
{
    let input = read_input(alloc, reader)?;
    let live = read_live(alloc, &input)?;
    Ok(live)
}

/// The report of a run in which nothing ends a list early. `Cell` also if the report says that something did.
fn run_whole<H: Threads + Wait + Sync + AllocGlobal>(
    rt: &H,
    script: &Script,
) -> Result<LiveReport, Fault>
    ensures ok { IfOk result (λ report. IsReportOf script.now report) }
    ensures err { IfErr result (λ e. IsRunFault e) }
{
    let report = run_live(rt, script, &Open)?;
    if report.spent {
        return Err(Fault::Cell);
    }
    Ok(report)
}

/// Runs a live script, and writes the text of its report.
fn write_live<H: Threads + Wait + Sync + AllocGlobal, W: Write>(
    rt: &H,
    live: Live,
    writer: &mut W,
) -> Result<(), Fault>
    ensures ok { OnOk result ((report : LiveReport) × IsReportOf (script_of live) report × Appends (W.contents writer.old) (W.contents writer.new) (report_text live report)) }
    ensures fault { IfErr result (λ e. e ≢ NotWritten → IsRunFault e) }
    ensures front { result ≡ Err NotWritten → (report : LiveReport) × IsReportOf (script_of live) report × TakesFront (W.contents writer.old) (W.contents writer.new) (report_text live report) }
    ensures unwritten { IfErr result (λ e. e ≢ NotWritten → Keeps (W.contents writer.old) (W.contents writer.new)) }
{
    let Live {
        limits,
        threads,
        agents,
        methods,
        walks,
        calls,
    } = live;
    let names = Cast {
        threads,
        agents,
        methods,
    };
    let script = Script {
        limits,
        walks,
        calls,
    };
    let report = run_whole(rt, &script)?;
    write_report(rt.alloc(), writer, &names, &report)
}

/// Reads the document of a live script, runs it, and writes the text of the report. Each thread and each agent of the script
/// has a thread of the operating system. Source: this profile.
///
/// The text has a line for each call with its reply, agent by agent. Then it has, thread by thread, a line for each refused
/// operation, and one with the verdict on the thread's history.
///
/// For every schedule, the report fits the script. Each call was made, and each reply is what the thread's own history
/// replies to it. Each thread's own entries are its walk's, and each history is legal.
///
/// The document has at most 8,388,608 bytes, read in at most 16,777,216 calls of the reader. The faults:
///
/// - `Script`: the input is too long, or is no live script.
/// - `Read`: the reader fails.
/// - `Memory`: memory runs out, or a thread could not be started. The threads and agents that had started went through their
///   lists.
/// - `Cell`: a cell was in use at its end, or the report does not fit its script.
/// - `Write`: the writer fails or takes no byte. It then has a prefix of the text.
///
/// Nothing is written before any fault but `Write`. The writer is not flushed. If it keeps bytes back, the caller flushes
/// it.
///
/// Nothing is promised about when a run ends, or that it ends. A thread that is left suspended and wants to return waits for
/// ever.
pub fn live<H: Threads + Wait + Sync + AllocGlobal, R: Read, W: Write>(
    rt: &H,
    reader: &mut R,
    writer: &mut W,
) -> Result<(), Fault>
    // The text of a report that fits the script that the reader gave.
    ensures ok { OnOk result ((l : Live) × (report : LiveReport) × IsGivenLive (R.remaining reader.old) l × IsReportOf (script_of l) report
        × Appends (W.contents writer.old) (W.contents writer.new) (report_text l report)) }

    // A writer that fails has taken a prefix of the text.
    ensures write { result ≡ Err NotWritten → (l : Live) × (report : LiveReport) × IsGivenLive (R.remaining reader.old) l × IsReportOf (script_of l) report
        × TakesFront (W.contents writer.old) (W.contents writer.new) (report_text l report) }

    // Every other fault comes before anything is written.
    ensures fault { IfErr result (λ e. e ≢ NotWritten → IsLiveFault (R.remaining reader.old) e) }
    ensures unwritten { IfErr result (λ e. e ≢ NotWritten → Keeps (W.contents writer.old) (W.contents writer.new)) }
{
    let live = read_document(rt.alloc(), reader)?;
    write_live(rt, live, writer)
}

ghost use Rattle.std.specs.Prelude.{◌≡◌, ◌≢◌, IfOk, OnOk, IfErr, Err};
ghost use Rattle.std.specs.Io.KnownBytes.{Appends, Keeps};
ghost use Rattle.ti_live.specs.declared.report.LiveReport.{LiveReport};
ghost use Rattle.ti_script.specs.Lives.{live_fault};
ghost use Rattle.ti_script.specs.declared.live.Live.{Live};
ghost use Rattle.ti_driver.specs.declared.fault.Fault.TheVariants.{Write as NotWritten};
ghost use Rattle.ti_driver.specs.Streams.{TakesFront};
ghost use Rattle.ti_driver.specs.Runs.{IsEarlyFault};
ghost use Rattle.ti_driver.specs.Reports.{IsGivenLive, IsRunFault, IsLiveFault, IsReportOf, script_of, report_text};
