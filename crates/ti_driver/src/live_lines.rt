//! Writes the lines of a live run's report in chunks, as `lines` writes those of a walk.
//!
//! They are written for a report whose histories are all legal. This is so for each report that fits its script.

use crate::fault::Fault;
use crate::lines::{CHUNK, ESTIMATE, send_chunk};
use crate::output::write_whole;
use std::alloc::{AllocError, Global};
use std::io::Write;
use ti_live::{Listed, LiveReport, Refusal, Reply};
use ti_script::{Cast, refusal_line, reply_bound, reply_line, thread_line_bound, verdict_line};

/// The name of the agent of this number.
fn agent_name(names: &Cast, number: u32) -> &str
    ensures { result.now ≡ name_text names.now.agents number }
{
    names.agents.name(number).unwrap_or("")
}

/// The name of the thread of this number.
fn thread_name(names: &Cast, number: u32) -> &str
    ensures { result.now ≡ name_text names.now.threads number }
{
    names.threads.name(number).unwrap_or("")
}

/// A length in bytes that no name of a thread or an agent exceeds.
fn longest_name(names: &Cast) -> usize
    ensures threads { AreNamesWithin result names.now.threads }
    ensures agents { AreNamesWithin result names.now.agents }
{
    names.threads.longest().max(names.agents.longest())
}

/// A length in bytes that the line of a reply does not exceed. It is the line's bound, if that is small. Otherwise the line
/// is made and measured. No name may be longer than these two lengths.
fn reply_room(
    line: &mut String,
    names: &Cast,
    longest_name: usize,
    longest_method: usize,
    agent: &str,
    number: usize,
    reply: &Reply,
) -> Result<usize, AllocError>
    requires threads { AreNamesWithin longest_name names.now.threads }
    requires methods { AreNamesWithin longest_method names.now.methods }
    requires agent { length agent.now ≤ longest_name }
    ensures { IfOk result (λ n. length (reply_line names.now.threads names.now.methods agent.now number reply.now) ≤ n) }
{
    if let Some(bound) = reply_bound(longest_name, longest_method, reply) {
        if bound <= ESTIMATE {
            return Ok(bound);
        }
    }
    line.clear();
    reply_line(line, &names.threads, &names.methods, agent, number, reply)?;
    Ok(line.len())
}

/// A length in bytes that no line of one agent's replies exceeds.
fn longest_reply(
    line: &mut String,
    names: &Cast,
    longest_name: usize,
    longest_method: usize,
    agent: &str,
    replies: &[Reply],
) -> Result<usize, AllocError>
    requires threads { AreNamesWithin longest_name names.now.threads }
    requires methods { AreNamesWithin longest_method names.now.methods }
    requires agent { length agent.now ≤ longest_name }
    ensures { IfOk result (λ n. AreReplyLinesWithin n names.now agent.now 0 replies.now) }
{
    let mut longest = 0;
    for (number, reply) in replies.iter().enumerate() {
        let room = reply_room(
            line,
            names,
            longest_name,
            longest_method,
            agent,
            number,
            reply,
        )?;
        longest = longest.max(room);
    }
    Ok(longest)
}

/// A length in bytes that no line of the agents' replies exceeds. No thread's or agent's name may be longer than
/// `longest_name` bytes.
fn longest_of_agents(
    alloc: Global,
    names: &Cast,
    longest_name: usize,
    agents: &[Listed<Reply>],
) -> Result<usize, AllocError>
    requires few { length agents.now ≤ 65536 }
    requires threads { AreNamesWithin longest_name names.now.threads }
    requires agents { AreNamesWithin longest_name names.now.agents }
    ensures { IfOk result (λ n. AreAgentLinesWithin n names.now 0 agents.now) }
{
    let longest_method = names.methods.longest();
    let mut line = String::new(alloc);
    let mut longest = 0;
    for (number, replies) in agents.iter().enumerate() {
        let agent = agent_name(names, number as u32);
        let one = longest_reply(
            &mut line,
            names,
            longest_name,
            longest_method,
            agent,
            replies.as_slice(),
        )?;
        longest = longest.max(one);
    }
    Ok(longest)
}

/// An empty text that has room for a chunk and the longest line of this report. The error is lack of memory.
fn room_for_report(alloc: Global, names: &Cast, report: &LiveReport) -> Result<String, AllocError>
    requires few { length report.now.replies ≤ 65536 }
    ensures empty { IfOk result (λ text. string_bytes text ≡ []) }
    ensures short { IfOk result (λ text. string_len text ≡ 0) }
    ensures agents { IfOk result (λ text. HasRoomFor (string_capacity text) (λ most. AreAgentLinesWithin most names.now 0 report.now.replies)) }
    ensures threads { IfOk result (λ text. HasRoomFor (string_capacity text) (λ most. (number : ℕ) → AreThreadLinesWithin most (name_text names.now.threads number))) }
{
    let longest_name = longest_name(names);
    let of_agents = longest_of_agents(alloc, names, longest_name, report.replies.as_slice())?;
    let Some(of_threads) = thread_line_bound(longest_name) else {
        return Err(AllocError);
    };
    let Some(room) = CHUNK.checked_add(of_agents.max(of_threads)) else {
        return Err(AllocError);
    };
    String::with_capacity(alloc, room)
}

/// Adds the line of a reply, for which there is room.
fn add_reply(text: &mut String, names: &Cast, agent: &str, number: usize, reply: &Reply)
    requires { string_len text.old + length (reply_line names.now.threads names.now.methods agent.now number reply.now) ≤ string_capacity text.old }
    ensures bytes { string_bytes text.new ≡ string_bytes text.old ++ reply_line names.now.threads names.now.methods agent.now number reply.now }
    ensures room { string_capacity text.old ≤ string_capacity text.new }
{
    match reply_line(text, &names.threads, &names.methods, agent, number, reply) {
        Ok(()) => (),
        Err(_) => unreachable!(),
    }
}

/// Adds the line of a refused operation, for which there is room.
fn add_refusal(text: &mut String, thread: &str, refusal: Refusal)
    requires { string_len text.old + length (refusal_line thread.now refusal) ≤ string_capacity text.old }
    ensures bytes { string_bytes text.new ≡ string_bytes text.old ++ refusal_line thread.now refusal }
    ensures room { string_capacity text.old ≤ string_capacity text.new }
{
    match refusal_line(text, thread, refusal) {
        Ok(()) => (),
        Err(_) => unreachable!(),
    }
}

/// Adds the line that says that a thread's history is legal. There is room for it.
fn add_legal(text: &mut String, thread: &str)
    requires { string_len text.old + length (verdict_line thread.now NoPlace) ≤ string_capacity text.old }
    ensures bytes { string_bytes text.new ≡ string_bytes text.old ++ verdict_line thread.now NoPlace }
    ensures room { string_capacity text.old ≤ string_capacity text.new }
{
    match verdict_line(text, thread, None) {
        Ok(()) => (),
        Err(_) => unreachable!(),
    }
}

/// Writes the lines of one agent's replies after the text, in chunks. The last chunk stays in the text.
fn put_replies<W: Write>(
    writer: &mut W,
    text: &mut String,
    names: &Cast,
    agent: &str,
    replies: &[Reply],
) -> Result<(), Fault>
    requires short { string_len text.old < 65536 }
    requires room { HasRoomFor (string_capacity text.old) (λ most. AreReplyLinesWithin most names.now agent.now 0 replies.now) }
    ensures { Puts result (W.contents writer.old) (W.contents writer.new) (written text.old) (written text.new) (replies_text names.now.threads names.now.methods agent.now 0 replies.now) }
{
    for (number, reply) in replies.iter().enumerate() {
        add_reply(text, names, agent, number, reply);
        send_chunk(writer, text)?;
    }
    Ok(())
}

/// Writes the lines of the agents' replies after the text, agent by agent.
fn put_agents<W: Write>(
    writer: &mut W,
    text: &mut String,
    names: &Cast,
    agents: &[Listed<Reply>],
) -> Result<(), Fault>
    requires few { length agents.now ≤ 65536 }
    requires short { string_len text.old < 65536 }
    requires room { HasRoomFor (string_capacity text.old) (λ most. AreAgentLinesWithin most names.now 0 agents.now) }
    ensures { Puts result (W.contents writer.old) (W.contents writer.new) (written text.old) (written text.new) (agents_text names.now.threads names.now.agents names.now.methods 0 agents.now) }
{
    for (number, replies) in agents.iter().enumerate() {
        let agent = agent_name(names, number as u32);
        put_replies(writer, text, names, agent, replies.as_slice())?;
    }
    Ok(())
}

/// Writes the lines of one thread's refused operations after the text.
fn put_refusals<W: Write>(
    writer: &mut W,
    text: &mut String,
    thread: &str,
    refused: &[Refusal],
) -> Result<(), Fault>
    requires short { string_len text.old < 65536 }
    requires room { HasRoomFor (string_capacity text.old) (λ most. AreThreadLinesWithin most thread.now) }
    ensures { Puts result (W.contents writer.old) (W.contents writer.new) (written text.old) (written text.new) (refusals_text thread.now refused.now) }
{
    for (index, refusal) in refused.iter().enumerate() {
        add_refusal(text, thread, *refusal);
        send_chunk(writer, text)?;
    }
    Ok(())
}

/// Writes, after the text, the line that says that a thread's history is legal.
fn put_legal<W: Write>(writer: &mut W, text: &mut String, thread: &str) -> Result<(), Fault>
    requires short { string_len text.old < 65536 }
    requires room { HasRoomFor (string_capacity text.old) (λ most. AreThreadLinesWithin most thread.now) }
    ensures { Puts result (W.contents writer.old) (W.contents writer.new) (written text.old) (written text.new) (verdict_line thread.now NoPlace) }
{
    add_legal(text, thread);
    send_chunk(writer, text)
}

/// Writes the lines of one thread, whose history is legal, after the text.
fn put_thread<W: Write>(
    writer: &mut W,
    text: &mut String,
    thread: &str,
    refused: &[Refusal],
) -> Result<(), Fault>
    requires short { string_len text.old < 65536 }
    requires room { HasRoomFor (string_capacity text.old) (λ most. AreThreadLinesWithin most thread.now) }
    ensures { Puts result (W.contents writer.old) (W.contents writer.new) (written text.old) (written text.new) (thread_text thread.now refused.now NoPlace) }
{
    put_refusals(writer, text, thread, refused)?;
    put_legal(writer, text, thread)
}

/// Writes the lines of the threads, whose histories are legal, after the text.
fn put_threads<W: Write>(
    writer: &mut W,
    text: &mut String,
    names: &Cast,
    threads: &[Listed<Refusal>],
) -> Result<(), Fault>
    requires few { length threads.now ≤ 65536 }
    requires short { string_len text.old < 65536 }
    requires room { HasRoomFor (string_capacity text.old) (λ most. (number : ℕ) → AreThreadLinesWithin most (name_text names.now.threads number)) }
    ensures { Puts result (W.contents writer.old) (W.contents writer.new) (written text.old) (written text.new) (threads_text (λ _. NoPlace) names.now.threads 0 threads.now) }
{
    for (number, refused) in threads.iter().enumerate() {
        let thread = thread_name(names, number as u32);
        put_thread(writer, text, thread, refused.as_slice())?;
    }
    Ok(())
}

/// Writes the lines of a report whose histories are all legal. The text is empty, and has room for a chunk and the longest
/// line.
fn put_report<W: Write>(
    writer: &mut W,
    text: &mut String,
    names: &Cast,
    report: &LiveReport,
) -> Result<(), Fault>
    requires few { (length report.now.replies ≤ 65536) × (length report.now.refused ≤ 65536) }
    requires empty { string_bytes text.old ≡ [] }
    requires short { string_len text.old ≡ 0 }
    requires agents { HasRoomFor (string_capacity text.old) (λ most. AreAgentLinesWithin most names.now 0 report.now.replies) }
    requires threads { HasRoomFor (string_capacity text.old) (λ most. (number : ℕ) → AreThreadLinesWithin most (name_text names.now.threads number)) }
    ensures ok { OnOk result (Appends (W.contents writer.old) (W.contents writer.new) (sound_text names.now report.now)) }
    ensures err { IfErr result (λ e. e ≡ NotWritten) }
    ensures front { TakesFront (W.contents writer.old) (W.contents writer.new) (sound_text names.now report.now) }
{
    put_agents(writer, text, names, report.replies.as_slice())?;
    put_threads(writer, text, names, report.refused.as_slice())?;
    write_whole(writer, text.as_bytes())
}

/// Writes the lines of a report whose histories are all legal, in chunks of 64 KB and a line. All of its memory is taken
/// before the first byte is written.
pub(crate) fn write_report<W: Write>(
    alloc: Global,
    writer: &mut W,
    names: &Cast,
    report: &LiveReport,
) -> Result<(), Fault>
    requires few { (length report.now.replies ≤ 65536) × (length report.now.refused ≤ 65536) }
    ensures ok { OnOk result (Appends (W.contents writer.old) (W.contents writer.new) (sound_text names.now report.now)) }
    ensures fault { IfErr result (λ e. e ≢ NotWritten → e ≡ Memory) }
    ensures front { result ≡ Err NotWritten → TakesFront (W.contents writer.old) (W.contents writer.new) (sound_text names.now report.now) }
    ensures unwritten { IfErr result (λ e. e ≢ NotWritten → Keeps (W.contents writer.old) (W.contents writer.new)) }
{
    let mut text = room_for_report(alloc, names, report)?;
    put_report(writer, &mut text, names, report)
}

ghost use Rattle.std.specs.Prelude.{◌≡◌, ◌≢◌, ◌+◌, ◌++◌, ◌≤◌, ◌<◌, [], length, ℕ, None as NoPlace, IfOk, OnOk, IfErr, Err, string_bytes};
ghost use Rattle.std.specs.Io.KnownBytes.{Appends, Keeps};
ghost use Rattle.std.specs.String.{string_len, string_capacity};
ghost use Rattle.ti_script.specs.Bounds.{AreNamesWithin};
ghost use Rattle.ti_script.specs.Texts.{written};
ghost use Rattle.ti_script.specs.LiveTexts.{name_text, reply_line, replies_text, agents_text, refusal_line, refusals_text, verdict_line, thread_text};
ghost use Rattle.ti_driver.specs.declared.fault.Fault.TheVariants.{Memory, Write as NotWritten};
ghost use Rattle.ti_driver.specs.ReportLines.{AreReplyLinesWithin, AreAgentLinesWithin, AreThreadLinesWithin, HasRoomFor};
ghost use Rattle.ti_driver.specs.Reports.{threads_text, sound_text};
ghost use Rattle.ti_driver.specs.Streams.{TakesFront, Puts};
