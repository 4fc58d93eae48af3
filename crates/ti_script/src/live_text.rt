//! The texts of a live run's replies, refused operations and verdicts.
//!
//! Each function here adds its text to the end of `out`. It takes no memory if `out` has room for the text. An error says
//! that there was no room, and that memory ran out. Then a prefix of the text has been added.

use crate::names::Names;
use crate::text::{put_answer, put_counted, put_look, put_name, put_number, put_text};
use std::alloc::AllocError;
use ti_live::{Listed, Refusal, Reply};
use ti_types::{Frame, StackInfo};

/// Adds a name, a space and a number.
fn put_numbered(out: &mut String, name: &str, number: u64) -> Result<(), AllocError>
    ensures { Adds result (written out.old) (written out.new) (numbered_text name.now number) }
{
    put_text(out, name)?;
    put_counted(out, " ", number)
}

/// Adds a space and a code.
fn put_code_behind(out: &mut String, code: u32) -> Result<(), AllocError>
    ensures { Adds result (written out.old) (written out.new) (codes " " ++ decimal code) }
{
    put_counted(out, " ", u64::from(code))
}

/// Adds a space and a code, for each code.
fn put_codes(out: &mut String, numbers: &[u32]) -> Result<(), AllocError>
    ensures { Adds result (written out.old) (written out.new) (codes_text numbers.now) }
{
    for i in 0..numbers.len() {
        put_code_behind(out, numbers[i])?;
    }
    Ok(())
}

/// Adds a thread's name, its state bits and its frames.
fn put_info(
    out: &mut String,
    threads: &Names,
    methods: &Names,
    info: &StackInfo,
) -> Result<(), AllocError>
    ensures { Adds result (written out.old) (written out.new) (info_text threads.now methods.now info.now) }
{
    put_name(out, threads, info.thread.0)?;
    put_look(out, " ", methods, info.state, info.frames.frames())
}

/// Adds a bar and a stack.
fn put_info_behind(
    out: &mut String,
    threads: &Names,
    methods: &Names,
    info: &StackInfo,
) -> Result<(), AllocError>
    ensures { Adds result (written out.old) (written out.new) (codes " | " ++ info_text threads.now methods.now info.now) }
{
    put_text(out, " | ")?;
    put_info(out, threads, methods, info)
}

/// Adds a bar and a stack, for each stack.
fn put_infos(
    out: &mut String,
    threads: &Names,
    methods: &Names,
    infos: &[StackInfo],
) -> Result<(), AllocError>
    ensures { Adds result (written out.old) (written out.new) (infos_text threads.now methods.now infos.now) }
{
    for i in 0..infos.len() {
        put_info_behind(out, threads, methods, &infos[i])?;
    }
    Ok(())
}

fn put_reply_codes(out: &mut String, numbers: &[u32]) -> Result<(), AllocError>
    ensures { Adds result (written out.old) (written out.new) (codes "codes" ++ codes_text numbers.now) }
{
    put_text(out, "codes")?;
    put_codes(out, numbers)
}

fn put_stacks(
    out: &mut String,
    threads: &Names,
    methods: &Names,
    infos: &[StackInfo],
) -> Result<(), AllocError>
    ensures { Adds result (written out.old) (written out.new) (codes "stacks" ++ infos_text threads.now methods.now infos.now) }
{
    put_text(out, "stacks")?;
    put_infos(out, threads, methods, infos)
}

/// Adds the text of a reply. An answer has the text that it has in a walk. Codes are `codes 0 10`, and stacks are `stacks |
/// t0 0x5 a@3 | t1 0x0`. Each stack has its thread's name, its state bits, and its frames, the newest first.
///
/// A number without a name adds no name. Source: this profile.
#[tactic(auto, using(crate::proofs::RoomLaws::lengths, crate::proofs::FrontLaws::fronts))]
pub fn reply_text(
    out: &mut String,
    threads: &Names,
    methods: &Names,
    reply: &Reply,
) -> Result<(), AllocError>
    ensures ok { OnOk result (string_bytes out.new ≡ string_bytes out.old ++ reply_text threads.now methods.now reply.now) }
    ensures len { OnOk result (string_len out.new ≡ string_len out.old + length (reply_text threads.now methods.now reply.now)) }
    ensures room { string_capacity out.old ≤ string_capacity out.new }
    ensures full { OnErr result (string_capacity out.old < string_len out.old + length (reply_text threads.now methods.now reply.now)) }
    ensures front { AddsFront (string_bytes out.old) (string_bytes out.new) (reply_text threads.now methods.now reply.now) }
{
    match reply {
        Reply::Plain(answer) => put_answer(out, methods, answer),
        Reply::Codes(numbers) => put_reply_codes(out, numbers.as_slice()),
        Reply::Stacks(infos) => put_stacks(out, threads, methods, infos.as_slice()),
    }
}

/// Adds a space, a reply and a line feed.
fn put_reply_behind(
    out: &mut String,
    threads: &Names,
    methods: &Names,
    reply: &Reply,
) -> Result<(), AllocError>
    ensures { Adds result (written out.old) (written out.new) (codes " " ++ (reply_text threads.now methods.now reply.now ++ codes "\n")) }
{
    put_text(out, " ")?;
    reply_text(out, threads, methods, reply)?;
    put_text(out, "\n")
}

/// Adds the line of a reply: the agent's name, the call's number from 0, the reply's text, and a line feed. Source: this
/// profile.
#[tactic(auto, using(crate::proofs::RoomLaws::lengths, crate::proofs::FrontLaws::fronts))]
pub fn reply_line(
    out: &mut String,
    threads: &Names,
    methods: &Names,
    agent: &str,
    number: usize,
    reply: &Reply,
) -> Result<(), AllocError>
    ensures ok { OnOk result (string_bytes out.new ≡ string_bytes out.old ++ reply_line threads.now methods.now agent.now number reply.now) }
    ensures len { OnOk result (string_len out.new ≡ string_len out.old + length (reply_line threads.now methods.now agent.now number reply.now)) }
    ensures room { string_capacity out.old ≤ string_capacity out.new }
    ensures full { OnErr result (string_capacity out.old < string_len out.old + length (reply_line threads.now methods.now agent.now number reply.now)) }
    ensures front { AddsFront (string_bytes out.old) (string_bytes out.new) (reply_line threads.now methods.now agent.now number reply.now) }
{
    put_numbered(out, agent, number as u64)?;
    put_reply_behind(out, threads, methods, reply)
}

/// Adds a word, a number and a line feed.
fn put_line_end(out: &mut String, word: &str, number: u64) -> Result<(), AllocError>
    ensures { Adds result (written out.old) (written out.new) (word.now ++ (decimal number ++ codes "\n")) }
{
    put_text(out, word)?;
    put_number(out, number)?;
    put_text(out, "\n")
}

/// Adds the line of a refused operation: the thread's name, the operation's number from 0, `error`, the error's number, and
/// a line feed. Source: this profile.
#[tactic(auto, using(crate::proofs::RoomLaws::lengths, crate::proofs::FrontLaws::fronts))]
pub fn refusal_line(out: &mut String, thread: &str, refusal: Refusal) -> Result<(), AllocError>
    ensures ok { OnOk result (string_bytes out.new ≡ string_bytes out.old ++ refusal_line thread.now refusal) }
    ensures len { OnOk result (string_len out.new ≡ string_len out.old + length (refusal_line thread.now refusal)) }
    ensures room { string_capacity out.old ≤ string_capacity out.new }
    ensures full { OnErr result (string_capacity out.old < string_len out.old + length (refusal_line thread.now refusal)) }
    ensures front { AddsFront (string_bytes out.old) (string_bytes out.new) (refusal_line thread.now refusal) }
{
    put_numbered(out, thread, u64::from(refusal.operation))?;
    put_line_end(out, " error ", u64::from(refusal.error))
}

/// Adds the verdict on a thread's history: the thread's name, then `legal`, or `illegal` and the place of its first illegal
/// entry, counted from 0. A line feed ends it. Source: this profile.
#[tactic(auto, using(crate::proofs::RoomLaws::lengths, crate::proofs::FrontLaws::fronts))]
pub fn verdict_line(
    out: &mut String,
    thread: &str,
    illegal: Option<usize>,
) -> Result<(), AllocError>
    ensures ok { OnOk result (string_bytes out.new ≡ string_bytes out.old ++ verdict_line thread.now illegal) }
    ensures len { OnOk result (string_len out.new ≡ string_len out.old + length (verdict_line thread.now illegal)) }
    ensures room { string_capacity out.old ≤ string_capacity out.new }
    ensures full { OnErr result (string_capacity out.old < string_len out.old + length (verdict_line thread.now illegal)) }
    ensures front { AddsFront (string_bytes out.old) (string_bytes out.new) (verdict_line thread.now illegal) }
{
    out.push_str(thread)?;
    match illegal {
        None => out.push_str(" legal\n"),
        Some(at) => put_line_end(out, " illegal ", at as u64),
    }
}

/// Adds the lines of one agent's replies, with its calls numbered from 0. Source: this profile.
pub fn replies_text(
    out: &mut String,
    threads: &Names,
    methods: &Names,
    agent: &str,
    replies: &[Reply],
) -> Result<(), AllocError>
    ensures ok { OnOk result (string_bytes out.new ≡ string_bytes out.old ++ replies_text threads.now methods.now agent.now 0 replies.now) }
    ensures len { OnOk result (string_len out.new ≡ string_len out.old + length (replies_text threads.now methods.now agent.now 0 replies.now)) }
    ensures room { string_capacity out.old ≤ string_capacity out.new }
    ensures full { OnErr result (string_capacity out.old < string_len out.old + length (replies_text threads.now methods.now agent.now 0 replies.now)) }
    ensures front { AddsFront (string_bytes out.old) (string_bytes out.new) (replies_text threads.now methods.now agent.now 0 replies.now) }
{
    for i in 0..replies.len() {
        reply_line(out, threads, methods, agent, i, &replies[i])?;
    }
    Ok(())
}

/// Adds the lines of the replies of the agent of this number.
fn put_agent(
    out: &mut String,
    threads: &Names,
    agents: &Names,
    methods: &Names,
    number: u32,
    replies: &Listed<Reply>,
) -> Result<(), AllocError>
    ensures { Adds result (written out.old) (written out.new) (replies_text threads.now methods.now (name_text agents.now number) 0 replies.now) }
{
    let agent = agents.name(number).unwrap_or("");
    replies_text(out, threads, methods, agent, replies.as_slice())
}

/// Adds the lines of the replies of all agents, in the order of their numbers. There may be at most 65,536 agents. Source:
/// this profile.
pub fn agents_text(
    out: &mut String,
    threads: &Names,
    agents: &Names,
    methods: &Names,
    replies: &[Listed<Reply>],
) -> Result<(), AllocError>
    requires { length replies.now ≤ 65536 }
    ensures ok { OnOk result (string_bytes out.new ≡ string_bytes out.old ++ agents_text threads.now agents.now methods.now 0 replies.now) }
    ensures len { OnOk result (string_len out.new ≡ string_len out.old + length (agents_text threads.now agents.now methods.now 0 replies.now)) }
    ensures room { string_capacity out.old ≤ string_capacity out.new }
    ensures full { OnErr result (string_capacity out.old < string_len out.old + length (agents_text threads.now agents.now methods.now 0 replies.now)) }
    ensures front { AddsFront (string_bytes out.old) (string_bytes out.new) (agents_text threads.now agents.now methods.now 0 replies.now) }
{
    for i in 0..replies.len() {
        put_agent(out, threads, agents, methods, i as u32, &replies[i])?;
    }
    Ok(())
}

/// Adds the lines of a thread's refused operations.
fn refusals_text(out: &mut String, thread: &str, refused: &[Refusal]) -> Result<(), AllocError>
    ensures { Adds result (written out.old) (written out.new) (refusals_text thread.now refused.now) }
{
    for i in 0..refused.len() {
        refusal_line(out, thread, refused[i])?;
    }
    Ok(())
}

/// Adds the lines of one thread: one for each refused operation, and then the verdict on its history. Source: this profile.
#[tactic(auto, using(crate::proofs::RoomLaws::lengths, crate::proofs::FrontLaws::fronts))]
pub fn thread_text(
    out: &mut String,
    thread: &str,
    refused: &[Refusal],
    illegal: Option<usize>,
) -> Result<(), AllocError>
    ensures ok { OnOk result (string_bytes out.new ≡ string_bytes out.old ++ thread_text thread.now refused.now illegal) }
    ensures len { OnOk result (string_len out.new ≡ string_len out.old + length (thread_text thread.now refused.now illegal)) }
    ensures room { string_capacity out.old ≤ string_capacity out.new }
    ensures full { OnErr result (string_capacity out.old < string_len out.old + length (thread_text thread.now refused.now illegal)) }
    ensures front { AddsFront (string_bytes out.old) (string_bytes out.new) (thread_text thread.now refused.now illegal) }
{
    refusals_text(out, thread, refused)?;
    verdict_line(out, thread, illegal)
}

ghost use Rattle.std.specs.Prelude.{◌≡◌, ◌++◌, ◌+◌, ◌≤◌, ◌<◌, codes, length, decimal, string_bytes, OnOk, OnErr};
ghost use Rattle.std.specs.String.{string_len, string_capacity};
ghost use Rattle.ti_script.specs.Texts.{bits_text, frames_text, written, Adds, AddsFront};
ghost use Rattle.ti_script.specs.LiveTexts.{name_text, numbered_text, codes_text, infos_text, info_text, reply_text, replies_text, agents_text, reply_line, refusal_line, refusals_text, verdict_line, thread_text};
