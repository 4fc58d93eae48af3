//! Bounds for the lengths of a live run's lines, found without making the lines.

use ti_live::Reply;
use ti_types::{Answer, StackInfo};

/// At most this many bytes are in the text of a code, or in that of a stack besides its names and frames.
const PART: usize = 128;

/// At most this many bytes are in a frame's text besides its method's name. The space before the frame counts.
const FRAME: usize = 66;

/// At most this many bytes are in a line besides its names, frames, codes and stacks.
const LINE: usize = 256;

/// How many frames the text of an answer has.
fn frames_told(answer: &Answer) -> usize
    ensures { result ≡ frames_told answer.now }
{
    match answer {
        Answer::Trace(trace) => trace.frames().len(),
        Answer::Stack { frames, .. } => frames.frames().len(),
        Answer::Location(_) => 1,
        _ => 0,
    }
}

/// How many frames these stacks have in all. `None` if that is no `usize`.
fn frames_listed(infos: &[StackInfo]) -> Option<usize>
    ensures { IfSome result (λ n. n ≡ frames_listed infos.now) }
{
    let mut count = 0usize;
    for i in 0..infos.len() {
        count = count.checked_add(infos[i].frames.frames().len())?;
    }
    Some(count)
}

/// How many frames a reply's text has. `None` if that is no `usize`.
fn frames_replied(reply: &Reply) -> Option<usize>
    ensures { IfSome result (λ n. n ≡ frames_replied reply.now) }
{
    match reply {
        Reply::Plain(answer) => Some(frames_told(answer)),
        Reply::Codes(_) => Some(0),
        Reply::Stacks(infos) => frames_listed(infos.as_slice()),
    }
}

/// How many codes or stacks a reply has.
fn parts_replied(reply: &Reply) -> usize
    ensures { result ≡ parts_replied reply.now }
{
    match reply {
        Reply::Plain(_) => 0,
        Reply::Codes(numbers) => numbers.as_slice().len(),
        Reply::Stacks(infos) => infos.as_slice().len(),
    }
}

/// `count * each + more`, or `None` if that is no `usize`.
fn sum_of(count: usize, each: usize, more: usize) -> Option<usize>
    ensures { IfSome result (λ n. n ≡ count * each + more) }
{
    count.checked_mul(each)?.checked_add(more)
}

/// A length in bytes that the line of a reply does not exceed, whatever the call's number. No agent's or thread's name may
/// be longer than `longest_name` bytes, and no method's than `longest_method`. It looks at each stack of the reply.
///
/// `None` if this length is no `usize`.
#[tactic(auto, using(crate::proofs::LiveBoundLaws::line_of_reply))]
pub fn reply_bound(longest_name: usize, longest_method: usize, reply: &Reply) -> Option<usize>
    ensures { IfSome result (AreRepliesWithin longest_name longest_method reply.now) }
{
    let frame = longest_method.checked_add(FRAME)?;
    let part = longest_name.checked_add(PART)?;
    let parts = parts_replied(reply).checked_add(1)?;
    let more = sum_of(parts, part, PART)?;
    let frames = frames_replied(reply)?;
    sum_of(frames, frame, more)
}

/// A length in bytes that neither the line of a refused operation nor a verdict exceeds. No thread's name may be longer than
/// `longest_name` bytes. `None` if this length is no `usize`.
#[tactic(auto, using(crate::proofs::LiveBoundLaws::refusals_within, crate::proofs::LiveBoundLaws::verdicts_within))]
pub fn thread_line_bound(longest_name: usize) -> Option<usize>
    ensures refusals { IfSome result (AreRefusalsWithin longest_name) }
    ensures verdicts { IfSome result (AreVerdictsWithin longest_name) }
    ensures none { IfNone result (2 ^ 64 ≤ longest_name + 256) }
{
    longest_name.checked_add(LINE)
}

ghost use Rattle.std.specs.Prelude.{◌≡◌, ◌≤◌, ◌+◌, ◌*◌, ◌^◌, IfSome, IfNone};
ghost use Rattle.ti_script.specs.Bounds.{frames_told};
ghost use Rattle.ti_script.specs.LiveBounds.{frames_listed, frames_replied, parts_replied, AreRepliesWithin, AreRefusalsWithin, AreVerdictsWithin};
