//! What is kept of a call that waits, or whose answer is not collected.

use std::collections::VecDeque;
use ti_types::{Answer, Call, EnvNo, Ticket, TraceBuf};

/// A call that waits, or whose answer is not collected.
#[derive(Drop, Debug)]
pub struct OutboxEntry {
    pub ticket: Ticket,
    pub stage: Stage,
}

/// How far a call has come.
#[derive(Drop, Debug)]
pub enum Stage {
    /// It waits, with the buffer for its answer.
    Posted { call: Call, buf: TraceBuf },
    /// It was taken, and its answer is not there yet.
    Taken,
    /// The answer is there.
    Answered(Answer),
}

/// How many calls an environment has asked, and how many of them are kept.
#[derive(Clone, Copy, Debug)]
pub struct Count {
    pub asked: u64,
    pub held: u32,
}

/// Whether this is the call of the ticket.
#[inline]
pub fn is_of(kept: &OutboxEntry, ticket: Ticket) -> bool
    ensures { result ≡ is_at kept.now.ticket ticket }
{
    kept.ticket.no == ticket.no && kept.ticket.env.0 == ticket.env.0
}

/// Whether a call's answer is there.
#[inline]
pub fn is_answered(kept: &OutboxEntry) -> bool
    ensures { result ≡ has_answer kept.now.stage }
{
    matches!(kept.stage, Stage::Answered(_))
}

/// The place of a ticket's call among the first `before` that are kept. If it is not among them, the result is `before`.
pub fn find(kept: &VecDeque<OutboxEntry>, before: usize, ticket: Ticket) -> usize
    requires { before ≤ length kept.now.items }
    ensures within { result ≤ before }
    ensures there { (d : OutboxEntry) → result < before → is_at (slice_index_or kept.now.items result d).ticket ticket ≡ true }
    ensures nowhere { result ≡ before → has ticket (take before kept.now.items) ≡ false }
{
    for at in 0..before {
        if is_of(&kept[at], ticket) {
            return at;
        }
    }
    before
}

/// The place of a ticket's call among the first `before` that are kept. It is there, and mostly the last of them.
pub fn find_last(kept: &VecDeque<OutboxEntry>, before: usize, ticket: Ticket) -> usize
    requires before { before ≤ length kept.now.items }
    requires there { has ticket (take before kept.now.items) ≡ true }
    ensures within { result < before }
    ensures there { (d : OutboxEntry) → is_at (slice_index_or kept.now.items result d).ticket ticket ≡ true }
{
    let last = before - 1;
    if is_of(&kept[last], ticket) {
        return last;
    }
    find(kept, before, ticket)
}

/// The number of this call if it is the environment's, not below `from`, and nearer to it than `next`. Otherwise `next`.
pub fn nearer(next: Option<u64>, ticket: Ticket, env: EnvNo, from: u64) -> Option<u64>
    ensures { result ≡ nearer_of env from next ticket }
{
    if ticket.env.0 != env.0 || ticket.no < from {
        return next;
    }
    match next {
        Some(number) if number <= ticket.no => next,
        _ => Some(ticket.no),
    }
}

/// Takes one of the kept calls out. If it is the last one, the next call gets its place.
pub fn take_out(kept: &mut VecDeque<OutboxEntry>, at: usize) -> OutboxEntry
    requires { at < length kept.old.items }
    ensures kept { kept.new.items ≡ remove kept.old.items at }
    ensures taken { (d : OutboxEntry) → result ≡ slice_index_or kept.old.items at d }
    ensures capacity { deque_capacity kept.new ≡ deque_capacity kept.old }
{
    if at + 1 == kept.len() {
        let Some(last) = kept.pop_back() else {
            unreachable!()
        };
        return last;
    }
    if at == 0 {
        let Some(first) = kept.pop_front() else {
            unreachable!()
        };
        return first;
    }
    let Some(taken) = kept.remove(at) else {
        unreachable!()
    };
    taken
}

ghost use Rattle.std.specs.Prelude.{◌≡◌, ◌+◌, ◌≤◌, ◌<◌, true, false, length, take, slice_index_or};
ghost use Rattle.ti_ops.specs.OutboxEntry.{has, has_answer, nearer_of};
ghost use Rattle.ti_ops.specs.declared.outbox_entry.OutboxEntry.{OutboxEntry};
ghost use Rattle.std.specs.List.{remove};
ghost use Rattle.std.specs.VecDeque.{deque_capacity};
ghost use Rattle.ti_ops.specs.Statuses.{is_at};
