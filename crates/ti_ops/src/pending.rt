//! The calls that wait at a thread, and the answers that are not collected yet.

use crate::outbox_entry::{
    Count, OutboxEntry, Stage, find, find_last, is_answered, nearer, take_out,
};
use std::alloc::Global;
use std::collections::VecDeque;
use std::marker::Model;
use std::mem;
use ti_types::{Answer, Call, EnvNo, TiError, Ticket, TraceBuf};

/// A call that waits, with the buffer for its answer.
#[derive(Drop, Debug)]
pub struct Pending {
    pub ticket: Ticket,
    pub call: Call,
    pub buf: TraceBuf,
}

/// The calls that wait at one thread, and the answers that are not collected yet.
///
/// All tickets are of that one thread: only their environments and numbers are looked at. `post` or `pass` is called for
/// each call that an environment asks of the thread, in the order of the numbers.
#[derive(Drop, Debug)]
pub struct PendingOps {
    /// The calls that are kept, the earliest posted first.
    kept: VecDeque<OutboxEntry>,
    /// How many of them no longer wait. These come first.
    taken: usize,
    /// What each environment has asked.
    counts: Vec<Count>,
    /// How many calls of an environment may be kept.
    window: u32,
}

impl Model for PendingOps {
    ghost use Rattle.std.specs.VecDeque.{deque_capacity};
    ghost use Rattle.ti_ops.specs.Ops.{Ops};
    ghost use Rattle.ti_ops.specs.OutboxEntry.{ops_in, IsKept};

    ghost Value = { Ops };

    ghost view = { λ s. ops_in s.window s.taken s.counts.items s.kept.items };

    ghost invariant = { λ s. IsKept s.window s.taken (deque_capacity s.kept) s.counts.items s.kept.items };
}

impl PendingOps {
    /// No calls yet. At most `window` calls of each of `envs` environments may wait or be uncollected at once.
    ///
    /// Fails with `OutOfMemory` (110) if there is no memory for the room, and in no other case (this profile).
    pub fn new(alloc: Global, envs: u32, window: u32) -> Result<Self, TiError>
        ensures waiting { IfOk result (λ o. o.waiting ≡ []) }
        ensures statuses { IfOk result (λ o. o.statuses ≡ replicate envs []) }
        ensures window { IfOk result (λ o. o.window ≡ window) }
        ensures memory { IfErr result (λ e. e ≡ TiError.OutOfMemory) }
    {
        let kept = VecDeque::with_capacity(alloc, envs as usize * window as usize)?;
        let none = Count { asked: 0, held: 0 };
        let counts = vec![in alloc; none; envs as usize]?;
        Ok(PendingOps {
            kept,
            taken: 0,
            counts,
            window,
        })
    }

    /// How many calls wait.
    pub fn waiting(&self) -> usize
        ensures { result ≡ length self.now.waiting }
    {
        self.kept.len() - self.taken
    }

    /// How many calls an environment has asked. That is the number of its next one.
    pub fn asked(&self, env: EnvNo) -> u64
        requires { env.0 < length self.now.statuses }
        ensures { result ≡ length (statuses_by env self.now.statuses) }
    {
        self.counts[env.0 as usize].asked
    }

    /// How many calls of an environment wait, or have an answer that is not collected.
    pub fn out(&self, env: EnvNo) -> u32
        requires { env.0 < length self.now.statuses }
        ensures { result ≡ open_by env self.now.statuses }
    {
        self.counts[env.0 as usize].held
    }

    /// Whether a ticket's call waits, or has an answer that is not collected.
    pub fn is_out(&self, ticket: Ticket) -> bool
        ensures { result ≡ is_open (status_of ticket self.now.statuses) }
    {
        let all = self.kept.len();
        find(&self.kept, all, ticket) != all
    }

    /// The number of the first of an environment's calls, from a number on, that waits or has an answer that is not collected.
    /// `None` if there is none. It goes over the calls that are kept.
    pub fn next_out(&self, env: EnvNo, from: u64) -> Option<u64>
        ensures { IsFirstFrom (λ n. is_open (status_of (call_at env n) self.now.statuses)) from result }
    {
        let mut next = None;
        for at in 0..self.kept.len() {
            next = nearer(next, self.kept[at].ticket, env, from);
        }
        next
    }

    /// Puts a call after those that wait. It is its environment's next one, and there is room for it.
    pub fn post(&mut self, ticket: Ticket, call: Call, buf: TraceBuf)
        requires env { ticket.env.0 < length self.old.statuses }
        requires next { ticket.no ≡ length (statuses_by ticket.env self.old.statuses) }
        requires fits { ticket.no + 1 < 2 ^ 64 }
        requires room { open_by ticket.env self.old.statuses < self.old.window }
        ensures { self.new ≡ with_posted self.old (record { ticket = ticket; call = call; buf = buf }) }
    {
        let count = &mut self.counts[ticket.env.0 as usize];
        count.asked += 1;
        count.held += 1;
        self.kept.push_back_reserved(OutboxEntry {
            ticket,
            stage: Stage::Posted { call, buf },
        });
    }

    /// Notes that an environment's next call was answered at once.
    pub fn pass(&mut self, env: EnvNo)
        requires env { env.0 < length self.old.statuses }
        requires fits { length (statuses_by env self.old.statuses) + 1 < 2 ^ 64 }
        ensures { self.new ≡ with_statuses self.old (with_call env status.Gone self.old.statuses) }
    {
        self.counts[env.0 as usize].asked += 1;
    }

    /// Takes the call that has waited longest, with its buffer. `None` if no call waits.
    pub fn take_first(&mut self) -> Option<Pending>
        ensures first { MatchOption result ((self.old.waiting ≡ []) × (self.new.waiting ≡ [])) (λ p. self.old.waiting ≡ p ∷ self.new.waiting) }
        ensures rest { self.new ≡ with_waiting self.old self.new.waiting }
    {
        if self.taken == self.kept.len() {
            return None;
        }
        let first = &mut self.kept[self.taken];
        let ticket = first.ticket;
        let stage = mem::replace(&mut first.stage, Stage::Taken);
        self.taken += 1;
        match stage {
            Stage::Posted { call, buf } => Some(Pending { ticket, call, buf }),
            _ => unreachable!(),
        }
    }

    /// Keeps the answer to a call that was taken and has no answer yet, until it is collected.
    pub fn deliver(&mut self, ticket: Ticket, answer: Answer)
        requires waits { status_of ticket self.old.statuses ≡ status.Waiting }
        requires taken { is_awaited ticket self.old.waiting ≡ false }
        ensures { self.new ≡ with_statuses self.old (with_status ticket (status.Answered answer) self.old.statuses) }
    {
        let at = find_last(&self.kept, self.taken, ticket);
        self.kept[at].stage = Stage::Answered(answer);
    }

    /// Takes the answer to a ticket out. `None` if it is not there: the call is not answered yet, was answered at once, was
    /// never asked, or its answer was collected before. Then nothing changes.
    pub fn collect(&mut self, ticket: Ticket) -> Option<Answer>
        ensures answer { result ≡ answer_by (status_of ticket self.old.statuses) }
        ensures statuses { self.new ≡ with_statuses self.old (if is_some result then with_status ticket status.Gone self.old.statuses else self.old.statuses) }
    {
        let at = find(&self.kept, self.taken, ticket);
        if at == self.taken {
            return None;
        }
        if !is_answered(&self.kept[at]) {
            return None;
        }
        let OutboxEntry { ticket: _, stage } = take_out(&mut self.kept, at);
        self.taken -= 1;
        self.counts[ticket.env.0 as usize].held -= 1;
        match stage {
            Stage::Answered(answer) => Some(answer),
            _ => unreachable!(),
        }
    }
}

ghost use Rattle.std.specs.Prelude.{◌≡◌, ◌<◌, ◌+◌, ◌^◌, [], ◌∷◌, false, length, replicate, IfOk, IfErr, MatchOption, is_some, if◌then◌else◌};
ghost use Rattle.ti_ops.specs.Statuses.{IsFirstFrom, call_at, statuses_by, status_of, open_by, answer_by, is_open, with_call, with_status, is_awaited};
ghost use Rattle.ti_ops.specs.Ops.{with_waiting, with_statuses, with_posted};
ghost use Rattle.ti_ops.specs.declared.status.CallStatus.TheVariants as status;
