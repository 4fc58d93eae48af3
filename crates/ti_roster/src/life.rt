//! The last events of threads' lives.

use crate::life_event::{LifeAt, LifeEvent, NextLife, ToldLife};
use crate::life_modes::LifeModes;
use std::alloc::Global;
use std::collections::VecDeque;
use std::marker::Model;
use ti_trail::GhostList;
use ti_types::TiError;

/// The last 4,096 events of threads' lives, and how many there were. Contracts see it as all of them (`Lives`).
#[derive(Drop)]
pub(crate) struct Life {
    all: GhostList<LifeEvent>,
    /// How many happened.
    count: u64,
    /// The last of them, the earliest first. It never takes more memory.
    kept: VecDeque<LifeEvent>,
}

impl Model for Life {
    ghost use Rattle.std.specs.Prelude.{◌≡◌, ◌≤◌, ◌^◌, length};
    ghost use Rattle.std.specs.VecDeque.{deque_capacity};
    ghost use Rattle.ti_roster.specs.Events.{AreLast, Lives, most_kept};

    ghost Value = { Lives };

    ghost view = { λ l. record { events = l.all.items } };

    ghost invariant = { λ l. (l.count ≡ length l.all.items) × (l.count ≤ 2 ^ 62) × (most_kept ≤ deque_capacity l.kept) × AreLast l.all.items l.kept.items };
}

impl Life {
    /// No event. 110 OUT_OF_MEMORY if there is no memory for as many as are kept.
    pub(crate) fn new(alloc: Global) -> Result<Life, TiError>
        ensures new { IfOk result (λ l. l ≡ record { events = [] }) }
        ensures memory { IfErr result (λ e. e ≡ OutOfMemory) }
    {
        Ok(Life {
            all: GhostList::new(),
            count: 0,
            kept: VecDeque::with_capacity(alloc, MOST_KEPT)?,
        })
    }

    /// One more event happened. The earliest that is kept is let go of if there is no room. There were not too many.
    pub(crate) fn push(&mut self, event: LifeEvent)
        requires { length self.old.events < 2 ^ 62 }
        ensures { self.new ≡ record { events = self.old.events ++ event ∷ [] } }
    {
        self.all = self.all.and(&event);
        if self.kept.len() == MOST_KEPT {
            self.kept.pop_front();
        }
        self.kept.push_back_reserved(event);
        self.count += 1;
    }

    /// How many events happened.
    pub(crate) fn count(&self) -> u64
        ensures { result ≡ length self.now.events }
    {
        self.count
    }

    /// The index of the first event that is kept. It is how many were lost.
    fn first(&self) -> u64
        ensures first { result ≡ length self.now.events - most_kept }
        ensures few { length self.now.events ≤ 2 ^ 62 }
    {
        self.count - self.kept.len() as u64
    }

    /// The first event from this index on that is told. It is kept, if it has happened.
    fn seek(&self, modes: LifeModes, from: u64) -> Option<LifeAt>
        requires { length self.now.events - most_kept ≤ from }
        ensures seek { result ≡ seek modes from (drop from self.now.events) }
        ensures within { IfSome result (λ at. at.index < length self.now.events) }
    {
        let first = self.first();
        for index in from..self.count {
            let event = self.kept[(index - first) as usize];
            if modes.tells(index, event) {
                return Some(LifeAt { index, event });
            }
        }
        None
    }

    /// What an agent is told: the first event that is kept and that is told by these modes.
    pub(crate) fn tell(&self, modes: LifeModes) -> ToldLife
        ensures { result ≡ told_of self.now.events modes }
    {
        let Some(from) = modes.first() else {
            return ToldLife {
                told: None,
                next: modes.next,
            };
        };
        let first = self.first();
        let lost = if from < first { first - from } else { 0 };
        match self.seek(modes, from + lost) {
            Some(LifeAt { index, event }) => ToldLife {
                told: Some(NextLife { event, lost }),
                next: index + 1,
            },
            None => ToldLife {
                told: None,
                next: if lost == 0 { self.count } else { modes.next },
            },
        }
    }
}

/// How many events are kept.
const MOST_KEPT: usize = 4_096;

ghost use Rattle.std.specs.Prelude.{◌≡◌, ◌<◌, ◌≤◌, ◌^◌, ◌-◌, ◌++◌, ◌∷◌, [], drop, length, IfOk, IfErr, IfSome};
ghost use Rattle.ti_types.specs.declared.error.TiError.TheVariants.{OutOfMemory};
ghost use Rattle.ti_roster.specs.Events.{most_kept};
ghost use Rattle.ti_roster.specs.Modes.{seek, told_of};
