//! A thread that is there, with its desks.

use crate::info::ThreadInfo;
use crate::newcomer::Newcomer;
use crate::stage::Stage;
use std::alloc::Global;
use ti_agent::FreeDesk;
use ti_chunked::KeyOf;
use ti_handshake::{Desk, Fresh, SharedCell};
use ti_types::{Limits, ThreadNo, TiError};

/// A thread that is there, with the desks that no environment has taken.
#[derive(Drop)]
pub(crate) struct Row {
    pub(crate) newcomer: Newcomer,
    pub(crate) stage: Stage,
    /// By the number of the environment.
    pub(crate) desks: Vec<Option<FreeDesk>>,
}

/// The number of a row's thread, as a key of rows.
pub(crate) struct ThreadKey;

impl KeyOf<Row> for ThreadKey {
    ghost key = { λ r. r.newcomer.thread.0 };

    fn key(row: &Row) -> u32 {
        row.thread().0
    }
}

impl Row {
    /// The number of the thread.
    pub(crate) fn thread(&self) -> ThreadNo
        ensures { result ≡ self.now.newcomer.thread }
    {
        self.newcomer.thread
    }

    /// Takes the desk at an index, if it is here. There has to be such an index.
    pub(crate) fn take(&mut self, place: usize) -> Option<FreeDesk>
        requires { place < length self.old.desks.items }
        ensures desk { slice_get self.old.desks.items place ≡ Some result }
        ensures rest { (self.new.newcomer ≡ self.old.newcomer) × (self.new.stage ≡ self.old.stage) }
        ensures taken { self.new.desks.items ≡ slice_set self.old.desks.items place None }
    {
        self.desks[place].take()
    }

    /// Whether the desk at an index is here. There has to be such an index.
    pub(crate) fn has(&self, place: usize) -> bool
        requires { place < length self.now.desks.items }
        ensures { (slice_get self.now.desks.items place ≡ Some None) ↔ (result ≡ false) }
    {
        self.desks[place].is_some()
    }

    /// Puts a desk at an index. There has to be such an index.
    pub(crate) fn put(&mut self, place: usize, desk: FreeDesk)
        requires { place < length self.old.desks.items }
        ensures rest { (self.new.newcomer ≡ self.old.newcomer) × (self.new.stage ≡ self.old.stage) }
        ensures put { self.new.desks.items ≡ slice_set self.old.desks.items place (Some desk) }
    {
        self.desks[place] = Some(desk);
    }

    /// The thread has come so far.
    pub(crate) fn reach(&mut self, stage: Stage)
        ensures { self.new ≡ reached self.old stage }
    {
        self.stage = stage;
    }
}

/// The row of a new thread, at which no environment has taken its desk, and the thread itself, which has not started.
///
/// 110 OUT_OF_MEMORY if there is no memory for it.
pub(crate) fn new_row(
    alloc: Global,
    limits: Limits,
    thread: ThreadNo,
    info: ThreadInfo,
) -> Result<(Fresh, Row), TiError>
    ensures fresh { IfOk result (λ m. (m.0.cell ≡ m.1.newcomer.cell) × (m.0.view ≡ newcomer (subject_of limits thread) 0 (limits.envs + 1))) }
    ensures row { IfOk result (λ m. (m.1.newcomer.thread ≡ thread) × (m.1.newcomer.info ≡ info) × IsNewRow limits m.1) }
    ensures memory { IfErr result (λ e. e ≡ OutOfMemory) }
{
    let (cell, fresh, desks) = SharedCell::make(alloc, limits, thread)?;
    let desks = free_desks(alloc, desks)?;
    let newcomer = Newcomer { thread, info, cell };
    Ok((
        fresh,
        Row {
            newcomer,
            stage: Stage::New,
            desks,
        },
    ))
}

/// These desks for environments to take, in their order. They are unused. 110 OUT_OF_MEMORY if there is no memory for them.
fn free_desks(alloc: Global, desks: Vec<Desk>) -> Result<Vec<Option<FreeDesk>>, TiError>
    requires { All IsUnused desks.items }
    ensures desks { IfOk result (λ f. f.items ≡ map (λ d. Some (free_at d)) desks.items) }
    ensures memory { IfErr result (λ e. e ≡ OutOfMemory) }
{
    let mut free = Vec::with_capacity(alloc, desks.len())?;
    for desk in desks {
        let Ok(one) = FreeDesk::new(desk) else {
            unreachable!()
        };
        free.push_reserved(Some(one));
    }
    Ok(free)
}

ghost use Rattle.std.specs.Prelude.{◌≡◌, ◌↔◌, ◌<◌, ◌+◌, false, length, map, All, Some, None, slice_get, slice_set, IfOk, IfErr};
ghost use Rattle.ti_types.specs.declared.error.TiError.TheVariants.{OutOfMemory};
ghost use Rattle.ti_cell.specs.View.{newcomer, subject_of};
ghost use Rattle.ti_roster.specs.Rows.{IsNewRow, IsUnused, free_at, reached};
