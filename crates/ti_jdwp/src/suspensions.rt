//! How often the debugger suspended each thread. Suspensions nest in the debug wire protocol (HotSpot does so), and do not
//! nest in JVM TI: the service suspends a thread when its count leaves 0, and resumes it when its count is 0 again.

use crate::error::JdwpError;
use indexmap::IndexMap;
use std::alloc::Global;
use std::marker::Model;

/// The greatest count, as the protocol's reply is an `int`.
const MAX_COUNT: u32 = 0x7fff_ffff;

/// Whose suspension of the service keeps a thread that the debugger suspended.
#[derive(Clone, Copy, Debug, PartialEq, Eq)]
pub enum Holder {
    /// The debugger's own. It is resumed when the count is 0 again.
    Debugger,
    /// Another environment's, since the thread was suspended already. The debugger never resumes it.
    Another,
}

#[derive(Clone, Copy)]
pub(crate) struct Hold {
    pub(crate) count: u32,
    pub(crate) holder: Holder,
}

/// A thread that the debugger does not suspend any more.
#[derive(Clone, Copy, Debug, PartialEq, Eq)]
pub struct LetGo {
    /// The thread's number.
    pub thread: u32,
    /// Whether the service has to resume the thread.
    pub resume: bool,
}

/// How often the debugger suspended each thread, and by whose suspension the thread stands. Contracts see the count of each
/// thread (`count_of`), and whether the service's suspension is the debugger's own (`is_own`).
#[derive(Drop)]
pub struct Suspensions {
    pub(crate) holds: IndexMap<u32, Hold>,
}

impl Model for Suspensions {
    ghost use Rattle.ti_jdwp.specs.Holds.{Holds, AreCounted};

    ghost Value = { Holds };

    ghost view = { λ s. s.holds.entries };

    ghost invariant = { λ s. AreCounted s.holds.entries };
}

impl Suspensions {
    /// No thread is suspended. It takes no memory yet.
    pub fn new(alloc: Global) -> Suspensions
        ensures { result ≡ [] }
    {
        Suspensions {
            holds: IndexMap::new(alloc),
        }
    }

    fn hold(&self, thread: u32) -> Option<Hold>
        ensures { result ≡ hold_of self.now thread }
    {
        self.holds.get(&thread).copied()
    }

    /// How often the debugger suspended the thread and did not resume it yet, from 0 to 2,147,483,647.
    pub fn count(&self, thread: u32) -> u32
        ensures { result ≡ count_of self.now thread }
    {
        match self.hold(thread) {
            Some(hold) => hold.count,
            None => 0,
        }
    }

    /// Whether the count of the thread is above 0, and the service's suspension is the debugger's own.
    pub fn is_own(&self, thread: u32) -> bool
        ensures { result ≡ is_own self.now thread }
    {
        match self.hold(thread) {
            Some(hold) => hold.holder == Holder::Debugger,
            None => false,
        }
    }

    /// Counts one more suspension of the thread. At a count of 0 the service has suspended the thread before, and `holder` says
    /// whose suspension keeps it. Above 0 the service is not called, and `holder` does not count.
    ///
    /// - 110 OUT_OF_MEMORY: there is no memory, or the count is 2,147,483,647. Nothing changes.
    pub fn suspend(&mut self, thread: u32, holder: Holder) -> Result<(), JdwpError>
        ensures ok { OnOk result (Suspends self.old thread holder self.new) }
        ensures err { OnErr result (self.new ≡ self.old) }
        ensures memory { IfErr result (λ e. e ≡ OutOfMemory) }
        ensures free { OnErr result ((count_of self.old thread ≡ 0) ⊎ (2147483647 ≤ count_of self.old thread)) }
    {
        let count = self.count(thread);
        if count >= MAX_COUNT {
            return Err(JdwpError::OutOfMemory);
        }
        let holder = if count == 0 {
            holder
        } else if self.is_own(thread) {
            Holder::Debugger
        } else {
            Holder::Another
        };
        let hold = Hold {
            count: count + 1,
            holder,
        };
        match self.holds.insert(thread, hold) {
            Ok(_before) => Ok(()),
            Err(_refused) => Err(JdwpError::OutOfMemory),
        }
    }

    /// Counts one suspension of the thread less; at 0 it does nothing. It gives whether the service has to resume the thread:
    /// its count came to 0, and the suspension is the debugger's own.
    pub fn resume(&mut self, thread: u32) -> bool
        ensures { Resumes self.old thread result self.new }
    {
        let told = self.is_own(thread) && self.count(thread) == 1;
        if self.count(thread) <= 1 {
            let _hold = self.holds.swap_remove(&thread);
        } else if let Some(hold) = self.holds.get_mut(&thread) {
            hold.count -= 1;
        }
        told
    }

    /// Whether the debugger suspends no thread.
    pub fn are_all_free(&self) -> bool
        ensures { result ≡ (held_of self.now == 0) }
    {
        self.holds.is_empty()
    }

    /// The threads that the debugger suspends, each once.
    ///
    /// - 110 OUT_OF_MEMORY: there is no memory for the list.
    pub fn threads(&self, alloc: Global) -> Result<Vec<u32>, JdwpError>
        ensures ok { IfOk result (λ v. v.items ≡ held_threads self.now) }
        ensures memory { IfErr result (λ e. e ≡ OutOfMemory) }
    {
        let list = self.holds.keys().copied().collect(alloc)?;
        Ok(list)
    }

    /// Lets one thread go that the debugger suspends, whatever its count is. `None` if there is none any more: every count is 0.
    pub fn let_go(&mut self) -> Option<LetGo>
        ensures none { IfNone result (AreAllFree self.old × (self.new ≡ self.old)) }
        ensures some { IfSome result (λ l. LetsGo self.old l.thread l.resume self.new) }
    {
        let last = self.holds.len().saturating_sub(1);
        let (thread, _hold) = self.holds.get_index(last)?;
        let thread = *thread;
        let resume = self.is_own(thread);
        let _hold = self.holds.swap_remove(&thread);
        Some(LetGo { thread, resume })
    }
}

ghost use Rattle.std.specs.Prelude.{◌≡◌, ◌≤◌, ◌==◌, ◌⊎◌, [], IfOk, IfErr, IfSome, IfNone, OnOk, OnErr};
ghost use Rattle.ti_jdwp.specs.Holds.{hold_of, held_of, held_threads, count_of, is_own, Suspends, Resumes, LetsGo, AreAllFree};
ghost use Rattle.ti_jdwp.specs.declared.error.JdwpError.TheVariants.{OutOfMemory};
