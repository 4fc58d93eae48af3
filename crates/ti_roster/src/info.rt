//! What is told of a thread.

use std::alloc::Global;
use ti_types::TiError;

/// The name and the priority of a thread (JVM TI 11, GetThreadInfo).
#[derive(Drop)]
pub struct ThreadInfo {
    pub name: String,
    /// From 1 to 10 in Java. The service only keeps it.
    pub priority: i32,
}

impl ThreadInfo {
    /// One more with the same name and priority. 110 OUT_OF_MEMORY if there is no memory for the name.
    pub fn copy(&self, alloc: Global) -> Result<ThreadInfo, TiError>
        ensures same { IfOk result (λ i. IsSameInfo i self.now) }
        ensures memory { IfErr result (λ e. e ≡ OutOfMemory) }
    {
        Ok(ThreadInfo {
            name: String::from_str(alloc, self.name.as_str())?,
            priority: self.priority,
        })
    }
}

ghost use Rattle.std.specs.Prelude.{◌≡◌, IfOk, IfErr};
ghost use Rattle.ti_types.specs.declared.error.TiError.TheVariants.{OutOfMemory};
ghost use Rattle.ti_roster.specs.Info.{IsSameInfo};
