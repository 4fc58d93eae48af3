//! The limits that threads and environments keep within.

/// How many threads and environments there are, and how much they may do. Each limit is within its range (this profile).
#[derive(Clone, Copy, Debug)]
pub struct Limits {
    /// How many threads there are, 1 to 64.
    pub threads: u32,
    /// How many environments there are, 1 to 32.
    pub envs: u32,
    /// How many frames a thread may have: 1 to 4,096, or up to 65,536 if it may run as long as its process.
    pub depth: u32,
    /// How many entries of its own a thread may pay for: 1 to 65,536, or 2^59 if it may run as long as its process. A step
    /// costs 1. A hand-over to native or blocked costs 2, which pays for the return.
    pub own: u64,
    /// How many calls, stops and reads each environment may pay for at each thread. That is 1 to 1,024, or 2^52 if the
    /// thread may run as long as its process.
    pub calls: u64,
    /// How many posted calls of each environment may be out at each thread, with their answers not collected: 1 to 1,024.
    pub window: u32,
    /// Whether the threads' histories are kept in memory, to be read again.
    pub kept: bool,
    pub ghost in_range: { AreLimits threads envs depth own calls window },
}

impl Limits {
    /// The limits with these numbers, and with a `window` of `calls`. Histories are not kept. `None` if a number is not
    /// within its range (this profile).
    ///
    /// - `threads`: 1 to 64.
    /// - `envs`: 1 to 32.
    /// - `depth`: 1 to 4,096.
    /// - `own`: 1 to 65,536.
    /// - `calls`: 1 to 1,024.
    pub fn new(threads: u32, envs: u32, depth: u32, own: u32, calls: u32) -> Option<Self>
        ensures range { IsSome result ↔ InRange threads envs depth own calls }
        ensures threads { IfSome result (λ l. l.threads ≡ threads) }
        ensures envs { IfSome result (λ l. l.envs ≡ envs) }
        ensures depth { IfSome result (λ l. l.depth ≡ depth) }
        ensures own { IfSome result (λ l. l.own ≡ own) }
        ensures calls { IfSome result (λ l. l.calls ≡ calls) }
        ensures window { IfSome result (λ l. l.window ≡ calls) }
        ensures kept { IfSome result (λ l. l.kept ≡ false) }
    {
        let own_fits = 1 <= own && own <= 65536;
        let calls_fit = 1 <= calls && calls <= 1024;
        if shape_fits(threads, envs, depth, 4096) && own_fits && calls_fit {
            Some(Limits {
                threads,
                envs,
                depth,
                own: u64::from(own),
                calls: u64::from(calls),
                window: calls,
                kept: false,
            })
        } else {
            None
        }
    }

    /// The same limits, under which each thread's history is kept in memory, to be read when its cell is closed.
    pub fn recorded(self) -> Self
        ensures shape { (result.threads ≡ self.threads) × (result.envs ≡ self.envs) × (result.depth ≡ self.depth) }
        ensures budgets { (result.own ≡ self.own) × (result.calls ≡ self.calls) × (result.window ≡ self.window) }
        ensures kept { result.kept ≡ true }
    {
        let Limits {
            threads,
            envs,
            depth,
            own,
            calls,
            window,
            ..
        } = self;
        Limits {
            threads,
            envs,
            depth,
            own,
            calls,
            window,
            kept: true,
        }
    }

    /// The same limits with another `window`, 1 to 1,024. `None` if it is not within that range (this profile).
    ///
    /// Each environment may then have at most `window` calls posted at each thread whose answers it has not collected.
    pub fn with_window(self, window: u32) -> Option<Self>
        ensures range { IsSome result ↔ IsWithin most_window window }
        ensures window { IfSome result (λ l. l.window ≡ window) }
        ensures shape { IfSome result (λ l. (l.threads ≡ self.threads) × (l.envs ≡ self.envs) × (l.depth ≡ self.depth)) }
        ensures budgets { IfSome result (λ l. (l.own ≡ self.own) × (l.calls ≡ self.calls)) }
        ensures kept { IfSome result (λ l. l.kept ≡ self.kept) }
    {
        let Limits {
            threads,
            envs,
            depth,
            own,
            calls,
            kept,
            ..
        } = self;
        if 1 <= window && window <= 1024 {
            Some(Limits {
                threads,
                envs,
                depth,
                own,
                calls,
                window,
                kept,
            })
        } else {
            None
        }
    }

    /// Limits under which a thread may run as long as its process. `None` if a number is not within its range: 1 to 64
    /// threads, 1 to 32 environments, a depth of 1 to 65,536 (this profile).
    ///
    /// A thread has 2^59 entries of its own, and each environment 2^52 calls there. At most 1,024 of these may be posted and
    /// not collected at a time. Histories are not kept.
    ///
    /// The room for frames and calls is reserved. It takes memory only as far as the thread has been deep, and as calls were
    /// out at once.
    pub fn lasting(threads: u32, envs: u32, depth: u32) -> Option<Self>
        ensures range { IsSome result ↔ (IsWithin 64 threads × IsWithin 32 envs × IsWithin most_depth depth) }
        ensures threads { IfSome result (λ l. l.threads ≡ threads) }
        ensures envs { IfSome result (λ l. l.envs ≡ envs) }
        ensures depth { IfSome result (λ l. l.depth ≡ depth) }
        ensures own { IfSome result (λ l. l.own ≡ most_own) }
        ensures calls { IfSome result (λ l. l.calls ≡ most_calls) }
        ensures window { IfSome result (λ l. l.window ≡ most_window) }
        ensures kept { IfSome result (λ l. l.kept ≡ false) }
    {
        if shape_fits(threads, envs, depth, 65536) {
            Some(Limits {
                threads,
                envs,
                depth,
                own: 1 << 59,
                calls: 1 << 52,
                window: 1024,
                kept: false,
            })
        } else {
            None
        }
    }
}

/// Whether the numbers of threads and environments and the depth are in their ranges.
fn shape_fits(threads: u32, envs: u32, depth: u32, most: u32) -> bool
    ensures { IsTrue result ↔ (IsWithin 64 threads × IsWithin 32 envs × IsWithin most depth) }
{
    let threads_fit = 1 <= threads && threads <= 64;
    let envs_fit = 1 <= envs && envs <= 32;
    let depth_fits = 1 <= depth && depth <= most;
    threads_fit && envs_fit && depth_fits
}

ghost use Rattle.std.specs.Prelude.{◌≡◌, ◌≤◌, ◌↔◌, true, false, IsTrue, IsSome, IfSome};
ghost use Rattle.ti_types.specs.Limits.{InRange, AreLimits, IsWithin, most_depth, most_own, most_calls, most_window};
