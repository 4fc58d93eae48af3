//! A watch.

use std::alloc::{AllocError, Global};
use std::marker::Model;
use std::sync::Arc;
use std::sync::atomic::AtomicU64;
use ti_cell::{WantedList, Watched};
use ti_types::{ThreadNo, TiError};

/// How many places a new thread looks at for one that is free. So there are at most some three times as many as watched threads.
const LOOKS: u32 = 2;

/// A watched thread. Its place is free once no cell has it.
#[derive(Drop)]
struct Place {
    thread: ThreadNo,
    watched: Arc<Watched>,
}

impl Place {
    /// Whether nothing enters its thread any more, and it is in no list.
    fn is_free(&self) -> bool {
        Arc::strong_count(&self.watched) == 1 && self.watched.is_out()
    }
}

/// The list of the threads that are wanted, and the threads that may come into it. Contracts see the threads.
///
/// # Examples
///
/// ```rattle
/// # use ti_handshake::SharedCell;
/// # use ti_types::{Call, Limits, ThreadNo, TraceBuf};
/// # use ti_wanted::Watch;
/// # let limits = Limits::new(1, 1, 4, 16, 8).ok_or("the limits are in range")?;
/// # let (_cell, fresh, mut desks) = SharedCell::make(rt.alloc(), limits, ThreadNo(7))?;
/// # let mut desk = desks.pop().ok_or("there is one environment")?;
/// let mut watch = Watch::new(rt.alloc())?;
/// let running = fresh.start(&rt);
/// let (watched, _) = watch.add(rt.alloc(), ThreadNo(7))?;
/// let Ok((running, false)) = running.watch_now(Some(watched)) else {
///     return Err("nobody holds the cell, and nobody calls".into());
/// };
/// assert!(rt; watch.next().is_none());
/// let _asked = desk.post(&rt, Call::FrameCount, TraceBuf::none());
/// assert!(rt; watch.next() == Some(ThreadNo(7)));
/// let _ended = running.end(&rt);
/// ```
#[derive(Drop)]
pub struct Watch {
    list: Arc<WantedList>,
    /// The thread with the link `FIRST + i` is at the place `i`.
    places: Vec<Place>,
    /// The link of the next thread of the list that was taken last, or 0 if that has none left.
    taken: u64,
    /// The place that a new thread looks at first.
    cursor: usize,
}

impl Model for Watch {
    ghost use Rattle.std.specs.Prelude.{List, map};
    ghost use Rattle.ti_types.specs.declared.numbers.ThreadNo.{ThreadNo as Number};

    ghost Value = { List Number };

    ghost view = { λ w. map (λ p. p.thread) w.places.items };
}

impl Watch {
    /// A watch of no thread, with a count of news of its own. 110 if there is no memory for it.
    pub fn new(alloc: Global) -> Result<Watch, TiError>
        ensures none { IfOk result (λ w. w ≡ []) }
        ensures memory { IfErr result (λ e. e ≡ OutOfMemory) }
    {
        match Arc::new(alloc, AtomicU64::new(0)) {
            Ok(news) => Watch::with_news(alloc, news),
            Err(_) => Err(TiError::OutOfMemory),
        }
    }

    /// A watch of no thread, with the count of news of this one. 110 if there is no memory for it.
    pub fn beside(&self, alloc: Global) -> Result<Watch, TiError>
        ensures none { IfOk result (λ w. w ≡ []) }
        ensures memory { IfErr result (λ e. e ≡ OutOfMemory) }
    {
        Watch::with_news(alloc, Arc::try_clone(self.list.news())?)
    }

    /// A watch of no thread, with this count.
    fn with_news(alloc: Global, news: Arc<AtomicU64>) -> Result<Watch, TiError>
        ensures none { IfOk result (λ w. w ≡ []) }
        ensures memory { IfErr result (λ e. e ≡ OutOfMemory) }
    {
        match Arc::new(alloc, WantedList::new(news)) {
            Ok(list) => Ok(Watch {
                list,
                places: Vec::new(alloc),
                taken: 0,
                cursor: 0,
            }),
            Err(_) => Err(TiError::OutOfMemory),
        }
    }

    /// The address of a word that grows before a call that enters a thread returns (this profile). It is there as long as this watch,
    /// or one beside it, is. No contract says what is found there.
    pub fn news(&self) -> *mut u64 {
        self.list.news().as_ptr()
    }

    /// A place for a thread: for its cell (`Running::watch_now`), and once more to enter the thread by, if somebody calls for it
    /// already. A place that no cell has any more is used again. 110 if there is no memory for one, and then nothing changes.
    pub fn add(
        &mut self,
        alloc: Global,
        thread: ThreadNo,
    ) -> Result<(Arc<Watched>, Arc<Watched>), TiError>
        ensures added { OnOk result (Gains thread self.old self.new) }
        ensures refused { IfErr result (λ e. (e ≡ OutOfMemory) × (self.new ≡ self.old)) }
    {
        if let Some(at) = self.free_place() {
            let given = twice(&self.places[at].watched)?;
            self.places[at].thread = thread;
            return Ok(given);
        }
        let link = WantedList::FIRST + self.places.len() as u64;
        let watched = match Arc::new(alloc, Watched::new(Arc::try_clone(&self.list)?, link)) {
            Ok(watched) => watched,
            Err(_) => return Err(TiError::OutOfMemory),
        };
        let given = twice(&watched)?;
        match self.places.push(Place { thread, watched }) {
            Ok(()) => Ok(given),
            Err(refused) => Err(AllocError::from(refused).into()),
        }
    }

    /// A place that is free, if there is one among the next few.
    fn free_place(&mut self) -> Option<usize>
        ensures same { self.new ≡ self.old }
        ensures there { IfSome result (λ i. i < length self.new) }
    {
        for _ in 0..LOOKS {
            if self.cursor >= self.places.len() {
                self.cursor = 0;
            }
            let at = self.cursor;
            let Some(place) = self.places.get(at) else {
                return None;
            };
            self.cursor = at + 1;
            if place.is_free() {
                return Some(at);
            }
        }
        None
    }

    /// The number of a thread that has become wanted and was not told of, if there is one. It may have handed over since. If
    /// the next one is just being entered, there is none: the count of news changes once it is.
    pub fn next(&mut self) -> Option<ThreadNo>
        ensures same { self.new ≡ self.old }
        ensures watched { IfSome result (IsAmong self.old) }
    {
        if self.taken == 0 {
            self.taken = self.list.take();
        }
        let at = self.taken.checked_sub(WantedList::FIRST)?;
        let place = self.places.get(at as usize)?;
        self.taken = place.watched.take_out()?;
        Some(place.thread)
    }
}

/// Two references to a watched thread. 110 if there are 2^63 already.
fn twice(watched: &Arc<Watched>) -> Result<(Arc<Watched>, Arc<Watched>), TiError>
    ensures memory { IfErr result (λ e. e ≡ OutOfMemory) }
{
    Ok((Arc::try_clone(watched)?, Arc::try_clone(watched)?))
}

ghost use Rattle.std.specs.Prelude.{◌≡◌, [], ◌<◌, length, IfOk, IfErr, IfSome, OnOk};
ghost use Rattle.ti_types.specs.declared.error.TiError.TheVariants.{OutOfMemory};
ghost use Rattle.ti_wanted.specs.Watching.{Gains, IsAmong};
