//! The list of threads that are wanted: cells enter their threads, and a watch takes them out.

use std::sync::Arc;
use std::sync::atomic::{AtomicU64, Ordering};

/// The threads of a watch that somebody has called for, and that were not taken out since. Contracts do not see it.
///
/// It is a stack of links. A thread is entered in three steps, all of which have one order with those of the watch: its link
/// becomes the head, the head before it becomes its `next`, and `news` is counted up. So a watch that finds nothing, or a `next`
/// that is not written yet, and then sleeps until `news` changes misses no thread.
#[derive(Drop)]
pub struct WantedList {
    /// The link of the thread that was entered latest, or `END`.
    head: AtomicU64,
    /// How many threads were entered, in this list and in those that have the same count.
    news: Arc<AtomicU64>,
}

/// The link of no thread.
const END: u64 = 0;
/// In place of a link that is not written yet.
const UNWRITTEN: u64 = 1;

impl WantedList {
    /// The least link of a thread.
    pub const FIRST: u64 = 2;

    /// A list of no threads.
    pub fn new(news: Arc<AtomicU64>) -> WantedList {
        WantedList {
            head: AtomicU64::new(END),
            news,
        }
    }

    /// Its count of entered threads.
    pub fn news(&self) -> &Arc<AtomicU64> {
        &self.news
    }

    /// Takes the whole list. Returns the link of its newest thread, or 0 if it has none.
    pub fn take(&self) -> u64 {
        self.head.swap(END, Ordering::SeqCst)
    }

    /// Puts a link before all others. Returns the one that was the first.
    fn push(&self, link: u64) -> u64 {
        self.head.swap(link, Ordering::SeqCst)
    }
}

/// One thread as its watch knows it. Contracts do not see it.
#[derive(Drop)]
pub struct Watched {
    list: Arc<WantedList>,
    /// Its link. No other thread of the list has it.
    link: u64,
    /// While it is in the list, the link of the thread that was entered before it, or `END`. Otherwise `UNWRITTEN`.
    next: AtomicU64,
    /// 1 while it is in the list, or is just being entered. Otherwise 0.
    entered: AtomicU64,
}

impl Watched {
    /// A thread that is not in the list.
    pub fn new(list: Arc<WantedList>, link: u64) -> Watched {
        Watched {
            list,
            link,
            next: AtomicU64::new(UNWRITTEN),
            entered: AtomicU64::new(0),
        }
    }

    /// Enters the thread into the list, unless it is there already. Then whoever takes it out tells of this call as well.
    #[inline(never)]
    pub fn enter(&self) {
        if self.entered.swap(1, Ordering::SeqCst) == 0 {
            let before = self.list.push(self.link);
            self.next.store(before, Ordering::SeqCst);
            self.list.news.fetch_add(1, Ordering::SeqCst);
        }
    }

    /// Takes the thread out of a list that was taken whole. Returns the link of the thread that was entered before it, or 0 if
    /// there is none. `None` if that is not written yet. Then nothing changes.
    pub fn take_out(&self) -> Option<u64> {
        let before = self.next.load(Ordering::SeqCst);
        if before == UNWRITTEN {
            return None;
        }
        self.next.store(UNWRITTEN, Ordering::SeqCst);
        self.entered.store(0, Ordering::SeqCst);
        Some(before)
    }

    /// Whether it is in no list.
    pub fn is_out(&self) -> bool {
        self.entered.load(Ordering::SeqCst) == 0
    }
}
