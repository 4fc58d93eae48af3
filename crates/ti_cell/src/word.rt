//! The one word of a cell, bit by bit.

use crate::look::Look;
use ti_slot::Slot;

/// A cell's word: the lock bit, then the armed bit, the barred bit, and the number of entries.
#[derive(Clone, Copy)]
pub struct Word {
    pub bits: u64,
}

impl Word {
    /// The word of a cell that nobody holds. The count is below 2^61.
    pub fn free(count: usize, armed: bool, barred: bool) -> Word
        requires count { count < 2 ^ 61 }
        ensures bits { result.bits ≡ word_at count barred armed false }
    {
        Word {
            bits: 8 * count as u64 + 4 * u64::from(barred) + 2 * u64::from(armed),
        }
    }

    /// Whether nobody holds the cell.
    pub fn is_free(self) -> bool
        ensures free { result ≡ (self.bits % 2 == 0) }
    {
        self.bits % 2 == 0
    }

    /// The same word with the lock bit set. It was clear.
    pub fn locked(self) -> Word
        requires free { self.bits % 2 ≡ 0 }
        ensures bits { result.bits ≡ self.bits + 1 }
    {
        Word {
            bits: self.bits + 1,
        }
    }

    /// The half of the word that sleepers sleep on. A change of the other half alone is no change for them. The count in
    /// this half comes round after 2^29 entries.
    pub fn low_half(self) -> u32 {
        (self.bits & 0xffff_ffff) as u32
    }

    /// What lies in the cell's place, if the lock bit is clear. Otherwise nothing, since the place is the holder's.
    pub fn unlocked(self, slot: Option<Slot>) -> Option<Slot>
        ensures clear { self.bits % 2 ≡ 0 → result ≡ slot }
        ensures locked { self.bits % 2 ≢ 0 → result ≡ None }
    {
        if self.is_free() { slot } else { None }
    }

    /// What the word shows.
    pub fn look(self) -> Look
        ensures look { result ≡ look_of self.bits }
    {
        Look {
            armed: self.bits / 2 % 2 == 1,
            barred: self.bits / 4 % 2 == 1,
            count: self.bits / 8,
        }
    }
}

ghost use Rattle.std.specs.Prelude.{◌≡◌, ◌≢◌, ◌+◌, ◌^◌, ◌<◌, ◌≤◌, ◌%◌, ◌==◌, false, None};
ghost use Rattle.ti_cell.specs.Word.{word_at, look_of};
