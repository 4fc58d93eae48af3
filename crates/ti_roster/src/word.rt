//! The one word of the cell, bit by bit.

/// The word: the lock bit, and how much has happened.
#[derive(Clone, Copy)]
pub struct Word {
    pub bits: u64,
}

impl Word {
    /// The word of a cell that nobody holds.
    pub fn free(count: u64) -> Word
        requires count { count < 2 ^ 62 }
        ensures bits { result.bits ≡ word_at count false }
    {
        Word { bits: 2 * count }
    }

    /// Whether nobody holds the cell.
    pub fn is_free(self) -> bool
        ensures free { result ≡ (self.bits % 2 == 0) }
    {
        self.bits % 2 == 0
    }

    /// The same word with the lock bit, which is clear.
    pub fn locked(self) -> Word
        requires free { self.bits % 2 ≡ 0 }
        ensures bits { result.bits ≡ self.bits + 1 }
    {
        Word {
            bits: self.bits + 1,
        }
    }

    /// How much has happened.
    pub fn count(self) -> u64
        ensures { result ≡ self.bits / 2 }
    {
        self.bits / 2
    }

    /// The half of the word on which a waiting user sleeps.
    pub fn low_half(self) -> u32 {
        (self.bits & 0xffff_ffff) as u32
    }
}

ghost use Rattle.std.specs.Prelude.{◌≡◌, ◌+◌, ◌^◌, ◌<◌, ◌%◌, ◌/◌, ◌==◌, false};
ghost use Rattle.ti_roster.specs.Word.{word_at};
