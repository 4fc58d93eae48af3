//! The texts and tables that were told.

use crate::bytes::Bytes;
use crate::taking::MOST;
use std::alloc::Global;

/// How many bytes they have at most.
const MOST_BYTES: usize = 16_777_216;

/// A text, or a table of so many texts, which have the next numbers.
#[derive(Drop)]
pub(crate) enum Object {
    Text(Bytes),
    Table(u32),
}

impl Object {
    /// Whether it is a text.
    fn is_text(&self) -> bool
        ensures { result ≡ is_text self.now }
    {
        matches!(self, Object::Text(_))
    }

    /// How many bytes it has. A table has none.
    fn size(&self) -> usize
        ensures { result ≡ size_of self.now }
    {
        match self {
            Object::Text(text) => text.as_slice().len(),
            Object::Table(_) => 0,
        }
    }
}

/// A text or a table that is kept, as it was when the values of a thread were told.
#[derive(Drop)]
pub(crate) struct Kept {
    pub(crate) thread: u32,
    pub(crate) number: usize,
    /// How often the debugger was told its id. It stays at 2^32 - 1.
    pub(crate) told: u32,
    pub(crate) object: Object,
}

/// An object that the debugger does not need any more: a text, or a table, with its number, and how often it was told it.
#[derive(Clone, Copy)]
pub(crate) struct Disposal {
    pub(crate) is_text: bool,
    pub(crate) number: u32,
    pub(crate) count: u32,
}

impl Kept {
    /// Whether it is this one.
    fn is(&self, which: Disposal) -> bool
        ensures { result ≡ is_which which self.now }
    {
        self.number == which.number as usize && self.is_of_kind(which)
    }

    /// Whether both are texts, or both tables.
    fn is_of_kind(&self, which: Disposal) -> bool
        ensures { result ≡ is_of_kind which self.now }
    {
        if which.is_text {
            self.object.is_text()
        } else {
            !self.object.is_text()
        }
    }

    /// Whether the debugger needs it still.
    fn stays(&self, which: Disposal) -> bool
        ensures { result ≡ stays which self.now }
    {
        !self.is(which) || self.told > which.count
    }

    /// It counts as told less often, if it is this one.
    fn lessen(&mut self, which: Disposal)
        ensures { self.new ≡ lessened which self.old }
    {
        if self.is(which) {
            self.told = self.told.saturating_sub(which.count);
        }
    }

    /// It counts as told once more, if it is one of so many from this number on.
    fn tell(&mut self, first: u32, count: u32)
        ensures { self.new ≡ told_once first count self.old }
    {
        let first = first as usize;
        if first <= self.number && self.number - first < count as usize {
            self.told = self.told.saturating_add(1);
        }
    }
}

/// How many bytes these have.
fn bytes_in(list: &[Object]) -> usize
    ensures { result ≡ min (sum_by size_of list.now) (2 ^ 64 - 1) }
{
    let mut bytes = 0_usize;
    for object in list {
        bytes = bytes.saturating_add(object.size());
    }
    bytes
}

/// The texts and tables that were told on a connection and are kept.
#[derive(Drop)]
pub(crate) struct Objects {
    pub(crate) list: Vec<Kept>,
    /// How many numbers were given. None is given again.
    pub(crate) numbers: usize,
}

impl Objects {
    /// None. It takes no memory yet.
    pub(crate) fn new(alloc: Global) -> Objects
        ensures list { result.list.items ≡ [] }
        ensures numbers { result.numbers ≡ 0 }
    {
        Objects {
            list: Vec::new(alloc),
            numbers: 0,
        }
    }

    /// How many bytes are too many beside those of the texts that are kept.
    fn too_long(&self) -> usize
        ensures { result ≡ 16777217 - bytes_of self.now.list.items }
    {
        let mut room = MOST_BYTES + 1;
        for kept in &self.list {
            room = room.saturating_sub(kept.object.size());
        }
        room
    }

    /// Whether there is room for these.
    fn has_room(&self, more: &[Object]) -> bool
        ensures count { result ≡ true → length self.now.list.items + length more.now ≤ 65536 }
        ensures bytes { result ≡ true → bytes_of self.now.list.items + sum_by size_of more.now ≤ 2 ^ 24 }
    {
        more.len() <= MOST
            && self.list.len() <= MOST - more.len()
            && bytes_in(more) < self.too_long()
    }

    /// Keeps these, which were told of a thread. False if there is no room, or no memory: then nothing changes.
    pub(crate) fn add(&mut self, thread: u32, more: Vec<Object>) -> bool
        ensures added { result ≡ true → self.new.list.items ≡ self.old.list.items ++ numbered thread self.old.numbers more.items }
        ensures numbers { result ≡ true → self.new.numbers ≡ self.old.numbers + length more.items }
        ensures same { NamesBelow self.old.numbers self.old.list.items self.new.list.items }
        ensures bound { result ≡ true → length self.new.list.items ≤ 65536 }
        ensures bytes { result ≡ true → bytes_of self.new.list.items ≤ 2 ^ 24 }
        ensures kept { result ≡ false → (self.new.list.items ≡ self.old.list.items) × (self.new.numbers ≡ self.old.numbers) }
    {
        if !self.has_room(more.as_slice()) {
            return false;
        }
        let Some(numbers) = self.numbers.checked_add(more.len()) else {
            return false;
        };
        if self.list.reserve(more.len()).is_err() {
            return false;
        }
        let mut number = self.numbers;
        for object in more {
            self.list.push_reserved(Kept {
                thread,
                number,
                told: 0,
                object,
            });
            number += 1;
        }
        self.numbers = numbers;
        true
    }

    /// Frees what was told of a thread. All else stays.
    pub(crate) fn forget(&mut self, thread: u32)
        ensures gone { of_thread thread self.new.list.items ≡ [] }
        ensures others { (other : ℕ) → other ≢ thread → of_thread other self.new.list.items ≡ of_thread other self.old.list.items }
        ensures exact { self.new.list.items ≡ without thread self.old.list.items }
        ensures same { Names self.old.list.items self.new.list.items }
        ensures numbers { self.new.numbers ≡ self.old.numbers }
    {
        self.list.retain(|kept: &Kept| kept.thread != thread);
    }

    /// Counts so many, from this number on, as told once more.
    pub(crate) fn tell(&mut self, first: u32, count: u32)
        ensures told { self.new.list.items ≡ map (told_once first count) self.old.list.items }
        ensures numbers { self.new.numbers ≡ self.old.numbers }
    {
        for kept in self.list.iter_mut() {
            kept.tell(first, count);
        }
    }

    /// This one counts as told less often.
    fn lessen(&mut self, which: Disposal)
        ensures lessened { self.new.list.items ≡ map (lessened which) self.old.list.items }
        ensures numbers { self.new.numbers ≡ self.old.numbers }
    {
        for kept in self.list.iter_mut() {
            kept.lessen(which);
        }
    }

    /// The debugger does not need this one any more. It is freed, unless the debugger was told it more often. All others stay.
    pub(crate) fn dispose(&mut self, which: Disposal)
        ensures disposed { self.new.list.items ≡ disposed which self.old.list.items }
        ensures numbers { self.new.numbers ≡ self.old.numbers }
    {
        self.list.retain(|kept: &Kept| kept.stays(which));
        self.lessen(which);
    }

    /// The debugger does not need these any more.
    pub(crate) fn dispose_all(&mut self, list: &[Disposal])
        ensures disposed { self.new.list.items ≡ all_disposed list.now self.old.list.items }
        ensures numbers { self.new.numbers ≡ self.old.numbers }
    {
        for which in list {
            self.dispose(*which);
        }
    }

    /// The text or the table of this number.
    fn object(&self, number: u32) -> Option<&Object>
        ensures { IfSome result (λ o. IsKept self.now.list.items number o.now) }
    {
        let kept = self.list.get(self.place_of(number as usize))?;
        if kept.number == number as usize {
            Some(&kept.object)
        } else {
            None
        }
    }

    /// The place of the one with this number, if it is there, since the numbers rise.
    fn place_of(&self, number: usize) -> usize {
        let mut low = 0;
        let mut high = self.list.len();
        while low < high {
            let middle = low + (high - low) / 2;
            if self.list[middle].number < number {
                low = middle + 1;
            } else {
                high = middle;
            }
        }
        low
    }

    /// The text of this number.
    pub(crate) fn text(&self, number: u32) -> Option<&[u8]>
        ensures { IfSome result (λ t. IsKept self.now.list.items number (Text t.now)) }
    {
        match self.object(number) {
            Some(Object::Text(text)) => Some(text.as_slice()),
            _ => None,
        }
    }

    /// How many entries the table of this number has.
    pub(crate) fn table(&self, number: u32) -> Option<u32>
        ensures { IfSome result (λ count. IsKept self.now.list.items number (Table count)) }
    {
        match self.object(number) {
            Some(Object::Table(count)) => Some(*count),
            _ => None,
        }
    }
}

ghost use Rattle.std.specs.Prelude.{◌≡◌, ◌≢◌, ◌≤◌, ◌+◌, ◌-◌, ◌^◌, ◌++◌, [], ℕ, true, false, length, map, min, IfSome};
ghost use Rattle.std.specs.List.{sum_by};
ghost use Rattle.ti_debugger.specs.Kept.{IsKept, Names, NamesBelow, all_disposed, bytes_of, disposed, is_of_kind, is_text, is_which, lessened, numbered, of_thread, size_of, stays, told_once, without};
ghost use Rattle.ti_debugger.specs.declared.objects.Object.TheVariants.{Text, Table};
