//! How a history gets more entries.

use ti_trail::{Reads, Record};
use ti_types::{Entry, Step};

/// Reads a logged step as the entry that it is in the history.
pub struct AsOwn;

impl Reads<Step, Entry> for AsOwn {
    ghost read = { Own };

    fn read(step: &Step) -> Entry {
        Entry::Own(*step)
    }
}

/// Adds an entry. There is room for it.
#[inline(always)]
pub fn push(history: &mut Record<Entry>, entry: Entry)
    requires { length history.old.items < history.old.room }
    ensures items { history.new.items ≡ history.old.items ++ entry ∷ [] }
    ensures shelf { shelf history.new ≡ shelf history.old }
{
    history.push(entry);
}

/// Adds the thread's own steps. There is room for them. They are kept if the history is.
#[inline(always)]
pub fn push_steps(history: &mut Record<Entry>, steps: &Record<Step>)
    requires room { length history.old.items + length steps.now.items ≤ history.old.room }
    requires kept { steps.now.kept ≡ history.old.kept }
    ensures items { history.new.items ≡ history.old.items ++ steps_of steps.now.items }
    ensures shelf { shelf history.new ≡ shelf history.old }
{
    history.append::<Step, AsOwn>(steps);
}

ghost use Rattle.std.specs.Prelude.{◌≡◌, ◌≤◌, ◌<◌, ◌+◌, ◌++◌, ◌∷◌, [], length};
ghost use Rattle.ti_types.specs.declared.entry.Entry.TheVariants.{Own};
ghost use Rattle.ti_replay.specs.LateTickets.{steps_of};
ghost use Rattle.ti_slot.specs.Slot.{shelf};
