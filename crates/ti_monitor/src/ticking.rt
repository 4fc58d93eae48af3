//! What a tick of a reading owes.

use crate::account::Account;
use crate::watched::Watched;

/// One more stack is owed of each thread that is there.
pub(crate) fn tick_at_all(account: &mut Account, watched: &[Watched])
    ensures { OwesAll watched.now account.old account.new }
{
    for place in 0..watched.len() {
        if !tick_at_one(account, place, &watched[place]) {
            return;
        }
    }
}

/// One more stack is owed of the thread at a place, unless it has ended. False if there is no memory for the place, or if there were
/// 2^62 ticks at threads. Then no more is owed.
fn tick_at_one(account: &mut Account, place: usize, one: &Watched) -> bool
    ensures owes { OnTrue result (OwesMore place (tick_of (Some one.now)) account.old account.new) }
    ensures exhausted { OnFalse result (OwesAsBefore account.old account.new × IsExhausted place account.new) }
    ensures uncounted { IsUncounted account.old account.new }
{
    if !account.reach(place) {
        return false;
    }
    one.has_ended() || account.tick_at(place)
}

ghost use Rattle.std.specs.Prelude.{Some};
ghost use Rattle.std.specs.Bool.{OnTrue, OnFalse};
ghost use Rattle.ti_monitor.specs.Accounts.{IsExhausted, IsUncounted, OwesAsBefore, OwesMore};
ghost use Rattle.ti_monitor.specs.Ticking.{OwesAll, tick_of};
