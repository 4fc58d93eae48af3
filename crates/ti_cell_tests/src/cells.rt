//! Cells that two threads share.

use std::alloc::Global;
use std::sync::Wait;
use std::test::*;
use std::thread::{Threads, join};
use ti_cell::{EnvSeat, OwnSeat, ThreadCell};
use ti_replay::replay;
use ti_slot::Slot;
use ti_types::{Call, EnvNo, Limits, ThreadNo, TraceBuf};

/// How often each of the two environments holds the cell.
const HOLDS: u32 = 100;

/// Starts the thread by one hold, and gives whether it started.
fn start<R: Wait>(rt: &R, cell: &ThreadCell, seat: OwnSeat) -> (bool, OwnSeat)
    requires owner { IsOwner cell.now 3 seat }
    ensures owner { IsOwner cell.now 3 result.1 }
    ensures mine { result.1.view.mine ≡ seat.view.mine ++ (if result.0 then Start ∷ [] else []) }
{
    let mut hold = cell.hold(rt, seat);
    match hold.slot().start() {
        Ok(_parts) => (true, hold.store()),
        Err(_error) => (false, hold.store()),
    }
}

/// Sets an environment's word by one hold.
fn set_word<R: Wait>(rt: &R, cell: &ThreadCell, seat: EnvSeat, env: EnvNo, word: u64) -> EnvSeat
    requires ready { IsReady cell.now env 1 seat }
    ensures told { result.view.mine ≡ seat.view.mine ++ Asked env (asked_by env seat.view.mine) (SetWord word) ∷ [] }
    ensures ready { (left : ℕ) → IsReady cell.now env (left + 1) seat → IsReady cell.now env left result }
{
    let mut hold = cell.hold(rt, seat);
    let slot = hold.slot();
    let _asked = slot.ask(env, Call::SetWord(word), TraceBuf::none());
    hold.store()
}

/// Sets an environment's word to `first` and the next numbers, by one hold each.
fn set_words<R: Wait>(rt: &R, cell: &ThreadCell, seat: EnvSeat, env: EnvNo, first: u64) -> EnvSeat
    requires ready { IsReady cell.now env 100 seat }
    requires new { seat.view.mine ≡ [] }
    requires range { first < 2 ^ 32 }
    ensures set { HasSet cell.now env (sets env first 100) result }
{
    let mut seat = seat;
    for i in 0..HOLDS {
        seat = set_word(rt, cell, seat, env, first + u64::from(i));
    }
    seat
}

/// Two environments set their words at once.
fn set_both<R: Threads + Wait + Sync>(
    rt: &R,
    cell: &ThreadCell,
    one: EnvSeat,
    two: EnvSeat,
) -> (EnvSeat, EnvSeat)
    requires one { IsReady cell.now (record { 0 = 0 }) 100 one × (one.view.mine ≡ []) }
    requires two { IsReady cell.now (record { 0 = 1 }) 100 two × (two.view.mine ≡ []) }
    ensures one { HasSet cell.now (record { 0 = 0 }) (sets (record { 0 = 0 }) 0 100) result.0 }
    ensures two { HasSet cell.now (record { 0 = 1 }) (sets (record { 0 = 1 }) 100 100) result.1 }
{
    join(
        rt,
        move || -> EnvSeat
            requires { IsReady cell.now (record { 0 = 0 }) 100 one × (one.view.mine ≡ []) }
            ensures { HasSet cell.entry.now (record { 0 = 0 }) (sets (record { 0 = 0 }) 0 100) result }
        { set_words(rt, cell, one, EnvNo(0), 0) },
        move || -> EnvSeat
            requires { IsReady cell.now (record { 0 = 1 }) 100 two × (two.view.mine ≡ []) }
            ensures { HasSet cell.entry.now (record { 0 = 1 }) (sets (record { 0 = 1 }) 100 100) result }
        { set_words(rt, cell, two, EnvNo(1), 100) },
    )
}

/// The seats of two environments. Each may make a hundred calls.
fn both(cell: &ThreadCell, limits: Limits, seats: Vec<EnvSeat>) -> Option<(EnvSeat, EnvSeat)>
    requires seats { seats.items ≡ env_seats cell.now (subject_of limits (record { 0 = 0 })) 2 }
    requires envs { limits.envs ≡ 2 }
    requires calls { limits.calls ≡ 100 }
    ensures one { IfSome result (λ s. IsReady cell.now (record { 0 = 0 }) 100 s.0 × (s.0.view.mine ≡ [])) }
    ensures two { IfSome result (λ s. IsReady cell.now (record { 0 = 1 }) 100 s.1 × (s.1.view.mine ≡ [])) }
{
    let _cell = cell;
    let _limits = limits;
    let mut seats = seats;
    let two = seats.pop()?;
    let one = seats.pop()?;
    Some((one, two))
}

/// The slot of a cell of two environments, after their seats have come back.
fn finish(cell: ThreadCell, own: OwnSeat, one: EnvSeat, two: EnvSeat) -> Slot
    requires here { (one.cell ≡ cell) × (two.cell ≡ cell) }
    requires owner { IsOwner cell 3 own }
    requires others { (one.view.number ≡ 1) × (two.view.number ≡ 2) }
    ensures legal { is_legal result.limits result.history ≡ true }
    ensures seen { StartsWith result.history own.view.seen × StartsWith result.history one.view.seen × StartsWith result.history two.view.seen }
    ensures own { made_by 0 result.history ≡ own.view.mine }
    ensures one { made_by 1 result.history ≡ one.view.mine }
    ensures two { made_by 2 result.history ≡ two.view.mine }
    ensures others { (n : ℕ) → 2 < n → made_by n result.history ≡ [] }
{
    let mut own = own;
    cell.rejoin(&mut own, one);
    cell.rejoin(&mut own, two);
    let Some(slot) = cell.close(own) else {
        unreachable!()
    };
    slot
}

/// A cell's owner starts the thread, two environments hold the cell a hundred times each, and all seats come back. It gives
/// whether the thread started, and the slot. For every schedule, the slot has the calls of each in their order. `None` if
/// memory runs out.
fn shared_by_two<R: Threads + Wait + Sync>(
    rt: &R,
    alloc: Global,
    limits: Limits,
) -> Option<(bool, Slot)>
    requires envs { limits.envs ≡ 2 }
    requires calls { limits.calls ≡ 100 }
    ensures legal { IfSome result (λ s. is_legal s.1.limits s.1.history ≡ true) }
    ensures own { IfSome result (λ s. made_by 0 s.1.history ≡ (if s.0 then Start ∷ [] else [])) }
    ensures one { IfSome result (λ s. made_by 1 s.1.history ≡ sets (record { 0 = 0 }) 0 100) }
    ensures two { IfSome result (λ s. made_by 2 s.1.history ≡ sets (record { 0 = 1 }) 100 100) }
    ensures others { IfSome result (λ s. (n : ℕ) → 2 < n → made_by n s.1.history ≡ []) }
{
    let Ok((cell, own, seats)) = ThreadCell::make(alloc, limits, ThreadNo(0)) else {
        return None;
    };
    let (one, two) = both(&cell, limits, seats)?;
    let (started, own) = start(rt, &cell, own);
    let (one, two) = set_both(rt, &cell, one, two);
    Some((started, finish(cell, own, one, two)))
}

/// No clause says that the thread starts, that there are 201 entries, or which words there are at the end.
#[test]
fn two_threads_share_a_cell(rt: HostRuntime) -> Result<(), Fail> {
    let Some(limits) = Limits::new(1, 2, 1, 1, 100) else {
        return Err("the limits are in range".into());
    };
    let limits = limits.recorded();
    let Some((started, slot)) = shared_by_two(&rt, rt.alloc(), limits) else {
        return Err("there is memory".into());
    };
    assert!(rt; started && slot.len() == 201);
    let Some(history) = slot.history() else {
        return Err("the history is kept".into());
    };
    let Ok(view) = replay(rt.alloc(), limits, history) else {
        return Err("the history is legal".into());
    };
    assert!(rt; view.words.get(0) == 99 && view.words.get(1) == 199);
    Ok(())
}

ghost use Rattle.std.specs.Prelude.{ℕ, ◌≡◌, ◌+◌, ◌-◌, ◌<◌, ◌≤◌, ◌^◌, IfSome, true, if◌then◌else◌, [], ◌∷◌, ◌++◌};
ghost use Rattle.ti_types.specs.declared.call.Call.TheVariants.{SetWord};
ghost use Rattle.ti_types.specs.declared.entry.Entry.TheVariants.{Asked, Start};
ghost use Rattle.ti_replay.specs.Legal.{is_legal, asked_by};
ghost use Rattle.ti_replay.specs.Makers.{made_by, StartsWith};
ghost use Rattle.ti_cell.specs.View.{subject_of};
ghost use Rattle.ti_cell.specs.Seats.{env_seats};
ghost use Rattle.ti_cell_tests.specs.Cells.{IsReady, HasSet, IsOwner, sets};
