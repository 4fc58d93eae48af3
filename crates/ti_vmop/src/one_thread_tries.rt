//! What a global operation does at one thread, by calls that never wait.
//!
//! Each tries to hold the thread's cell just once. They take no runtime, so they neither spin nor sleep.

use ti_handshake::Desk;
use ti_types::{Answer, TiError, TraceBuf};

/// Stops a thread, if no stop is in force there.
///
/// The error is `AlreadyStopped` (211) if one is, this environment's own too, or `Busy` (215) if the thread's cell is in use.
/// Then nothing was added.
pub fn stop_one_now(desk: &mut Desk) -> Result<(), TiError>
    requires calls { calls_spent desk.old.env desk.old.view.mine < desk.old.view.subject.limits.calls }
    ensures stopped { OnOk result (HasAdded desk.old desk.new (entry.Stop desk.old.env ∷ [])) }
    ensures barred { IfErr result (λ e. IsBusy desk.old desk.new e ⊎ ((e ≡ AlreadyStopped) × HasAdded desk.old desk.new [] × (stop_refusal desk.old desk.new ≡ Some AlreadyStopped))) }
{
    match desk.stop_now() {
        Ok(Answer::Refused(error)) => Err(error),
        Ok(_) => Ok(()),
        Err(error) => Err(error),
    }
}

/// Sees that a thread is standing for the desk's environment. Nothing is added.
///
/// The error is `StillRunning` (213) if it is not, or `Busy` (215) if the thread's cell is in use.
pub fn see_one_now(desk: &mut Desk) -> Result<(), TiError>
    ensures stands { OnOk result (HasAdded desk.old desk.new [] × (is_standing desk.new.view.subject.limits desk.new.view.seen desk.new.env ≡ true)) }
    ensures runs { IfErr result (λ e. IsBusy desk.old desk.new e ⊎ ((e ≡ StillRunning) × HasAdded desk.old desk.new [] × (is_standing desk.new.view.subject.limits desk.new.view.seen desk.new.env ≡ false))) }
{
    match desk.standing_now() {
        Ok(true) => Ok(()),
        Ok(false) => Err(TiError::StillRunning),
        Err(error) => Err(error),
    }
}

/// Reads a thread that was seen standing, if its cell is free. The error is the buffer, as it was. Then nothing changed.
pub fn read_one_now(desk: &mut Desk, max_count: i32, buf: TraceBuf) -> Result<Answer, TraceBuf>
    requires count { is_not_negative max_count ≡ true }
    requires calls { calls_spent desk.old.env desk.old.view.mine < desk.old.view.subject.limits.calls }
    requires buf { HasRoomFor desk.old.view.subject.limits (or_zero_of max_count) buf }
    requires stands { is_standing desk.old.view.subject.limits desk.old.view.seen desk.old.env ≡ true }
    ensures added { OnOk result (HasAdded desk.old desk.new (entry.Read desk.old.env max_count ∷ [])) }
    ensures read { IfOk result (λ a. IsRead desk.old desk.new max_count (said a)) }
    ensures busy { IfErr result (λ b. (b ≡ buf) × (desk.new ≡ desk.old)) }
{
    desk.facts();
    desk.read_now(max_count, buf)
}

/// Lets a thread go that was seen standing. The error is `Busy` (215) if the thread's cell is in use. Then nothing changed.
pub fn go_one_now(desk: &mut Desk) -> Result<(), TiError>
    requires stands { is_standing desk.old.view.subject.limits desk.old.view.seen desk.old.env ≡ true }
    ensures gone { OnOk result (HasAdded desk.old desk.new (entry.Go desk.old.env ∷ [])) }
    ensures busy { IfErr result (λ e. IsBusy desk.old desk.new e) }
{
    desk.facts();
    let _answer = desk.go_now()?;
    Ok(())
}

/// Lets a thread go at which this environment's stop is in force, whether it was seen standing or not. The error is `Busy`
/// (215) if the thread's cell is in use. Then nothing changed.
pub fn go_again_now(desk: &mut Desk) -> Result<(), TiError>
    requires stopped { stops_by desk.old.env desk.old.view.mine ≡ true }
    ensures gone { OnOk result (HasAdded desk.old desk.new (entry.Go desk.old.env ∷ [])) }
    ensures busy { IfErr result (λ e. IsBusy desk.old desk.new e) }
{
    desk.facts();
    let _answer = desk.go_now()?;
    Ok(())
}

ghost use Rattle.std.specs.Prelude.{◌≡◌, ◌<◌, ◌⊎◌, true, false, [], ◌∷◌, Some, IfOk, IfErr, OnOk};
ghost use Rattle.ti_types.specs.Answer.{said};
ghost use Rattle.ti_types.specs.declared.entry.Entry.TheVariants as entry;
ghost use Rattle.ti_types.specs.declared.error.TiError.TheVariants.{AlreadyStopped, StillRunning};
ghost use Rattle.ti_handshake.specs.Desk.{stop_refusal};
ghost use Rattle.ti_replay.specs.Answers.{or_zero as or_zero_of};
ghost use Rattle.ti_replay.specs.Fronts.{stops_by};
ghost use Rattle.ti_replay.specs.Legal.{calls_spent, is_not_negative};
ghost use Rattle.ti_replay.specs.Standing.{is_standing};
ghost use Rattle.ti_slot.specs.Waiting.{HasRoomFor};
ghost use Rattle.ti_vmop.specs.Tries.{IsBusy};
ghost use Rattle.ti_vmop.specs.Turns.{HasAdded, IsRead};
