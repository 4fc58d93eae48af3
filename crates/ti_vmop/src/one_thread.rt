//! What a global operation does at one thread.

use std::sync::Wait;
use ti_handshake::Desk;
use ti_types::{Answer, TraceBuf};

/// Stops a thread at which this environment has no stop.
pub fn stop_one<R: Wait>(rt: &R, desk: &mut Desk)
    requires calls { calls_spent desk.old.env desk.old.view.mine < desk.old.view.subject.limits.calls }
    requires free { stops_by desk.old.env desk.old.view.mine ≡ false }
    ensures same { IsSame desk.old desk.new }
    ensures hold { Waits desk.old.view desk.new.view (entry.Stop desk.old.env ∷ []) }
{
    desk.facts();
    let _answer = desk.stop(rt);
    desk.facts();
}

/// Waits until the thread is standing for the desk's environment. It looks between its holds until the history has grown.
pub fn await_one<R: Wait>(rt: &R, desk: &mut Desk)
    ensures same { IsSame desk.old desk.new }
    ensures hold { Waits desk.old.view desk.new.view [] }
    ensures stands { is_standing desk.old.view.subject.limits desk.new.view.seen desk.old.env ≡ true }
{
    desk.facts();
    for _ in rt.forever() {
        if desk.standing(rt) {
            return;
        }
        desk.await_news(rt);
    }
    unreachable!()
}

/// Reads a thread that was seen standing.
pub fn read_one<R: Wait>(rt: &R, desk: &mut Desk, max_count: i32, buf: TraceBuf) -> Answer
    requires count { is_not_negative max_count ≡ true }
    requires calls { calls_spent desk.old.env desk.old.view.mine < desk.old.view.subject.limits.calls }
    requires buf { HasRoomFor desk.old.view.subject.limits (or_zero_of max_count) buf }
    requires stands { is_standing desk.old.view.subject.limits desk.old.view.seen desk.old.env ≡ true }
    ensures same { IsSame desk.old desk.new }
    ensures hold { Holds desk.old.view desk.new.view (entry.Read desk.old.env max_count ∷ []) }
    ensures reply { reply desk.old.view.subject.limits desk.new.view.seen (length (found desk.old.view desk.new.view)) ≡ Some (said result) }
    ensures answer { (here : StartsWith (found desk.old.view desk.new.view) desk.old.view.seen) × TellsOf desk.old.view.subject.limits desk.old.view.seen here.0 max_count (said result) }
    ensures stands { is_standing desk.old.view.subject.limits desk.new.view.seen desk.old.env ≡ true }
{
    desk.facts();
    desk.read(rt, max_count, buf)
}

/// Lets a thread go that was seen standing.
pub fn go_one<R: Wait>(rt: &R, desk: &mut Desk)
    requires stands { is_standing desk.old.view.subject.limits desk.old.view.seen desk.old.env ≡ true }
    ensures same { IsSame desk.old desk.new }
    ensures hold { Holds desk.old.view desk.new.view (entry.Go desk.old.env ∷ []) }
{
    desk.facts();
    let _answer = desk.go(rt);
}

ghost use Rattle.std.specs.Prelude.{◌≡◌, ◌<◌, true, false, [], ◌∷◌, if◌then◌else◌, length, Some};
ghost use Rattle.ti_types.specs.Answer.{said};
ghost use Rattle.ti_types.specs.declared.entry.Entry.TheVariants as entry;
ghost use Rattle.ti_replay.specs.Answers.{or_zero as or_zero_of};
ghost use Rattle.ti_replay.specs.Legal.{calls_spent, is_not_negative};
ghost use Rattle.ti_replay.specs.Makers.{StartsWith};
ghost use Rattle.ti_replay.specs.Replies.{reply};
ghost use Rattle.ti_replay.specs.Standing.{is_standing};
ghost use Rattle.ti_slot.specs.Waiting.{HasRoomFor};
ghost use Rattle.ti_handshake.specs.Call.{Waits, Holds, found};
ghost use Rattle.ti_handshake.specs.Desk.{IsSame};
ghost use Rattle.ti_replay.specs.Fronts.{stops_by, TellsOf};
