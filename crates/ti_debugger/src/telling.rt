//! What a session is told without a request: starts and ends of threads, and classes that were defined.

use crate::desk::Desk;
use crate::seat::Seat;
use ti_service::LifeEvent;

/// How many starts and ends of threads, and how many classes, are told at once.
const EVENTS: u32 = 4_096;

/// Tells the session, if there is one, of the starts and ends of threads.
pub(crate) fn tell_lives(seat: &mut Option<Seat>, desk: &mut Desk)
    ensures told { ToldOfLives (session_in seat.old) (session_in seat.new) }
    ensures due { due_in seat.new ≡ due_in seat.old }
    ensures rest { Watches desk.old desk.new }
{
    for _ in 0..EVENTS {
        let Some(life) = desk.next_life() else {
            return;
        };
        tell_life(seat, life);
    }
}

/// Tells the session, if there is one, of the start or the end of a thread.
fn tell_life(seat: &mut Option<Seat>, life: LifeEvent)
    ensures told { ToldOfLives (session_in seat.old) (session_in seat.new) }
    ensures due { due_in seat.new ≡ due_in seat.old }
{
    if let Some(seat) = seat {
        seat.tell(life);
    }
}

/// Tells the session, if there is one, of the classes that were defined. Without one they are passed over.
pub(crate) fn tell_classes(seat: &mut Option<Seat>, desk: &mut Desk)
    ensures told { ToldBy (classes_of desk.new.agent) desk.old.next_class desk.new.next_class (session_in seat.old) (session_in seat.new) }
    ensures due { due_in seat.new ≡ due_in seat.old }
    ensures resumptions { desk.new.resumptions ≡ desk.old.resumptions }
    ensures about { desk.new.about ≡ desk.old.about }
    ensures starts { desk.new.starts ≡ desk.old.starts }
    ensures variables { (desk.new.tells ≡ desk.old.tells) × (desk.new.asked ≡ desk.old.asked) × (desk.new.objects ≡ desk.old.objects) }
{
    desk.more_classes = false;
    for _ in 0..EVENTS {
        if !tell_class(seat, desk) {
            return;
        }
    }
    desk.more_classes = true;
}

/// Tells the session, if there is one, of the next class. False if there is none, or if it is told later.
fn tell_class(seat: &mut Option<Seat>, desk: &mut Desk) -> bool
    ensures told { ToldBy (classes_of desk.new.agent) desk.old.next_class desk.new.next_class (session_in seat.old) (session_in seat.new) }
    ensures due { due_in seat.new ≡ due_in seat.old }
    ensures known { IsPrefix (classes_of desk.old.agent) (classes_of desk.new.agent) }
    ensures rest { desk.new ≡ record desk.old { agent = desk.new.agent; next_class = desk.new.next_class } }
    ensures more { desk.new.next_class ≡ (if result then desk.old.next_class + 1 else desk.old.next_class) }
{
    let Some(prepared) = desk.next_prepared() else {
        return false;
    };
    if let Some(seat) = seat {
        let Some(thread) = desk.crowd.first_alive() else {
            return false;
        };
        if !seat.tell_class(thread, &prepared) {
            return false;
        }
    }
    desk.next_class += 1;
    true
}

ghost use Rattle.std.specs.Prelude.{◌≡◌, ◌+◌, if◌then◌else◌};
ghost use mathlib.Core.List.{IsPrefix};
ghost use Rattle.ti_service.specs.Classes.{classes_of};
ghost use Rattle.ti_debugger.specs.Desks.{Watches};
ghost use Rattle.ti_debugger.specs.Sessions.{due_in, session_in};
ghost use Rattle.ti_debugger.specs.Told.{ToldBy, ToldOfLives};
