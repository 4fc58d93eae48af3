//! The roster's cell: how it is made, held and looked at, and how seats are made.

use crate::hold::RosterHold;
use crate::parked::ParkedRoster;
use crate::seat::{Pass, RosterSeat};
use crate::view::{Frees, Glances, Locks, RosterRule, RosterView, Splits};
use crate::word::Word;
use atomic_table::Table;
use std::alloc::{AllocError, Global};
use std::marker::Model;
use std::sync::Wait;
use std::sync::atomic::{AtomicU64, Ordering};
use std::time::Duration;
use ti_cell::Pace;
use ti_types::{Limits, TiError};

/// A roster behind one word.
///
/// Contracts see it as the name of its table, which each of its seats has too: a seat is used with its own cell.
#[derive(Drop)]
pub struct RosterCell {
    table: Table<Option<ParkedRoster>, RosterView, Limits, RosterRule, Global>,
    /// How many sleep on the word, or are about to. It is no part of what contracts see.
    sleepers: AtomicU64,
}

impl Model for RosterCell {
    ghost use Rattle.std.specs.Prelude.{◌≡◌};
    ghost use Rattle.atomic_table.specs.Seated.{TableId, table_id_coded};

    ghost Value = { TableId };

    ghost coded = { table_id_coded };

    ghost view = { λ c. c.table.shared.table_id };

    ghost invariant = { λ c. (c.table.shared.table_id.words ≡ 1) × (c.table.shared.table_id.slots ≡ 1) };
}

impl RosterCell {
    /// A cell with the roster of nobody, and its first seat. 110 OUT_OF_MEMORY if there is no memory for it, and no other
    /// error (this profile).
    pub fn make(alloc: Global, limits: Limits) -> Result<(RosterCell, RosterSeat), TiError>
        ensures seat { IfOk result (λ m. (m.1.cell ≡ m.0) × (m.1.view ≡ first_view limits)) }
        ensures memory { IfErr result (λ e. e ≡ OutOfMemory) }
    {
        let roster = ParkedRoster::new(alloc, limits)?;
        let mut slots = Vec::with_capacity(alloc, 1)?;
        match slots.push(Some(roster)) {
            Ok(()) => (),
            Err(refused) => return Err(AllocError::from(refused).into()),
        }
        match Table::new(alloc, &[0], slots, &limits) {
            Ok((table, seat)) => {
                let sleepers = AtomicU64::new(0);
                Ok((
                    RosterCell { table, sleepers },
                    RosterSeat {
                        seat,
                        count: 0,
                        place: None,
                        limits,
                        watched: false,
                    },
                ))
            }
            Err(_) => Err(TiError::OutOfMemory),
        }
    }

    /// One more seat, which knows what this one knows. The seat is this cell's, and counts the seats that are made from it.
    pub fn split(&self, seat: &mut RosterSeat) -> RosterSeat
        requires cell { seat.old.cell ≡ self.now }
        ensures old { (seat.new.cell ≡ seat.old.cell) × (seat.new.view ≡ splitter seat.old.view) }
        ensures new { (result.cell ≡ self.now) × (result.view ≡ split_off seat.old.view) }
    {
        let (count, limits, watched) = (seat.count, seat.limits, seat.watched);
        let seat = self.table.shared.split_seat::<Splits>(&mut seat.seat);
        RosterSeat {
            seat,
            count,
            place: None,
            limits,
            watched,
        }
    }

    /// Sets the lock bit and takes the roster out, once nobody holds the cell. Between its looks it pauses, then yields its
    /// processor, and then it sleeps.
    ///
    /// The list of what happened begins with all that the seat has seen, and is as long as each of its looks showed. The seat
    /// is this cell's, and comes back when the hold is stored.
    pub fn hold<'a, R: Wait>(&'a self, rt: &R, seat: RosterSeat) -> RosterHold<'a>
        requires cell { seat.cell ≡ self.now }
        ensures cell { result.cell ≡ self.now }
        ensures view { result.view ≡ holding seat.view result.roster.items }
        ensures begins { Begins result.roster.items seat.view.seen }
        ensures claims { Claims result.roster.items seat.view.place seat.view.seen }
        ensures roster { (result.roster.limits ≡ seat.view.limits) × (result.roster.user ≡ seat.view.place) }
        ensures looked { AreWithin (length result.roster.items) seat.view.looked }
    {
        let RosterSeat {
            mut seat,
            count: _,
            place,
            limits: _,
            watched: _,
        } = seat;
        let mut roster = self.take(rt, &mut seat);
        roster.roster.as_mut().serve(place);
        RosterHold {
            cell: self,
            seat,
            roster,
        }
    }

    /// The same by one try, which never waits. The seat comes back as it was if another holds the cell.
    pub fn hold_now<'a>(&'a self, seat: RosterSeat) -> Result<RosterHold<'a>, RosterSeat>
        requires cell { seat.cell ≡ self.now }
        ensures cell { IfOk result (λ h. h.cell ≡ self.now) }
        ensures view { IfOk result (λ h. h.view ≡ holding seat.view h.roster.items) }
        ensures begins { IfOk result (λ h. Begins h.roster.items seat.view.seen) }
        ensures claims { IfOk result (λ h. Claims h.roster.items seat.view.place seat.view.seen) }
        ensures roster { IfOk result (λ h. (h.roster.limits ≡ seat.view.limits) × (h.roster.user ≡ seat.view.place)) }
        ensures looked { IfOk result (λ h. AreWithin (length h.roster.items) seat.view.looked) }
        ensures busy { IfErr result (λ s. s ≡ seat) }
    {
        let RosterSeat {
            mut seat,
            count,
            place,
            limits,
            watched,
        } = seat;
        match self.take_now(&mut seat) {
            Some(mut roster) => {
                roster.roster.as_mut().serve(place);
                Ok(RosterHold {
                    cell: self,
                    seat,
                    roster,
                })
            }
            None => Err(RosterSeat {
                seat,
                count,
                place,
                limits,
                watched,
            }),
        }
    }

    /// Takes the lock bit and the roster, once nobody has them.
    fn take<R: Wait>(&self, rt: &R, seat: &mut Pass) -> ParkedRoster
        requires { (seat.old.table_id ≡ self.now) × (seat.old.me.1 ≡ []) }
        ensures seat { (seat.new.table_id ≡ seat.old.table_id) × (seat.new.me ≡ (holding seat.old.me.0 result.items, (0, None) ∷ [])) }
        ensures found { IsFound result seat.old.me.0 }
    {
        let pace = Pace::new();
        for _ in rt.forever() {
            if let Some(roster) = self.take_now(seat) {
                return roster;
            }
            self.await_free(rt, &pace);
        }
        unreachable!()
    }

    /// Waits a little, after a try that found the roster in use, as the call's pace has it. It may sleep until somebody stores,
    /// and may return while the roster is in use.
    pub fn await_free<R: Wait>(&self, rt: &R, pace: &Pace) {
        if pace.has_had_enough() {
            self.sleep(rt);
        }
    }

    /// Takes the lock bit and the roster by one load and one exchange of the word, unless another has them.
    #[inline]
    fn take_now(&self, seat: &mut Pass) -> Option<ParkedRoster>
        requires { (seat.old.table_id ≡ self.now) × (seat.old.me.1 ≡ []) }
        ensures table { seat.new.table_id ≡ seat.old.table_id }
        ensures seat { IfSome result (λ r. seat.new.me ≡ (holding seat.old.me.0 r.items, (0, None) ∷ [])) }
        ensures found { IfSome result (λ r. IsFound r seat.old.me.0) }
        ensures busy { IfNone result (seat.new.me ≡ seat.old.me) }
    {
        let word = Word {
            bits: self.table.shared.peek(0),
        };
        if !word.is_free() {
            return None;
        }
        let found = self
            .table
            .shared
            .compare_exchange::<Locks>(seat, 0, word.bits, word.locked().bits);
        if found != word.bits {
            return None;
        }
        let Some(roster) = self.table.shared.exchange(seat, 0, None) else {
            unreachable!()
        };
        Some(roster)
    }

    /// Sleeps while another holds the cell, until somebody stores. Who is about to sleep counts itself first and looks then;
    /// who stores changes the word first and loads the count then. So one of the two sees the other.
    #[inline(never)]
    fn sleep<R: Wait>(&self, rt: &R) {
        self.sleepers.fetch_add(1, Ordering::SeqCst);
        let word = Word {
            bits: self.table.shared.peek(0),
        };
        if !word.is_free() {
            self.table.shared.park(rt, 0, word.low_half());
        }
        self.sleepers.fetch_sub(1, Ordering::SeqCst);
    }

    /// Sleeps until somebody stores, if no more has happened than the seat has seen, and for at most this time. It may return
    /// sooner.
    pub fn sleep_without_news_for<R: Wait>(&self, rt: &R, seat: &RosterSeat, time: Duration) {
        self.sleepers.fetch_add(1, Ordering::SeqCst);
        let word = Word {
            bits: self.table.shared.peek(0),
        };
        if word.count() <= seat.seen_len() {
            self.table.shared.park_timeout(rt, 0, word.low_half(), time);
        }
        self.sleepers.fetch_sub(1, Ordering::SeqCst);
    }

    /// Wakes who sleeps, if there is one, after stores that woke nobody (`RosterHold::store_quietly`). It is one load if nobody
    /// does.
    pub fn wake_sleepers(&self) {
        if self.sleepers.load(Ordering::SeqCst) != 0 {
            self.table.shared.wake_all(0);
        }
    }

    /// Puts the roster back, and clears the lock bit. It wakes nobody.
    pub(crate) fn give(&self, seat: &mut Pass, roster: ParkedRoster)
        requires seat { (seat.old.table_id ≡ self.now) × (seat.old.me.1 ≡ (0, None) ∷ []) × (seat.old.me.0.holds ≡ true) }
        requires may { MayStore roster seat.old.me.0 }
        ensures seat { (seat.new.table_id ≡ seat.old.table_id) × (seat.new.me ≡ (stored seat.old.me.0 roster, [])) }
    {
        let word = Word::free(roster.len());
        drop(self.table.shared.exchange(seat, 0, Some(roster)));
        self.table.shared.store::<Frees>(seat, 0, word.bits);
    }

    /// How much has happened, by one load. It is no less than what the seat has seen, or than any earlier look of it showed.
    /// Whoever holds the cell with this seat later finds at least as much. The seat is this cell's.
    pub fn count(&self, seat: &mut RosterSeat) -> u64
        requires cell { seat.old.cell ≡ self.now }
        ensures seat { (seat.new.cell ≡ seat.old.cell) × (seat.new.view ≡ glanced seat.old.view result) }
        ensures count { length seat.old.view.seen ≤ result }
        ensures looked { AreWithin result seat.old.view.looked }
    {
        Word {
            bits: self.table.shared.load::<Glances>(&mut seat.seat, 0),
        }
        .count()
    }
}

ghost use Rattle.std.specs.Prelude.{◌≡◌, ◌≤◌, true, [], ◌∷◌, length, None, IfOk, IfErr, IfSome, IfNone};
ghost use Rattle.ti_types.specs.declared.error.TiError.TheVariants.{OutOfMemory};
ghost use Rattle.ti_roster.specs.View.{AreWithin, first_view, glanced, holding, split_off, splitter, stored};
ghost use Rattle.ti_roster.specs.Rule.{Begins, Claims, IsFound, MayStore};
