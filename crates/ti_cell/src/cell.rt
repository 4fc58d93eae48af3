//! The cell of a thread: how it is made, looked at and closed, and how seats come back to it.

use crate::hold::Hold;
use crate::look::Look;
use crate::pace::Pace;
use crate::parked::{Parked, unpark};
use crate::poll_word::PollWord;
use crate::role::Role;
use crate::seat::{CellSeat, EnvSeat, OwnSeat, Pass};
use crate::sleepers::Sleepers;
use crate::view::{CellRule, Frees, Glances, Locks, Returns, Seats, Subject, View};
use crate::word::Word;
use atomic_table::Table;
use std::alloc::{AllocError, Global};
use std::marker::{Model, PhantomData};
use std::sync::{Arc, Wait};
use ti_slot::Slot;
use ti_types::{Answer, Call, EnvNo, Limits, ThreadNo, TiError};

/// One thread's slot behind one word.
///
/// Contracts see it as the name of its table. Each of its seats has that name too, so that a seat is used with its own cell.
///
/// # Examples
///
/// ```rattle
/// # use ti_cell::ThreadCell;
/// # use ti_slot::Asked;
/// # use ti_types::{Answer, Call, EnvNo, Limits, ThreadNo, TraceBuf};
/// # let limits = Limits::new(1, 1, 4, 16, 8).ok_or("the limits are in range")?;
/// let (cell, own, mut seats) = ThreadCell::make(rt.alloc(), limits, ThreadNo(0))?;
/// let mut hold = cell.hold(&rt, own);
/// assert!(rt; hold.slot().start().is_ok());
/// let mut own = hold.store();
/// // An environment holds the cell by its own seat.
/// let mut hold = cell.hold(&rt, seats.pop().ok_or("there is one environment")?);
/// let asked = hold.slot().ask(EnvNo(0), Call::State, TraceBuf::none());
/// let seat = hold.store();
/// assert!(rt; matches!(asked, Asked::Answered(Answer::State(0x5))));
/// assert_eq!(rt; cell.look(&mut own).count, 2, "a start and a call");
/// cell.rejoin(&mut own, seat);
/// assert!(rt; cell.close(own).is_some());
/// ```
#[derive(Drop)]
pub struct ThreadCell {
    pub(crate) table: Table<Option<Parked>, View, Subject, CellRule, Global>,
    pub(crate) sleepers: Sleepers,
    poll_word: PollWord,
}

impl Model for ThreadCell {
    ghost use Rattle.std.specs.Prelude.{◌≡◌};
    ghost use Rattle.atomic_table.specs.Seated.{TableId, table_id_coded};

    ghost Value = { TableId };

    ghost coded = { table_id_coded };

    ghost view = { λ c. c.table.shared.table_id };

    ghost invariant = { λ c. (c.table.shared.table_id.words ≡ 1) × (c.table.shared.table_id.slots ≡ 1) };
}

impl ThreadCell {
    /// Makes a cell with the slot of a thread that has not started. With it come the thread's own seat and one seat for each
    /// environment, in the order of their numbers.
    ///
    /// Fails with `OutOfMemory` (110) if there is no memory for all that, and in no other case (this profile).
    pub fn make(
        alloc: Global,
        limits: Limits,
        number: ThreadNo,
    ) -> Result<(ThreadCell, OwnSeat, Vec<EnvSeat>), TiError>
        ensures own { IfOk result (λ m. (m.1.cell ≡ m.0) × (m.1.view ≡ newcomer (subject_of limits number) 0 (limits.envs + 1))) }
        ensures others { IfOk result (λ m. m.2.items ≡ env_seats m.0 (subject_of limits number) limits.envs) }
        ensures memory { IfErr result (λ e. e ≡ TiError.OutOfMemory) }
    {
        let mut seats = Vec::with_capacity(alloc, limits.envs as usize)?;
        let (cell, mut pass) = ThreadCell::open(alloc, limits, number)?;
        let shared = shared_limits(alloc, limits)?;
        for env in 0..limits.envs {
            let limits = Arc::try_clone(&shared)?;
            match seats.push(cell.split(&mut pass, env + 1, number, limits)) {
                Ok(()) => (),
                Err(refused) => return Err(AllocError::from(refused).into()),
            }
        }
        let own = CellSeat {
            seat: pass,
            number: 0,
            thread: number,
            count: 0,
            out: 0,
            limits: shared,
            role: PhantomData,
        };
        Ok((cell, own, seats))
    }

    /// Makes a cell with the owner's pass alone.
    fn open(alloc: Global, limits: Limits, number: ThreadNo) -> Result<(ThreadCell, Pass), TiError>
        ensures pass { IfOk result (λ m. (m.1.table_id ≡ m.0) × (m.1.me ≡ (newcomer (subject_of limits number) 0 1, []))) }
        ensures memory { IfErr result (λ e. e ≡ TiError.OutOfMemory) }
    {
        let subject = Subject {
            limits,
            thread: number,
        };
        let parked = Parked::new(alloc, limits, number)?;
        let mut slots = Vec::with_capacity(alloc, 1)?;
        match slots.push(Some(parked)) {
            Ok(()) => (),
            Err(refused) => return Err(AllocError::from(refused).into()),
        }
        match Table::new(alloc, &[0], slots, &subject) {
            Ok((table, pass)) => {
                let cell = ThreadCell {
                    table,
                    sleepers: Sleepers::nobody(),
                    poll_word: PollWord::clear(),
                };
                Ok((cell, pass))
            }
            Err(_) => Err(TiError::OutOfMemory),
        }
    }

    /// Splits a seat off the owner's. It gets the next number, which is given, as are the thread's and its limits.
    fn split(&self, pass: &mut Pass, number: u32, thread: ThreadNo, limits: Arc<Limits>) -> EnvSeat
        requires pass { pass.old.table_id ≡ self.now }
        requires owner { (pass.old.me.0.number ≡ 0) × (pass.old.me.0.gone ≡ false) }
        requires number { number ≡ pass.old.me.0.made }
        requires there { (0 < number) × (number ≤ pass.old.me.0.subject.limits.envs) }
        requires thread { thread ≡ pass.old.me.0.subject.thread }
        requires limits { arc_value limits ≡ pass.old.me.0.subject.limits }
        ensures pass { (pass.new.table_id ≡ pass.old.table_id) × (pass.new.me ≡ (splitter pass.old.me.0, pass.old.me.1)) }
        ensures seat { (result.cell ≡ self.now) × (result.view ≡ split_off pass.old.me.0) }
    {
        let seat = self.table.shared.split_seat::<Seats>(pass);
        CellSeat {
            seat,
            number,
            thread,
            count: 0,
            out: 0,
            limits,
            role: PhantomData,
        }
    }

    /// Sets the lock bit and moves the slot out, once nobody holds the cell. Between its looks it first pauses, then yields
    /// its processor, and then sleeps.
    ///
    /// The seat is this cell's. It comes back when the hold is stored.
    ///
    /// The slot has one legal history, which begins with all that the seat has seen. Its entries with the seat's number are
    /// exactly those made from the seat. What the seat looked at was this history, when it had the length of the look.
    pub fn hold<'a, K: Role, R: Wait>(&'a self, rt: &R, seat: CellSeat<K>) -> Hold<'a, K>
        requires cell { seat.cell ≡ self.now }
        ensures cell { result.cell ≡ self.now }
        ensures view { result.view ≡ holding seat.view result.slot.history result.slot.uncollected }
        ensures taken { IsTaken seat.view result.slot }
    {
        let CellSeat {
            mut seat,
            number,
            thread,
            count: _,
            out: _,
            limits,
            role,
        } = seat;
        let slot = self.take(rt, &mut seat);
        Hold {
            cell: self,
            seat,
            number,
            thread,
            slot,
            limits,
            role,
        }
    }

    /// Takes the lock bit and the slot, once nobody has them.
    fn take<R: Wait>(&self, rt: &R, seat: &mut Pass) -> Parked
        requires { (seat.old.table_id ≡ self.now) × (seat.old.me.1 ≡ []) × (seat.old.me.0.gone ≡ false) }
        ensures seat { (seat.new.table_id ≡ seat.old.table_id) × (seat.new.me ≡ (holding seat.old.me.0 result.history result.uncollected, (0, None) ∷ [])) }
        ensures taken { IsTaken seat.old.me.0 result }
    {
        let pace = Pace::new();
        for _ in rt.forever() {
            if let Some(slot) = self.take_now(seat) {
                return slot;
            }
            self.await_free(rt, &pace);
        }
        unreachable!()
    }

    /// The same as `hold`, but it tries once and never waits. If another user holds the cell, or comes first, the seat comes
    /// back as it was.
    #[inline(always)]
    pub fn hold_now<'a, K: Role>(&'a self, seat: CellSeat<K>) -> Result<Hold<'a, K>, CellSeat<K>>
        requires cell { seat.cell ≡ self.now }
        ensures cell { IfOk result (λ h. h.cell ≡ self.now) }
        ensures view { IfOk result (λ h. h.view ≡ holding seat.view h.slot.history h.slot.uncollected) }
        ensures taken { IfOk result (λ h. IsTaken seat.view h.slot) }
        ensures busy { IfErr result (λ s. s ≡ seat) }
    {
        let CellSeat {
            mut seat,
            number,
            thread,
            count,
            out,
            limits,
            role,
        } = seat;
        match self.take_now(&mut seat) {
            Some(slot) => Ok(Hold {
                cell: self,
                seat,
                number,
                thread,
                slot,
                limits,
                role,
            }),
            None => Err(CellSeat {
                seat,
                number,
                thread,
                count,
                out,
                limits,
                role,
            }),
        }
    }

    /// Makes a call at the thread that is answered at once (`Slot::ask_at_once`), in one hold: it takes the slot, asks it and
    /// stores it, and the seat stays where it is. It tries once and never waits, and wakes nobody. `None` if another user holds
    /// the cell, or comes first. Then nothing changes.
    ///
    /// The seat is this cell's and the environment's. The call is not one that waits, and the environment has a call left.
    #[inline(always)]
    pub fn ask_now(&self, seat: &mut EnvSeat, env: EnvNo, call: Call) -> Option<Answer>
        requires cell { seat.old.cell ≡ self.now }
        requires number { seat.old.view.number ≡ env.0 + 1 }
        requires there { env.0 < seat.old.view.subject.limits.envs }
        requires at_once { waits call ≡ false }
        requires calls { calls_spent env seat.old.view.mine < seat.old.view.subject.limits.calls }
        ensures cell { seat.new.cell ≡ seat.old.cell }
        ensures asked { IfSome result (λ a. AsksAtOnce seat.old.view seat.new.view env call a) }
        ensures legal { is_legal seat.new.view.subject.limits seat.new.view.seen ≡ true }
        ensures mine { seat.new.view.mine ≡ made_by seat.new.view.number seat.new.view.seen }
        ensures busy { IfNone result (seat.new ≡ seat.old) }
    {
        let Some(slot) = self.take_now(&mut seat.seat) else {
            return None;
        };
        let mut slot = slot;
        let answer = slot.slot_mut().ask_at_once(env, call);
        seat.count = slot.len();
        self.give(&mut seat.seat, slot);
        Some(answer)
    }

    /// Takes the lock bit and the slot, by one load and one exchange of the word. `None` if another user has them, or comes
    /// first.
    #[inline(always)]
    fn take_now(&self, seat: &mut Pass) -> Option<Parked>
        requires { (seat.old.table_id ≡ self.now) × (seat.old.me.1 ≡ []) × (seat.old.me.0.gone ≡ false) }
        ensures table { seat.new.table_id ≡ seat.old.table_id }
        ensures seat { IfSome result (λ p. seat.new.me ≡ (holding seat.old.me.0 p.history p.uncollected, (0, None) ∷ [])) }
        ensures taken { IfSome result (λ p. IsTaken seat.old.me.0 p) }
        ensures busy { IfNone result (seat.new.me ≡ seat.old.me) }
    {
        let word = Word {
            bits: self.table.shared.peek(0),
        };
        if !word.is_free() {
            return None;
        }
        let found = self
            .table
            .shared
            .compare_exchange::<Locks>(seat, 0, word.bits, word.locked().bits);
        if found != word.bits {
            return None;
        }
        let Some(slot) = self.table.shared.exchange(seat, 0, None) else {
            unreachable!()
        };
        Some(slot)
    }

    /// Puts the slot back and clears the lock bit. It wakes nobody. If somebody calls for the thread now, and nobody did before, it
    /// is entered into the list of the watch that is told of it. By then the word shows the call.
    #[inline(always)]
    pub(crate) fn give(&self, seat: &mut Pass, slot: Parked)
        requires seat { (seat.old.table_id ≡ self.now) × (seat.old.me.1 ≡ (0, None) ∷ []) × (seat.old.me.0.holds ≡ true) × (seat.old.me.0.gone ≡ false) }
        requires adds { Adds seat.old.me.0.number seat.old.me.0.seen slot.history }
        requires keeps { Keeps seat.old.me.0.number seat.old.me.0.found slot.uncollected }
        requires about { IsAbout seat.old.me.0.subject slot }
        ensures seat { (seat.new.table_id ≡ seat.old.table_id) × (seat.new.me ≡ (stored seat.old.me.0 slot.history slot.uncollected, [])) }
        ensures mine { (stored seat.old.me.0 slot.history slot.uncollected).mine ≡ made_by seat.old.me.0.number slot.history }
        ensures legal { is_legal seat.old.me.0.subject.limits slot.history ≡ true }
    {
        let armed = slot.armed();
        let word = Word::free(slot.len(), armed, slot.barred());
        let wanted = if self.poll_word.show(armed) {
            slot.watched()
        } else {
            None
        };
        if let Some(_found) = self.table.shared.exchange(seat, 0, Some(slot)) {
            unreachable!()
        }
        self.table.shared.store::<Frees>(seat, 0, word.bits);
        if let Some(watched) = wanted {
            watched.enter();
        }
    }

    /// What the word shows, by one load: the bits that the history has at that moment, and its length. That is at least the
    /// length of what the seat has seen.
    ///
    /// The seat is this cell's. Its next hold finds a history that had these bits when it had this length.
    pub fn look<K: Role>(&self, seat: &mut CellSeat<K>) -> Look
        requires cell { seat.old.cell ≡ self.now }
        ensures seat { (seat.new.cell ≡ seat.old.cell) × (seat.new.view ≡ glanced seat.old.view result) }
        ensures count { length seat.old.view.seen ≤ result.count }
    {
        Word {
            bits: self.table.shared.load::<Glances>(&mut seat.seat, 0),
        }
        .look()
    }

    /// The address of a word that is 1 while somebody calls for the thread, and otherwise 0 (this profile). It is for code that
    /// looks at it in place of `look`, and may be read as long as the cell is there. No contract says what is found there.
    pub fn poll_word(&self) -> *mut u64 {
        self.poll_word.address()
    }

    /// Takes an environment's seat back to the owner's, by one load. The owner's seat keeps what its user knew, and `close`
    /// says that it is true of the slot. Both seats are this cell's.
    pub fn rejoin(&self, own: &mut OwnSeat, seat: EnvSeat)
        requires cell { own.old.cell ≡ self.now }
        requires other { seat.cell ≡ self.now }
        ensures cell { own.new.cell ≡ own.old.cell }
        ensures view { own.new.view ≡ rejoined own.old.view seat.view }
    {
        let CellSeat {
            seat,
            number: _,
            thread: _,
            count: _,
            out: _,
            limits: _,
            role: _,
        } = seat;
        self.table.shared.join_seat::<Returns>(&mut own.seat, seat);
    }

    /// The slot at the end, with the one history that the rule keeps. The seat is this cell's.
    ///
    /// The history is legal. It begins with all that the thread itself and each user whose seat came back had seen. Of each
    /// of them it has exactly the entries that it made.
    ///
    /// If all seats came back (`IsAlone`), the slot is there, and has no other entry. Its history is what one of its users
    /// saw last.
    ///
    /// Otherwise the result is `None` exactly if the word that the cell ends with has the lock bit (`Word::unlocked`). A
    /// hold has to be stored, and borrows the cell, so that does not happen. But of seats that are away no clause says so.
    pub fn close(self, seat: OwnSeat) -> Option<Slot>
        requires cell { seat.cell ≡ self }
        ensures ends { Ends seat.view result }
        ensures legal { IfSome result (λ s. is_legal s.limits s.history ≡ true) }
        ensures seen { IfSome result (λ s. StartsWith s.history seat.view.seen) }
        ensures mine { IfSome result (λ s. seat.view.mine ≡ made_by seat.view.number s.history) }
        ensures users { IfSome result (λ s. Each (IsSo s.limits s.history s.uncollected) (users seat.view)) }
        ensures whole { IsAlone seat.view → IsWhole (users seat.view) result }
        ensures last { IsAlone seat.view → IfSome result (λ s. WasSeen s.history (users seat.view)) }
        ensures about { IfSome result (λ s. IsAbout seat.view.subject s) }
    {
        let ThreadCell {
            table,
            sleepers: _,
            poll_word: _,
        } = self;
        let CellSeat {
            seat,
            number: _,
            thread: _,
            count: _,
            out: _,
            limits: _,
            role: _,
        } = seat;
        let mut closed = table.close_with(seat);
        let word = Word {
            bits: closed.word(0),
        };
        let slot = closed.take(0);
        closed.free();
        word.unlocked(unpark(slot))
    }
}

/// The limits of a thread, once for all seats of its cell. 110 OUT_OF_MEMORY if there is no memory for them.
fn shared_limits(alloc: Global, limits: Limits) -> Result<Arc<Limits>, TiError>
    ensures limits { IfOk result (λ l. arc_value l ≡ limits) }
    ensures memory { IfErr result (λ e. e ≡ TiError.OutOfMemory) }
{
    match Arc::new(alloc, limits) {
        Ok(limits) => Ok(limits),
        Err(_) => Err(TiError::OutOfMemory),
    }
}

ghost use Rattle.std.specs.Arc.{arc_value};
ghost use Rattle.std.specs.Prelude.{◌≡◌, ◌+◌, true, false, [], ◌∷◌, length, ◌<◌, ◌≤◌, IfOk, IfErr, IfSome, IfNone, None};
ghost use Rattle.ti_types.specs.declared.error.TiError.TheVariants as TiError;
ghost use Rattle.ti_replay.specs.Legal.{calls_spent, is_legal};
ghost use Rattle.ti_replay.specs.Makers.{made_by, Adds, StartsWith};
ghost use Rattle.ti_replay.specs.Settling.{waits};
ghost use Rattle.ti_cell.specs.View.{subject_of, newcomer, splitter, split_off, holding, stored, glanced, rejoined, users, IsAbout, IsAlone};
ghost use Rattle.ti_cell.specs.Asking.{AsksAtOnce};
ghost use Rattle.ti_cell.specs.Rule.{IsTaken, Ends, Each, IsSo, IsWhole, WasSeen, Keeps};
ghost use Rattle.ti_cell.specs.Seats.{env_seats};
