//! The state of a replay, after some entries of a history.

use crate::all_answers::{tell_entries, tell_next};
use crate::costs::{Costs, charge, env_of, own_cost};
use crate::one_answer::{take_entries_asking, take_entry_asking};
use crate::rules::{
    fits, is_hand_over, is_running, is_safe, is_stopper, is_waiting_call, newest_is_native,
    step_fits,
};
use crate::view::{take_entries, take_entry, take_step};
use std::alloc::{AllocError, Global};
use std::marker::Model;
use ti_types::{Answer, Entry, EnvNo, FrameList, Limits, Mode, Safe, Step, ThreadView, WordList};

/// What a history has left so far, as all later entries need it. It has the view, the calls that wait, the place of the next
/// entry, and what the thread and each environment have spent.
#[derive(Drop, Debug)]
pub struct Progress {
    view: ThreadView,
    waiting: Vec<(usize, Entry)>,
    next: usize,
    own: u64,
    costs: Vec<Costs>,
}

impl Model for Progress {
    ghost use Rattle.ti_replay.specs.PlacedState.{PlacedState};
    ghost use Rattle.ti_replay.specs.Costs.{ArePaid};

    ghost Value = { PlacedState };

    ghost view = { λ a. record { view = a.view; waiting = a.waiting.items; next = a.next; own = a.own; costs = a.costs.items } };

    ghost invariant = { λ a. ArePaid a.costs.items };
}

impl Progress {
    /// The state of a history with no entry. The error is lack of memory for a word and a row of costs for each environment.
    #[tactic(auto, using(crate::proofs::CostLaws::paid_at_first))]
    pub fn new(alloc: Global, limits: &Limits) -> Result<Self, AllocError>
        ensures { IfOk result (λ p. p ≡ placed_state limits.now []) }
    {
        let words = WordList::zeros(alloc, limits.envs as usize)?;
        let costs = vec![in alloc; Costs { asked: 0, calls: 0 }; limits.envs as usize]?;
        let view = ThreadView {
            mode: Mode::New,
            frames: FrameList::new(alloc),
            suspended: false,
            stopper: None,
            words,
        };
        Ok(Progress {
            view,
            waiting: Vec::new(alloc),
            next: 0,
            own: 0,
            costs,
        })
    }

    /// Whether an entry may come next (this profile, `specs/Legal`).
    #[inline(always)]
    pub fn may_enter(&self, limits: &Limits, entry: Entry) -> bool
        ensures { result ≡ may_enter limits.now self.now entry }
    {
        let costs = match env_of(entry) {
            Some(env) if (env.0 as usize) < self.costs.len() => self.costs[env.0 as usize],
            _ => Costs { asked: 0, calls: 0 },
        };
        let armed = !self.waiting.is_empty() || self.view.stopper.is_some();
        fits(limits, &self.view, armed, self.own, costs, entry)
    }

    /// Adds an entry that may come next: it takes place, or waits. The error is lack of memory.
    #[tactic(auto, using(crate::proofs::CostLaws::due, crate::proofs::CostLaws::still_paid))]
    pub fn enter(&mut self, limits: &Limits, entry: Entry) -> Result<(), AllocError>
        requires may { may_enter limits.now self.old entry ≡ true }
        requires room { self.old.next + 1 < 2 ^ 64 }
        ensures { OnOk result (self.new ≡ entered self.old entry) }
    {
        let _limits = *limits;
        settle(&mut self.view, &mut self.waiting, self.next, entry)?;
        charge(&mut self.costs, entry);
        self.own += own_cost(entry);
        self.next += 1;
        Ok(())
    }

    /// Adds a step of the thread if it may come next, and says whether it may. If it may not, nothing changes. The error is
    /// lack of memory.
    #[tactic(auto, using(crate::proofs::Charging::charged_free))]
    fn advance_by_step(&mut self, limits: &Limits, step: Step) -> Result<bool, AllocError>
        requires room { self.old.next + 1 < 2 ^ 64 }
        ensures may { IfOk result (λ may. may ≡ may_enter limits.now self.old (entry.Own step)) }
        ensures state { IfOk result (λ may. may ≡ true → self.new ≡ entered self.old (entry.Own step)) }
    {
        let fits = is_running(self.view.mode)
            && step_fits(limits, &self.view.frames, step)
            && self.own < limits.own;
        if fits {
            take_step(&mut self.view.frames, step)?;
            self.own += 1;
            self.next += 1;
        }
        Ok(fits)
    }

    /// Adds a hand-over if it may come next, and says whether it may. If it may not, nothing changes. The error is lack of
    /// memory.
    #[tactic(auto, using(crate::proofs::Charging::charged_free))]
    fn advance_by_hand(&mut self, limits: &Limits, safe: Safe) -> Result<bool, AllocError>
        requires room { self.old.next + 1 < 2 ^ 64 }
        ensures may { IfOk result (λ may. may ≡ may_enter limits.now self.old (entry.Hand safe)) }
        ensures state { IfOk result (λ may. may ≡ true → self.new ≡ entered self.old (entry.Hand safe)) }
    {
        let armed = !self.waiting.is_empty() || self.view.stopper.is_some();
        let fits = is_running(self.view.mode)
            && match safe {
                Safe::AtPoll => armed,
                Safe::Native => {
                    newest_is_native(&self.view.frames) && limits.own.saturating_sub(self.own) >= 2
                }
                Safe::Blocked(_) => limits.own.saturating_sub(self.own) >= 2,
            };
        if fits {
            self.view.mode = Mode::AtSafe(safe);
            take_entries(&mut self.view, &self.waiting)?;
            self.waiting.clear();
            self.own += own_cost(Entry::Hand(safe));
            self.next += 1;
        }
        Ok(fits)
    }

    /// Adds a return if it may come next, and says whether it may. If it may not, nothing changes.
    #[tactic(auto, using(crate::proofs::Charging::charged_free))]
    fn advance_by_back(&mut self, limits: &Limits) -> bool
        requires room { self.old.next + 1 < 2 ^ 64 }
        ensures may { result ≡ may_enter limits.now self.old entry.Back }
        ensures state { result ≡ true → self.new ≡ entered self.old entry.Back }
    {
        let _limits = *limits;
        let fits = is_safe(self.view.mode) && !(self.view.suspended || self.view.stopper.is_some());
        if fits {
            self.view.mode = Mode::Running;
            self.next += 1;
        }
        fits
    }

    /// Adds a go if it may come next, and says whether it may. If it may not, nothing changes.
    #[tactic(auto, using(crate::proofs::Charging::charged_free))]
    fn advance_by_go(&mut self, limits: &Limits, env: EnvNo) -> bool
        requires room { self.old.next + 1 < 2 ^ 64 }
        ensures may { result ≡ may_enter limits.now self.old (entry.Go env) }
        ensures state { result ≡ true → self.new ≡ entered self.old (entry.Go env) }
    {
        let known = env.0 < limits.envs;
        let stands = is_stopper(self.view.stopper, env);
        let fits = known && stands;
        if fits {
            self.view.stopper = None;
            self.next += 1;
        }
        fits
    }

    /// Adds an entry if it may come next, and says whether it may. If it may not, nothing changes. The error is lack of
    /// memory.
    pub fn advance(&mut self, limits: &Limits, entry: Entry) -> Result<bool, AllocError>
        requires room { self.old.next + 1 < 2 ^ 64 }
        ensures may { IfOk result (λ may. may ≡ may_enter limits.now self.old entry) }
        ensures state { IfOk result (λ may. may ≡ true → self.new ≡ entered self.old entry) }
    {
        // Most entries are steps, and most others are these.
        if let Entry::Own(step) = entry {
            return self.advance_by_step(limits, step);
        }
        match entry {
            Entry::Hand(safe) => return self.advance_by_hand(limits, safe),
            Entry::Back => return Ok(self.advance_by_back(limits)),
            Entry::Go(env) => return Ok(self.advance_by_go(limits, env)),
            _ => (),
        }
        if !self.may_enter(limits, entry) {
            return Ok(false);
        }
        self.enter(limits, entry)?;
        Ok(true)
    }

    /// Adds an entry that may come next, and gives the answer to the entry at `place`. That is `given` if there is one. The
    /// error is lack of memory.
    #[tactic(auto, using(crate::proofs::CostLaws::due, crate::proofs::CostLaws::still_paid))]
    pub fn enter_asking(
        &mut self,
        alloc: Global,
        limits: &Limits,
        entry: Entry,
        place: usize,
        given: Option<Answer>,
    ) -> Result<Option<Answer>, AllocError>
        requires may { may_enter limits.now self.old entry ≡ true }
        requires room { self.old.next + 1 < 2 ^ 64 }
        requires few { length self.old.view.frames < 2 ^ 32 }
        requires calls { all_calls self.old.waiting ≡ true }
        ensures state { OnOk result (self.new ≡ entered self.old entry) }
        ensures reply { IfOk result (λ a. option_map said a ≡ option_or (option_map said given) (reply_from self.old.view (settled_by self.old entry) place)) }
    {
        let _limits = *limits;
        let given = settle_asking(
            alloc,
            &mut self.view,
            &mut self.waiting,
            self.next,
            entry,
            place,
            given,
        )?;
        charge(&mut self.costs, entry);
        self.own += own_cost(entry);
        self.next += 1;
        Ok(given)
    }

    /// Adds an entry that may come next. Each entry that takes place then has its answer written at its place. There is a
    /// place for each earlier entry, and one more is added. The error is lack of memory.
    #[tactic(auto, using(crate::proofs::CostLaws::due, crate::proofs::CostLaws::still_paid))]
    #[inline(always)]
    pub fn enter_telling(
        &mut self,
        alloc: Global,
        limits: &Limits,
        entry: Entry,
        told: &mut Vec<Option<Answer>>,
    ) -> Result<(), AllocError>
        requires may { may_enter limits.now self.old entry ≡ true }
        requires room { self.old.next + 1 < 2 ^ 64 }
        requires few { length self.old.view.frames < 2 ^ 32 }
        requires calls { all_calls self.old.waiting ≡ true }
        requires below { are_below self.old.next self.old.waiting ≡ true }
        requires places { length told.old.items ≡ self.old.next }
        ensures state { OnOk result (self.new ≡ entered self.old entry) }
        ensures places { OnOk result (length told.new.items ≡ self.new.next) }
        ensures told { OnOk result ((place : ℕ) → told_at told.new.items place ≡ option_or (told_at told.old.items place) (reply_from self.old.view (settled_by self.old entry) place)) }
    {
        let _limits = *limits;
        settle_telling(
            alloc,
            &mut self.view,
            &mut self.waiting,
            self.next,
            entry,
            told,
        )?;
        charge(&mut self.costs, entry);
        self.own += own_cost(entry);
        self.next += 1;
        Ok(())
    }

    /// The view at the end.
    pub fn into_view(self) -> ThreadView
        ensures { result ≡ self.view }
    {
        let Progress {
            view,
            waiting: _,
            next: _,
            own: _,
            costs: _,
        } = self;
        view
    }
}

/// Lets an entry take place, or wait. The error is lack of memory.
fn settle(
    view: &mut ThreadView,
    waiting: &mut Vec<(usize, Entry)>,
    next: usize,
    entry: Entry,
) -> Result<(), AllocError>
    ensures view { OnOk result (view.new ≡ view_behind view.old waiting.old.items entry) }
    ensures waiting { OnOk result (waiting.new.items ≡ waiting_behind view.old waiting.old.items next entry) }
{
    if is_hand_over(entry) {
        take_entry(view, entry)?;
        take_entries(view, waiting)?;
        waiting.clear();
    } else if is_waiting_call(entry) && is_running(view.mode) {
        waiting.push((next, entry))?;
    } else {
        take_entry(view, entry)?;
    }
    Ok(())
}

/// Lets an entry take place, or wait, and gives the answer to the entry at `place`. That is `given` if there is one. The
/// error is lack of memory.
fn settle_asking(
    alloc: Global,
    view: &mut ThreadView,
    waiting: &mut Vec<(usize, Entry)>,
    next: usize,
    entry: Entry,
    place: usize,
    given: Option<Answer>,
) -> Result<Option<Answer>, AllocError>
    requires few { length view.old.frames < 2 ^ 32 }
    requires calls { all_calls waiting.old.items ≡ true }
    ensures view { OnOk result (view.new ≡ view_behind view.old waiting.old.items entry) }
    ensures waiting { OnOk result (waiting.new.items ≡ waiting_behind view.old waiting.old.items next entry) }
    ensures reply { IfOk result (λ a. option_map said a ≡ option_or (option_map said given) (reply_from view.old (settling_of view.old waiting.old.items next entry) place)) }
{
    if is_hand_over(entry) {
        let given = take_entry_asking(alloc, view, next, entry, place, given)?;
        let given = take_entries_asking(alloc, view, waiting, place, given)?;
        waiting.clear();
        Ok(given)
    } else if is_waiting_call(entry) && is_running(view.mode) {
        waiting.push((next, entry))?;
        Ok(given)
    } else {
        take_entry_asking(alloc, view, next, entry, place, given)
    }
}

/// Lets a hand-over take place, and then the calls that wait. The answer to each of these is written at its place. The error
/// is lack of memory.
#[tactic(auto, using(crate::proofs::TellingLaws::below_all, crate::proofs::AskingLaws::hand_frames))]
fn hand_telling(
    alloc: Global,
    view: &mut ThreadView,
    waiting: &[(usize, Entry)],
    entry: Entry,
    told: &mut Vec<Option<Answer>>,
) -> Result<(), AllocError>
    requires hand { hand_over_is entry ≡ true }
    requires few { length view.old.frames < 2 ^ 32 }
    requires calls { all_calls waiting.now ≡ true }
    requires below { are_below (length told.old.items) waiting.now ≡ true }
    ensures view { OnOk result (view.new ≡ after_all (after view.old entry) waiting.now) }
    ensures length { OnOk result (length told.new.items ≡ length told.old.items + 1) }
    ensures told { OnOk result ((place : ℕ) → told_at told.new.items place ≡ option_or (told_at told.old.items place) (reply_from view.old ((length told.old.items, entry) ∷ waiting.now) place)) }
{
    tell_next(alloc, view, told, entry)?;
    tell_entries(alloc, view, told.as_mut_slice(), waiting)?;
    Ok(())
}

/// Lets an entry take place, or wait, and writes the answer to each that takes place. One place is added. The error is lack
/// of memory.
#[inline(always)]
#[tactic(auto, using(crate::proofs::TellingLaws::told_more))]
fn settle_telling(
    alloc: Global,
    view: &mut ThreadView,
    waiting: &mut Vec<(usize, Entry)>,
    next: usize,
    entry: Entry,
    told: &mut Vec<Option<Answer>>,
) -> Result<(), AllocError>
    requires few { length view.old.frames < 2 ^ 32 }
    requires calls { all_calls waiting.old.items ≡ true }
    requires below { are_below next waiting.old.items ≡ true }
    requires places { length told.old.items ≡ next }
    ensures view { OnOk result (view.new ≡ view_behind view.old waiting.old.items entry) }
    ensures waiting { OnOk result (waiting.new.items ≡ waiting_behind view.old waiting.old.items next entry) }
    ensures length { OnOk result (length told.new.items ≡ next + 1) }
    ensures told { OnOk result ((place : ℕ) → told_at told.new.items place ≡ option_or (told_at told.old.items place) (reply_from view.old (settling_of view.old waiting.old.items next entry) place)) }
{
    if is_hand_over(entry) {
        hand_telling(alloc, view, waiting, entry, told)?;
        waiting.clear();
    } else if is_waiting_call(entry) && is_running(view.mode) {
        told.push(None)?;
        waiting.push((next, entry))?;
    } else {
        tell_next(alloc, view, told, entry)?;
    }
    Ok(())
}

ghost use Rattle.std.specs.Prelude.{◌≡◌, ℕ, ◌+◌, ◌<◌, ◌^◌, ◌∷◌, [], ◌++◌, true, length, IfOk, OnOk, replicate};
ghost use Rattle.ti_replay.specs.Costs.{no_costs, charged};
ghost use Rattle.ti_replay.specs.View.{new_thread, after, after_all};
ghost use Rattle.ti_replay.specs.PlacedState.{placed_state, may_enter, entered, view_behind, waiting_behind, settled_by, settling_of, all_calls, are_below};
ghost use Rattle.ti_replay.specs.Settling.{is_hand_over as hand_over_is};
ghost use Rattle.ti_replay.specs.Replies.{reply_from, told_at};
ghost use Rattle.std.specs.Option.{option_map, option_or};
ghost use Rattle.ti_types.specs.Answer.{said};
ghost use Rattle.ti_types.specs.declared.entry.Entry.TheVariants as entry;
