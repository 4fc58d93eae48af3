//! What an agent has done so far, as a few numbers, and the answer to its next call.

use crate::book::Book;
use crate::packed_reply::{Got, part, same_got};
use crate::same::{asks_same, same_answer};
use std::alloc::{AllocError, Global};
use std::marker::Model;
use ti_types::{Answer, Call, Caps, Entry, EnvNo, Event, Frame, Limits, ThreadNo, TiError, needs};

/// What an agent has done so far. It has the agent's capabilities and its own word. For each thread it has how many calls
/// the agent has spent there, and how many of its entries it has used.
#[derive(Drop)]
pub struct Account {
    env: EnvNo,
    caps: Caps,
    word: u64,
    spent: Vec<u64>,
    used: Vec<usize>,
}

impl Model for Account {
    ghost use Rattle.ti_report.specs.Accounts.{AccountValue, IsWithin};

    ghost Value = { AccountValue };

    ghost view = { λ a. record { env = a.env; caps = a.caps; word = a.word; spent = a.spent.items; used = a.used.items } };

    ghost invariant = { λ a. IsWithin a.used.items a.spent.items };
}

/// The thread of a call at a thread, and 0 for other events.
fn thread_of(event: Event) -> ThreadNo
    ensures { result ≡ thread_of event }
{
    match event {
        Event::Ask(_, t, _) | Event::Stop(_, t) | Event::Read(_, t, _) | Event::Go(_, t) => t,
        _ => ThreadNo(0),
    }
}

impl Account {
    /// The account of an agent that has done nothing. The error is lack of memory.
    pub fn new(alloc: Global, limits: Limits, env: EnvNo) -> Result<Account, AllocError>
        ensures { IfOk result (λ a. a ≡ new_account limits env) }
    {
        let spent = vec![in alloc; 0; limits.threads as usize]?;
        let used = vec![in alloc; 0; limits.threads as usize]?;
        Ok(Account {
            env,
            caps: Caps::none(),
            word: 0,
            spent,
            used,
        })
    }

    /// The agent's environment.
    pub fn env(&self) -> EnvNo
        ensures { result ≡ self.now.env }
    {
        self.env
    }

    /// The capabilities that the environment has.
    pub fn caps(&self) -> Caps
        ensures { result ≡ self.now.caps }
    {
        self.caps
    }

    /// Whether the agent can pay for a stop and this many reads at a thread.
    pub fn can_pay(&self, limits: Limits, thread: ThreadNo, reads: usize) -> bool
        ensures { result ≡ can_pay_now limits self.now thread reads }
    {
        self.spent_at(thread) as u128 + (1 + reads as u128) <= limits.calls as u128
    }

    /// How many calls have been spent at a thread.
    #[inline(always)]
    fn spent_at(&self, thread: ThreadNo) -> u64
        ensures { result ≡ slice_index self.now.spent thread.0 }
    {
        let index = thread.0 as usize;
        if index < self.spent.len() {
            self.spent[index]
        } else {
            0
        }
    }

    /// How many entries have been used at a thread.
    #[inline(always)]
    fn used_at(&self, thread: ThreadNo) -> usize
        ensures { result ≡ slice_index self.now.used thread.0 }
    {
        let index = thread.0 as usize;
        if index < self.used.len() {
            self.used[index]
        } else {
            0
        }
    }

    /// Why a call does not reach a thread, with the first that fits: 10 if there is no such thread, 103 if the call is not
    /// well formed, and 209 if no call is left there.
    #[inline(always)]
    fn why_reaching(&self, limits: Limits, thread: ThreadNo, well_formed: bool) -> Option<TiError>
        ensures { result ≡ reaching_refusal (nat_lt thread.0 limits.threads) well_formed (slice_index self.now.spent thread.0) limits.calls }
    {
        if thread.0 >= limits.threads {
            Some(TiError::InvalidThread)
        } else if !well_formed {
            Some(TiError::IllegalArgument)
        } else if self.spent_at(thread) >= limits.calls {
            Some(TiError::CallsSpent)
        } else {
            None
        }
    }

    /// Why a call does not reach a thread: first 99 if a capability is missing, and then as `why_reaching`.
    #[inline(always)]
    fn why_asking(&self, limits: Limits, thread: ThreadNo, call: Call) -> Option<TiError>
        ensures { result ≡ asking_refusal self.now.caps (nat_lt thread.0 limits.threads) (slice_index self.now.spent thread.0) limits.calls call }
    {
        if !self.caps.has(needs(call)) {
            return Some(TiError::MustPossessCapability);
        }
        self.why_reaching(limits, thread, call.is_well_formed())
    }

    /// Why an event does not reach its thread, in this profile's order. `wanting` says that memory ran out for its answer.
    #[inline(always)]
    pub fn why(&self, limits: Limits, wanting: bool, event: Event) -> Option<TiError>
        ensures why { result ≡ why_now limits self.now wanting event }
        ensures few { IsFew self.now result event }
    {
        match event {
            Event::Ask(env, thread, call) => {
                let wanting = wanting && matches!(call, Call::Trace { .. });
                why_admitting(limits, env, self.why_asking(limits, thread, call), wanting)
            }
            Event::Stop(env, thread) => {
                why_admitting(limits, env, self.why_reaching(limits, thread, true), false)
            }
            Event::Read(env, thread, max_count) => {
                let why = self.why_reaching(limits, thread, max_count >= 0);
                why_admitting(limits, env, why, wanting)
            }
            Event::Go(env, thread) => {
                let why = (thread.0 >= limits.threads).then_some(TiError::InvalidThread);
                why_admitting(limits, env, why, false)
            }
            _ => None,
        }
    }

    /// How many calls the agent has spent in the whole history of a thread.
    #[tactic(auto, using(std::proofs::lemmas::Option::slice_get_past))]
    fn spent_in_all(&self, books: &[Book<'_>], thread: ThreadNo) -> usize
        ensures { result ≡ spent_in (slice_get books.now thread.0) self.now.env }
    {
        match books.get(thread.0 as usize) {
            Some(book) => book.spent_by(self.env),
            None => 0,
        }
    }

    /// How many entries the agent left at a thread.
    #[tactic(auto, using(std::proofs::lemmas::Option::slice_get_past))]
    fn rows_there(&self, books: &[Book<'_>], thread: ThreadNo) -> usize
        ensures { result ≡ length (rows_in (slice_get books.now thread.0) self.now.env) }
    {
        match books.get(thread.0 as usize) {
            Some(book) => book.rows_by(self.env),
            None => 0,
        }
    }

    /// Whether the agent has used all entries that it left at a thread.
    pub fn is_used_up(&self, books: &[Book<'_>], thread: ThreadNo) -> bool
        ensures { (result ≡ true) ↔ (slice_index self.now.used thread.0 ≡ length (rows_in (slice_get books.now thread.0) self.now.env)) }
    {
        self.used_at(thread) == self.rows_there(books, thread)
    }

    /// The next unused entry that the agent left at a thread, what it got, and the frames of its book.
    #[tactic(auto, using(crate::proofs::BookLaws::row_get))]
    #[inline(always)]
    fn next<'a>(&self, books: &'a [Book<'_>], thread: ThreadNo) -> Option<(Entry, Got, &'a [Frame])>
        ensures next { option_map (λ r. (r.0, told_in r.2.now r.1)) result ≡ slice_get (rows_in (slice_get books.now thread.0) self.now.env) (slice_index self.now.used thread.0) }
        ensures room { IfSome result (λ r. slice_index self.now.used thread.0 + 1 < 2 ^ 64) }
    {
        let book = books.get(thread.0 as usize)?;
        let rows = book.rows.get(self.env.0 as usize)?;
        let rows = rows.as_slice();
        let at = self.used_at(thread);
        if at >= rows.len() {
            return None;
        }
        let row = rows[at];
        let entry = row.left.entry(self.env, book.entries);
        Some((entry, row.got, &book.frames))
    }

    /// What the next unused entry at an event's thread got, with the frames of its book. `None` if it is not the entry that
    /// the event leaves.
    #[inline(always)]
    fn found<'a>(&self, books: &'a [Book<'_>], event: Event) -> Option<(Got, &'a [Frame])>
        ensures found { option_and_then (λ g. told_in g.1.now g.0) result ≡ got_by event (slice_get (rows_in (slice_get books.now (thread_of event).0) self.now.env) (slice_index self.now.used (thread_of event).0)) }
        ensures room { IfSome result (λ g. slice_index self.now.used (thread_of event).0 + 1 < 2 ^ 64) }
    {
        let (entry, got, frames) = self.next(books, thread_of(event))?;
        if asks_same(event, entry) {
            Some((got, frames))
        } else {
            None
        }
    }

    /// Whether a refusal is due. 209 is due only if the agent has spent all its calls at the thread, by the thread's
    /// history.
    fn is_due(&self, limits: Limits, books: &[Book<'_>], event: Event, error: TiError) -> bool
        ensures { result ≡ is_due limits.calls (spent_in (slice_get books.now (thread_of event).0) self.now.env) error }
    {
        if !matches!(error, TiError::CallsSpent) {
            return true;
        }
        self.spent_in_all(books, thread_of(event)) as u64 == limits.calls
    }

    /// The answer to an event about the environment. `None` for other events.
    fn own_answer(&self, event: Event) -> Option<Answer>
        ensures { option_map said result ≡ own_answer self.now event }
    {
        match event {
            Event::AddCaps(_, caps) => {
                if caps.can_be_had() {
                    Some(Answer::Done)
                } else {
                    Some(Answer::Refused(TiError::NotAvailable))
                }
            }
            Event::Relinquish(_, _) | Event::SetEnvWord(_, _) => Some(Answer::Done),
            Event::GetCaps(_) => Some(Answer::Caps(self.caps)),
            Event::GetEnvWord(_) => Some(Answer::Word(self.word)),
            _ => None,
        }
    }

    /// Whether this is the answer to an event. `why` says why the event does not reach its thread.
    pub fn says(
        &self,
        limits: Limits,
        books: &[Book<'_>],
        why: Option<TiError>,
        event: Event,
        answer: &Answer,
    ) -> bool
        ensures says { (result ≡ true) ↔ (told_with limits (λ t. page_in (slice_get books.now t) self.now.env) self.now why event ≡ Some (said answer.now)) }
        ensures room { result ≡ true → CanCount self.now why event }
    {
        if !is_call(event) {
            let Some(own) = self.own_answer(event) else {
                return false;
            };
            return same_answer(&own, answer);
        }
        match why {
            Some(error) => {
                self.is_due(limits, books, event, error)
                    && same_answer(&Answer::Refused(error), answer)
            }
            None => match self.found(books, event) {
                Some((got, frames)) => same_got(frames, got, answer),
                None => false,
            },
        }
    }

    /// The code of a call at a thread: 0 if it is done, or the number of its error. `None` if its answer is neither. `why`
    /// says why the call does not reach its thread.
    #[inline(always)]
    pub fn code(
        &self,
        limits: Limits,
        books: &[Book<'_>],
        why: Option<TiError>,
        event: Event,
    ) -> Option<u32>
        requires { is_call event ≡ true }
        ensures code { result ≡ code_of (told_with limits (λ t. page_in (slice_get books.now t) self.now.env) self.now why event) }
        ensures room { IfSome result (λ c. CanCount self.now why event) }
    {
        match why {
            Some(error) => {
                if self.is_due(limits, books, event, error) {
                    Some(error.number())
                } else {
                    None
                }
            }
            None => match self.found(books, event) {
                Some((Got::Done, _)) => Some(0),
                Some((Got::Refused(error), _)) => Some(error.number()),
                _ => None,
            },
        }
    }

    /// The state and the frames of a call whose answer is a stack. `None` if it is not. `why` says why the call does not
    /// reach its thread.
    pub fn stack<'a>(
        &self,
        limits: Limits,
        books: &'a [Book<'_>],
        why: Option<TiError>,
        event: Event,
    ) -> Option<(u32, &'a [Frame])>
        requires { is_call event ≡ true }
        ensures stack { (t : ThreadNo) → option_map (λ s. record { thread = t; state = s.0; frames = bare_trace s.1.now }) result ≡ stack_of t (told_with limits (λ t. page_in (slice_get books.now t) self.now.env) self.now why event) }
        ensures room { IfSome result (λ s. CanCount self.now why event) }
    {
        let _limits = limits;
        if why.is_some() {
            return None;
        }
        match self.found(books, event) {
            Some((Got::Stack(state, span), frames)) => Some((state, part(frames, span))),
            _ => None,
        }
    }

    /// Counts a spent call at a thread.
    #[tactic(auto, using(crate::proofs::AccountLaws::within_spent))]
    #[inline(always)]
    fn spend(&mut self, thread: ThreadNo)
        requires { slice_index self.old.spent thread.0 < most_calls }
        ensures { self.new ≡ record self.old { spent = counted true self.old.spent thread.0 } }
    {
        let index = thread.0 as usize;
        if index < self.spent.len() {
            self.spent[index] += 1;
        }
    }

    /// Counts a used entry at a thread.
    #[tactic(auto, using(crate::proofs::AccountLaws::within_used))]
    #[inline(always)]
    fn use_up(&mut self, thread: ThreadNo)
        requires { slice_index self.old.used thread.0 + 1 < 2 ^ 64 }
        ensures { self.new ≡ record self.old { used = counted true self.old.used thread.0 } }
    {
        let index = thread.0 as usize;
        if index < self.used.len() {
            self.used[index] += 1;
        }
    }

    /// Adds an event to the account. `why` says why the event does not reach its thread.
    #[inline(always)]
    pub fn account(&mut self, why: Option<TiError>, event: Event)
        requires few { IsFew self.old why event }
        requires room { CanCount self.old why event }
        ensures { self.new ≡ accounted_with self.old why event }
    {
        match event {
            Event::Ask(_, thread, _) | Event::Stop(_, thread) | Event::Read(_, thread, _) => {
                if why.is_none() {
                    self.spend(thread);
                    self.use_up(thread);
                }
            }
            Event::Go(_, thread) => {
                if why.is_none() {
                    self.use_up(thread);
                }
            }
            Event::AddCaps(env, caps) => {
                if env.0 == self.env.0 && caps.can_be_had() {
                    self.caps = self.caps.add(caps);
                }
            }
            Event::Relinquish(env, caps) => {
                if env.0 == self.env.0 {
                    self.caps = self.caps.relinquish(caps);
                }
            }
            Event::SetEnvWord(env, word) => {
                if env.0 == self.env.0 {
                    self.word = word;
                }
            }
            _ => (),
        }
    }
}

/// Whether an event is an agent's call at a thread.
fn is_call(event: Event) -> bool
    ensures { result ≡ is_call event }
{
    matches!(
        event,
        Event::Ask(_, _, _) | Event::Stop(_, _) | Event::Read(_, _, _) | Event::Go(_, _)
    )
}

/// Why a call of an environment is not admitted: 116 if there is no such environment, then its own refusal. Then it is 110,
/// if memory ran out for its answer.
fn why_admitting(
    limits: Limits,
    env: EnvNo,
    by_itself: Option<TiError>,
    wanting: bool,
) -> Option<TiError>
    ensures { result ≡ admitting_refusal (nat_lt env.0 limits.envs) by_itself wanting }
{
    if env.0 >= limits.envs {
        Some(TiError::InvalidEnvironment)
    } else if by_itself.is_some() {
        by_itself
    } else {
        wanting.then_some(TiError::OutOfMemory)
    }
}

ghost use Rattle.std.specs.Prelude.{◌≡◌, ◌↔◌, ◌<◌, ◌+◌, ◌^◌, nat_lt, true, false, Some, None, length, IfOk, IfSome, slice_get, slice_index, option_map, option_and_then};
ghost use Rattle.ti_types.specs.declared.numbers.EnvNo.{EnvNo};
ghost use Rattle.ti_types.specs.declared.numbers.ThreadNo.{ThreadNo};
ghost use Rattle.ti_types.specs.declared.limits.Limits.{Limits};
ghost use Rattle.ti_types.specs.Answer.{said};
ghost use Rattle.ti_types.specs.Frames.{bare_trace};
ghost use Rattle.ti_types.specs.Admitting.{admitting_refusal, asking_refusal, reaching_refusal};
ghost use Rattle.ti_report.specs.Told.{thread_of, is_call, is_due, got_by};
ghost use Rattle.ti_report.specs.Gots.{told_in};
ghost use Rattle.ti_types.specs.Limits.{most_calls};
ghost use Rattle.ti_report.specs.Books.{rows_in, spent_in, page_in};
ghost use Rattle.ti_report.specs.Accounts.{AccountValue, CanCount, IsFew, why_now, accounted_with, own_answer, told_with, counted, can_pay_now, new_account};
ghost use Rattle.ti_report.specs.Fits.{code_of, stack_of};
