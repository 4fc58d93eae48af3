//! Reads what a history gives its agents, in one pass over its replies.

use crate::packed_entry::Left;
use crate::packed_reply::{Got, got_of};
use std::alloc::{AllocError, Global};
use ti_live::Listed;
use ti_replay::{ReplayFault, replies};
use ti_types::{Answer, Entry, EnvNo, Frame, Limits};

/// An entry that an agent left, and what it got.
#[derive(Clone, Copy)]
pub struct Note {
    /// The entry.
    pub left: Left,
    /// Its answer, if it has one.
    pub got: Got,
}

/// What a history gives its agents. For each agent, it has the entries that it left and what each got, and how many calls it
/// has spent. The frames of all answers are in one list. Those of a thread that does not move are there once.
#[derive(Drop)]
pub struct Book<'a> {
    /// The entries of the history.
    pub entries: &'a [Entry],
    /// For each agent, the entries that it left.
    pub rows: Vec<Listed<Note>>,
    /// The frames of all answers.
    pub frames: Vec<Frame>,
    /// For each agent, how many calls it has spent.
    pub spent: Vec<usize>,
}

impl Book<'_> {
    /// How many entries an agent left.
    #[tactic(auto, using(crate::proofs::BookLaws::rows_long))]
    pub fn rows_by(&self, env: EnvNo) -> usize
        ensures { result ≡ length (rows_at self.now.entries.now self.now.frames.items self.now.rows.items env) }
    {
        let index = env.0 as usize;
        if index < self.rows.len() {
            self.rows[index].as_slice().len()
        } else {
            0
        }
    }

    /// How many calls an agent has spent.
    pub fn spent_by(&self, env: EnvNo) -> usize
        ensures { result ≡ slice_index self.now.spent.items env.0 }
    {
        let index = env.0 as usize;
        if index < self.spent.len() {
            self.spent[index]
        } else {
            0
        }
    }
}

/// The number of the agent that left an entry.
#[inline(always)]
fn maker(entry: Entry) -> Option<u32>
    ensures { (e : EnvNo) → is_left_by e entry ≡ is_number result e.0 }
{
    match entry {
        Entry::Asked(env, _, _) | Entry::Stop(env) | Entry::Read(env, _) | Entry::Go(env) => {
            Some(env.0)
        }
        _ => None,
    }
}

/// What an entry of an agent got, if this is its reply.
#[inline(always)]
fn grant(frames: &mut Vec<Frame>, entry: Entry, reply: &Option<Answer>) -> Result<Got, AllocError>
    ensures grows { OnOk result ((more : List Frame) × (frames.new.items ≡ frames.old.items ++ more)) }
    ensures got { IfOk result (λ g. (more : List Frame) → told_in (frames.new.items ++ more) g ≡ granted entry (option_map said reply.now)) }
{
    match entry {
        Entry::Stop(_) | Entry::Go(_) => Ok(Got::Done),
        _ => got_of(frames, reply),
    }
}

/// The number of the agent that pays for an entry.
fn payer(entry: Entry) -> Option<u32>
    ensures { (e : EnvNo) → call_cost e entry ≡ (if is_number result e.0 then 1 else 0) }
{
    match entry {
        Entry::Asked(env, _, _) | Entry::Read(env, _) | Entry::Stop(env) => Some(env.0),
        _ => None,
    }
}

/// Adds a row to an agent's rows, if there is such an agent.
#[inline(always)]
fn add_row(rows: &mut Vec<Listed<Note>>, index: usize, row: Note) -> Result<(), AllocError>
    ensures length { length rows.new.items ≡ length rows.old.items }
    ensures rows { OnOk result ((k : ℕ) → k < length rows.old.items → slice_index_or rows.new.items k [] ≡ with_row rows.old.items index row k) }
{
    if index < rows.len() {
        rows[index].push(row)?;
    }
    Ok(())
}

/// Empty rows for as many agents as there are counts. Each has room for its count.
#[tactic(auto, using(crate::proofs::BookLaws::none_more))]
fn no_rows(alloc: Global, counts: &[usize]) -> Result<Vec<Listed<Note>>, AllocError>
    ensures length { IfOk result (λ r. length r.items ≡ length counts.now) }
    ensures rows { IfOk result (λ r. (k : ℕ) → slice_index_or r.items k [] ≡ []) }
{
    let mut rows = Vec::with_capacity(alloc, counts.len())?;
    for i in 0..counts.len() {
        rows.push(Listed::with_room(alloc, counts[i])?)?;
    }
    Ok(rows)
}

/// Counts an entry for the agent that left it.
fn count(counts: &mut Vec<usize>, entry: Entry)
    ensures { length counts.new.items ≡ length counts.old.items }
{
    if let Some(env) = maker(entry) {
        let index = env as usize;
        if index < counts.len() {
            counts[index] = counts[index].saturating_add(1);
        }
    }
}

/// How many entries each agent left in this history.
fn made(alloc: Global, limits: Limits, entries: &[Entry]) -> Result<Vec<usize>, AllocError>
    ensures { IfOk result (λ c. length c.items ≡ limits.envs) }
{
    let mut counts = vec![in alloc; 0; limits.envs as usize]?;
    for at in 0..entries.len() {
        count(&mut counts, entries[at]);
    }
    Ok(counts)
}

/// Adds the entry at a place of a history, and what it got, to the rows of the agent that left it.
#[inline(always)]
fn take_row(
    rows: &mut Vec<Listed<Note>>,
    frames: &mut Vec<Frame>,
    entries: &[Entry],
    at: usize,
    reply: &Option<Answer>,
) -> Result<(), AllocError>
    requires place { at < length entries.now }
    requires few { at < 2 ^ 32 }
    ensures agents { OnOk result (length rows.new.items ≡ length rows.old.items) }
    ensures rows { OnOk result ((e : EnvNo) → e.0 < length rows.old.items → (known : List (Entry × Option Answer)) → ((more : List Frame) → rows_at entries.now (frames.old.items ++ more) rows.old.items e ≡ known) → (more : List Frame) → rows_at entries.now (frames.new.items ++ more) rows.new.items e ≡ known ++ (if is_left_by e (get_or entries.now at Start) then (get_or entries.now at Start, granted (get_or entries.now at Start) (option_map said reply.now)) ∷ [] else [])) }
{
    let entry = entries[at];
    let Some(env) = maker(entry) else {
        return Ok(());
    };
    let got = grant(frames, entry, reply)?;
    let left = Left::of(entry, at as u32);
    add_row(rows, env as usize, Note { left, got })?;
    Ok(())
}

/// The rows of all agents, and the frames in them.
#[derive(Drop)]
struct Table {
    rows: Vec<Listed<Note>>,
    frames: Vec<Frame>,
}

/// What each agent left in this history and got, if these are the replies at all places. The error is lack of memory, or a
/// history of more than 2^32 - 1 entries.
#[tactic(auto, using(crate::proofs::BookLaws::rows_of_take))]
fn noted(
    alloc: Global,
    limits: Limits,
    entries: &[Entry],
    replies: &[Option<Answer>],
) -> Result<Table, AllocError>
    requires places { length replies.now ≡ length entries.now }
    requires replies { (place : ℕ) → told_at replies.now place ≡ reply limits entries.now place }
    ensures { IfOk result (λ r. (e : EnvNo) → e.0 < limits.envs → rows_at entries.now r.frames.items r.rows.items e ≡ got limits e entries.now) }
{
    if entries.len() > u32::MAX as usize {
        return Err(AllocError);
    }
    let counts = made(alloc, limits, entries)?;
    let mut rows = no_rows(alloc, &counts)?;
    let mut frames = Vec::new(alloc);
    for at in 0..entries.len() {
        take_row(&mut rows, &mut frames, entries, at, &replies[at])?;
    }
    Ok(Table { rows, frames })
}

/// Counts an entry for the agent that pays for it. No agent has paid for more than `most` before.
fn pay(spent: &mut Vec<usize>, entry: Entry, most: usize)
    requires few { (k : ℕ) → slice_index spent.old.items k ≤ most }
    requires room { most + 1 < 2 ^ 64 }
    ensures agents { length spent.new.items ≡ length spent.old.items }
    ensures spent { (e : EnvNo) → e.0 < length spent.old.items → slice_index spent.new.items e.0 ≡ slice_index spent.old.items e.0 + call_cost e entry }
    ensures few { (k : ℕ) → slice_index spent.new.items k ≤ most + 1 }
{
    if let Some(env) = payer(entry) {
        let index = env as usize;
        if index < spent.len() {
            spent[index] += 1;
        }
    }
}

/// How many calls each agent has spent at a thread with this history.
#[tactic(auto, using(crate::proofs::BookLaws::spent_take))]
fn spent(alloc: Global, limits: Limits, entries: &[Entry]) -> Result<Vec<usize>, AllocError>
    ensures { IfOk result (λ s. (e : EnvNo) → e.0 < limits.envs → slice_index s.items e.0 ≡ calls_spent e entries.now) }
{
    let mut spent = vec![in alloc; 0; limits.envs as usize]?;
    for at in 0..entries.len() {
        pay(&mut spent, entries[at], at);
    }
    Ok(spent)
}

/// What a history gives its agents, or `None` if the history is not legal. The error is lack of memory.
pub fn read_book<'a>(
    alloc: Global,
    limits: Limits,
    entries: &'a [Entry],
) -> Result<Option<Book<'a>>, AllocError>
    ensures legal { IfOk result (λ b. IfSome b (λ b. is_legal limits entries.now ≡ true)) }
    ensures illegal { IfOk result (λ b. IfNone b (is_legal limits entries.now ≡ false)) }
    ensures book { IfOk result (λ b. IfSome b (IsBook limits entries.now)) }
{
    match replies(alloc, limits, entries) {
        Ok(replies) => {
            let Table { rows, frames } = noted(alloc, limits, entries, &replies)?;
            let spent = spent(alloc, limits, entries)?;
            Ok(Some(Book {
                entries,
                rows,
                frames,
                spent,
            }))
        }
        Err(ReplayFault::Illegal { .. }) => Ok(None),
        Err(ReplayFault::Memory) => Err(AllocError),
    }
}

ghost use Rattle.std.specs.Prelude.{◌≡◌, get_or, List, Option, ◌++◌, ◌∷◌, ◌^◌, ◌≤◌, ◌<◌, ◌+◌, ℕ, [], true, false, length, IfOk, OnOk, IfSome, IfNone, slice_index, slice_index_or, if◌then◌else◌};
ghost use Rattle.std.specs.Option.{option_map};
ghost use Rattle.ti_types.specs.Answer.{said};
ghost use Rattle.ti_types.specs.declared.place.Frame.{Frame};
ghost use Rattle.ti_types.specs.declared.entry.Entry.{Entry};
ghost use Rattle.ti_types.specs.declared.entry.Entry.TheVariants.{Start};
ghost use Rattle.ti_types.specs.declared.answer.Answer.{Answer};
ghost use Rattle.ti_report.specs.Gots.{told_in};
ghost use Rattle.ti_types.specs.declared.numbers.EnvNo.{EnvNo};
ghost use Rattle.ti_replay.specs.Legal.{is_legal, call_cost, calls_spent};
ghost use Rattle.ti_replay.specs.Replies.{reply, told_at};
ghost use Rattle.ti_report.specs.Told.{got, granted, is_left_by};
ghost use Rattle.ti_report.specs.Books.{rows_at, with_row, is_number, IsBook};
