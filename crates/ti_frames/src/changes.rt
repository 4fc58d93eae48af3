//! The steps that lead from the frames of a thread to others.

use crate::log::Log;
use ti_types::{Frame, Place, Step};

/// The steps that keep the oldest frames, and enter others over them, lead to those frames. Each of them is accepted.
#[tactic(auto, using(crate::proofs::ChangeLaws::keeping_leads))]
pub fn kept_frames_stay()
    ensures { KeepingLeads }
{}

/// The steps between two stacks lead from the one to the other. Each of them is accepted.
#[tactic(auto, using(crate::proofs::ChangeLaws::steps_lead))]
pub fn steps_lead_between()
    ensures { StepsLead }
{}

/// Whether two frames are in the same method, at the same place.
fn is_same(a: Frame, b: Frame) -> bool
    ensures { result ≡ is_same_frame a b }
{
    a == b
}

/// How many frames two stacks share, counted from the oldest. `old` lists the oldest first, and `new` the newest first.
pub(crate) fn shared_frames(old: &[Frame], new: &[Frame]) -> usize
    ensures shared { result ≡ common_prefix_len is_same_frame old.now (reverse new.now) }
    ensures old { result ≤ length old.now }
    ensures new { result ≤ length new.now }
{
    let most = old.len().min(new.len());
    for i in 0..most {
        if !is_same(old[i], new[new.len() - 1 - i]) {
            return i;
        }
    }
    most
}

/// How many steps it takes to enter a frame.
fn entry_len(frame: Frame) -> usize
    ensures len { result ≡ length (entry_at frame frame.place) }
    ensures few { result ≤ 2 }
{
    match frame.place {
        Place::Native | Place::Java(0) => 1,
        Place::Java(_) => 2,
    }
}

/// How many steps it takes to enter these frames.
pub(crate) fn entries_len(newest: &[Frame]) -> usize
    requires { length newest.now < 2 ^ 32 }
    ensures { result ≡ length (entries newest.now) }
{
    let mut count = 0;
    for i in 0..newest.len() {
        count += entry_len(newest[newest.len() - 1 - i]);
    }
    count
}

/// Logs the steps that enter a frame.
fn log_entry(frame: Frame, log: &mut Log)
    requires { length log.old.steps + length (entry_at frame frame.place) ≤ log.old.room }
    ensures { log.new ≡ with_steps log.old (log.old.steps ++ entry_at frame frame.place) }
{
    match frame.place {
        Place::Native => log.push(Step::EnterNative(frame.method)),
        Place::Java(0) => log.push(Step::Enter(frame.method)),
        Place::Java(position) => {
            log.push(Step::Enter(frame.method));
            log.push(Step::At(position));
        }
    }
}

/// Logs the steps that enter these frames, the oldest first.
pub(crate) fn log_entries(newest: &[Frame], log: &mut Log)
    requires { length log.old.steps + length (entries newest.now) ≤ log.old.room }
    ensures { log.new ≡ with_steps log.old (log.old.steps ++ entries newest.now) }
{
    for i in 0..newest.len() {
        log_entry(newest[newest.len() - 1 - i], log);
    }
}

ghost use Rattle.std.specs.Prelude.{◌≡◌, ◌≤◌, ◌<◌, ◌^◌, ◌+◌, ◌++◌, length, reverse};
ghost use Rattle.std.specs.List.{common_prefix_len};
ghost use Rattle.ti_frames.specs.Log.{with_steps};
ghost use Rattle.ti_frames.specs.Changes.{KeepingLeads, StepsLead, is_same_frame, entry_at, entries};
