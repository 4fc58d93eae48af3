//! Calls for a list of threads: all are posted, and only then the first is collected.

use crate::env::Env;
use crate::home::Home;
use std::alloc::Global;
use std::sync::Wait;
use ti_slot::Asked;
use ti_types::{Answer, Call, ThreadNo, TiError, Ticket, needs};

/// The result of posting a call at one thread.
#[derive(Clone, Copy)]
pub(crate) enum Posted {
    /// 0, or the number of the error.
    Code(u32),
    /// The ticket by which the answer is collected.
    Waits(Ticket),
}

/// The code of an answer: 0, or the number of its error.
fn code_in(answer: &Answer) -> u32
    ensures { result ≡ code_of (said answer.now) }
{
    match answer {
        Answer::Refused(error) => error.number(),
        _ => 0,
    }
}

impl<H: Home> Env<H> {
    /// Posts a call at a thread, or gives the number of the error that refused it.
    fn post_at<R: Wait>(&mut self, rt: &R, alloc: Global, thread: ThreadNo, call: Call) -> Posted
        requires bare { takes_buffer call ≡ false }
        ensures posted { IsPosted self.old.env self.new.env call thread result }
        ensures home { self.new.home ≡ self.old.home }
    {
        match self.post(rt, alloc, thread, call) {
            Ok(Asked::Answered(answer)) => Posted::Code(code_in(&answer)),
            Ok(Asked::Waiting(ticket)) => Posted::Waits(ticket),
            Err(error) => Posted::Code(error.number()),
        }
    }

    /// Posts a call at each thread, in the list's order.
    fn post_each<R: Wait>(
        &mut self,
        rt: &R,
        alloc: Global,
        call: Call,
        threads: &[ThreadNo],
        posted: &mut Vec<Posted>,
    )
        requires bare { takes_buffer call ≡ false }
        requires empty { posted.old.items ≡ [] }
        requires room { length threads.now ≤ vec_capacity posted.old }
        ensures posts { PostsEach self.old.env self.new.env call threads.now posted.new.items }
        ensures out { AreOpen self.new.env posted.new.items }
        ensures count { length posted.new.items ≡ length threads.now }
        ensures home { self.new.home ≡ self.old.home }
    {
        for thread in threads {
            posted.push_reserved(self.post_at(rt, alloc, *thread, call));
        }
    }

    /// The code of a posted call. It waits for the answer if there is none yet.
    fn collect_at<R: Wait>(&mut self, rt: &R, posted: Posted) -> u32
        requires out { IsOpen self.old.env posted }
        ensures collected { IsCollected self.old.env self.new.env posted result }
        ensures home { self.new.home ≡ self.old.home }
    {
        match posted {
            Posted::Code(code) => code,
            Posted::Waits(ticket) => code_in(&self.collect(rt, ticket)),
        }
    }

    /// The code of each posted call, in the list's order.
    fn collect_each<R: Wait>(&mut self, rt: &R, posted: &[Posted], codes: &mut Vec<u32>)
        requires out { AreOpen self.old.env posted.now }
        requires empty { codes.old.items ≡ [] }
        requires room { length posted.now ≤ vec_capacity codes.old }
        ensures collects { CollectsEach self.old.env self.new.env posted.now codes.new.items }
        ensures home { self.new.home ≡ self.old.home }
    {
        for one in posted {
            codes.push_reserved(self.collect_at(rt, *one));
        }
    }

    /// Posts a call at each thread, in the list's order, and then collects all answers. It gives one code for each element.
    fn call_each<R: Wait>(
        &mut self,
        rt: &R,
        alloc: Global,
        call: Call,
        threads: &[ThreadNo],
    ) -> Result<Vec<u32>, TiError>
        requires bare { takes_buffer call ≡ false }
        ensures each { IfOk result (λ codes. WentEach self.old.env self.new.env call threads.now codes.items) }
        ensures capable { OnOk result (has_all self.old.env.state.caps (needed_by call) ≡ true) }
        ensures refused { IfErr result (λ e. (e ≡ (if has_all self.old.env.state.caps (needed_by call) then OutOfMemory else MustPossessCapability)) × (self.new ≡ self.old)) }
        ensures home { self.new.home ≡ self.old.home }
    {
        if !self.holds(needs(call)) {
            return Err(TiError::MustPossessCapability);
        }
        let mut posted = Vec::with_capacity(alloc, threads.len())?;
        let mut codes = Vec::with_capacity(alloc, threads.len())?;
        self.post_each(rt, alloc, call, threads, &mut posted);
        self.collect_each(rt, &posted, &mut codes);
        Ok(codes)
    }

    /// SuspendThreadList (JVM TI 11): one code for each element, 0 or the number of its error. All elements are posted, in
    /// the list's order, before it waits for the first. A refused element does not stop those after it.
    ///
    /// It spends one call for each element that reaches its thread. An element's code is 216 (this profile: `Full`) if `window`
    /// calls of this environment are out at its thread, those of the list included. Such an element does not reach its thread.
    ///
    /// The whole call is refused with 99 MUST_POSSESS_CAPABILITY, and then with 110 if there is no memory for the codes.
    /// Then nothing was posted.
    pub fn suspend_thread_list<R: Wait>(
        &mut self,
        rt: &R,
        alloc: Global,
        threads: &[ThreadNo],
    ) -> Result<Vec<u32>, TiError>
        ensures each { IfOk result (λ codes. WentEach self.old.env self.new.env call.Suspend threads.now codes.items) }
        ensures capable { OnOk result (has_all self.old.env.state.caps (needed_by call.Suspend) ≡ true) }
        ensures refused { IfErr result (λ e. (e ≡ (if has_all self.old.env.state.caps (needed_by call.Suspend) then OutOfMemory else MustPossessCapability)) × (self.new ≡ self.old)) }
        ensures home { self.new.home ≡ self.old.home }
    {
        self.call_each(rt, alloc, Call::Suspend, threads)
    }

    /// ResumeThreadList (JVM TI 11): one code for each element. Everything else is as for `suspend_thread_list`.
    pub fn resume_thread_list<R: Wait>(
        &mut self,
        rt: &R,
        alloc: Global,
        threads: &[ThreadNo],
    ) -> Result<Vec<u32>, TiError>
        ensures each { IfOk result (λ codes. WentEach self.old.env self.new.env call.Resume threads.now codes.items) }
        ensures capable { OnOk result (has_all self.old.env.state.caps (needed_by call.Resume) ≡ true) }
        ensures refused { IfErr result (λ e. (e ≡ (if has_all self.old.env.state.caps (needed_by call.Resume) then OutOfMemory else MustPossessCapability)) × (self.new ≡ self.old)) }
        ensures home { self.new.home ≡ self.old.home }
    {
        self.call_each(rt, alloc, Call::Resume, threads)
    }
}

ghost use Rattle.std.specs.Prelude.{◌≡◌, ◌≤◌, [], length, vec_capacity, true, false, None, Some, IfOk, IfErr, OnOk, if◌then◌else◌};
ghost use Rattle.ti_types.specs.Answer.{said};
ghost use Rattle.ti_types.specs.Call.{needed_by};
ghost use Rattle.ti_types.specs.Caps.{has_all};
ghost use Rattle.ti_types.specs.declared.call.Call.TheVariants as call;
ghost use Rattle.ti_types.specs.declared.error.TiError.TheVariants.{OutOfMemory, MustPossessCapability};
ghost use Rattle.ti_replay.specs.Admission.{takes_buffer};
ghost use Rattle.ti_agent.specs.Lists.{IsPosted, PostsEach, IsCollected, CollectsEach, WentEach, IsOpen, AreOpen, code_of};
