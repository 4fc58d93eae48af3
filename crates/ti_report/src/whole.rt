//! Why a list call is refused as a whole.

use crate::account::Account;
use crate::events::counts;
use std::alloc::{AllocError, Global};
use ti_live::AgentCall;
use ti_types::{Caps, Limits, ThreadNo, TiError};

/// Whether all of these are threads.
fn are_threads(limits: Limits, threads: &[ThreadNo]) -> bool
    ensures { result ≡ list_all (λ t. nat_lt t.0 limits.threads) threads.now }
{
    threads.iter().all(|thread| thread.0 < limits.threads)
}

/// Whether the agent can pay for a stop and one read at every thread.
#[tactic(auto, using(crate::proofs::EventLaws::threads_next))]
fn can_pay_everywhere(account: &Account, limits: Limits) -> bool
    ensures { result ≡ list_all (λ t. can_pay_now limits account.now t 1) (every_thread limits) }
{
    for n in 0..limits.threads {
        if !account.can_pay(limits, ThreadNo(n), 1) {
            return false;
        }
    }
    true
}

/// Whether the agent can pay for a stop and this many reads at each of these threads.
fn can_pay(account: &Account, limits: Limits, threads: &[ThreadNo], counts: &[usize]) -> bool
    requires { list_all (λ t. nat_lt t.0 (length counts.now)) threads.now ≡ true }
    ensures { result ≡ list_all (λ t. can_pay_now limits account.now t (slice_index counts.now t.0)) threads.now }
{
    for thread in threads {
        if !account.can_pay(limits, *thread, counts[thread.0 as usize]) {
            return false;
        }
    }
    true
}

/// Why a list of suspensions or resumptions is refused as a whole.
fn why_list(account: &Account, wanting: bool) -> Option<TiError>
    ensures { result ≡ or_else (unless (has_all account.now.caps (needed_by Suspend)) MustPossessCapability) (unless (not wanting) OutOfMemory) }
{
    if !account.caps().has(Caps::CAN_SUSPEND) {
        Some(TiError::MustPossessCapability)
    } else if wanting {
        Some(TiError::OutOfMemory)
    } else {
        None
    }
}

/// Why a call is refused as a whole. `wanting` says that memory ran out for it. The errors are JVM TI 11's, and their order
/// is this profile's:
///
/// - `ListStacks`: 10, 103, 110, 209.
/// - `AllStacks`: 103, 209, 110.
/// - a list of suspensions or resumptions: 99, 110.
///
/// The error of this function is lack of memory for the test.
pub fn why_whole(
    alloc: Global,
    account: &Account,
    limits: Limits,
    wanting: bool,
    call: &AgentCall,
) -> Result<Option<TiError>, AllocError>
    ensures { IfOk result (λ r. r ≡ whole_now limits account.now wanting call.now) }
{
    match call {
        AgentCall::SuspendList(_) | AgentCall::ResumeList(_) => Ok(why_list(account, wanting)),
        AgentCall::AllStacks(max_count) => {
            if *max_count < 0 {
                Ok(Some(TiError::IllegalArgument))
            } else if !can_pay_everywhere(account, limits) {
                Ok(Some(TiError::CallsSpent))
            } else if wanting {
                Ok(Some(TiError::OutOfMemory))
            } else {
                Ok(None)
            }
        }
        AgentCall::ListStacks(threads, max_count) => {
            if !are_threads(limits, threads.as_slice()) {
                Ok(Some(TiError::InvalidThread))
            } else if *max_count < 0 {
                Ok(Some(TiError::IllegalArgument))
            } else if wanting {
                Ok(Some(TiError::OutOfMemory))
            } else if !can_pay_listed(alloc, account, limits, threads.as_slice())? {
                Ok(Some(TiError::CallsSpent))
            } else {
                Ok(None)
            }
        }
        _ => Ok(None),
    }
}

/// Whether the agent can pay for a stop, and a read for each element, at each thread of a list.
fn can_pay_listed(
    alloc: Global,
    account: &Account,
    limits: Limits,
    threads: &[ThreadNo],
) -> Result<bool, AllocError>
    requires { list_all (λ t. nat_lt t.0 limits.threads) threads.now ≡ true }
    ensures { IfOk result (λ yes. yes ≡ list_all (λ t. can_pay_now limits account.now t (times t threads.now)) threads.now) }
{
    let counts = counts(alloc, limits, threads)?;
    let can = can_pay(account, limits, threads, &counts);
    Ok(can)
}

ghost use Rattle.std.specs.Prelude.{◌≡◌, true, not, length, IfOk, slice_index, nat_lt};
ghost use Rattle.std.specs.List.{list_all};
ghost use Rattle.ti_types.specs.declared.call.Call.TheVariants.{Suspend};
ghost use Rattle.ti_types.specs.declared.error.TiError.TheVariants.{MustPossessCapability, OutOfMemory};
ghost use Rattle.ti_types.specs.Call.{needed_by};
ghost use Rattle.ti_types.specs.Caps.{has_all};
ghost use Rattle.ti_types.specs.Refusing.{or_else, unless};
ghost use Rattle.ti_report.specs.Doings.{every_thread, times};
ghost use Rattle.ti_report.specs.Accounts.{can_pay_now, whole_now};
