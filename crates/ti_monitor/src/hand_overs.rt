//! How often threads hand over.

use crate::metrics::Metrics;
use crate::watched::Watched;
use ti_service::Agent;
use ti_types::TiError;

/// How often a thread has handed over since it last told that. 0 if its cell is in use, or if the agent has let go of it, by a meeting
/// that had no room: then it is gone.
fn more_at(agent: &mut Agent, one: &mut Watched) -> u64
    ensures { TellsHandOvers agent.old agent.new one.old one.new result }
{
    match agent.hand_overs_now(one.thread) {
        Ok(handed) => {
            let more = handed.saturating_sub(one.handed);
            one.handed = handed;
            more
        }
        Err(TiError::InvalidThread | TiError::ThreadNotAlive) => {
            one.gone = one.gone || one.out.is_none();
            0
        }
        Err(_) => 0,
    }
}

/// Counts how often the threads that are there have handed over since they last told that.
pub(crate) fn count_hand_overs(agent: &mut Agent, watched: &mut [Watched], metrics: &mut Metrics)
    ensures grows { metrics.old.hand_overs ≤ metrics.new.hand_overs }
    ensures rest { metrics.new ≡ record metrics.old { hand_overs = metrics.new.hand_overs } }
{
    for place in 0..watched.len() {
        if !watched[place].gone {
            let more = more_at(agent, &mut watched[place]);
            metrics.hand_overs = metrics.hand_overs.saturating_add(more);
        }
    }
}

ghost use Rattle.std.specs.Prelude.{◌≡◌, ◌≤◌};
ghost use Rattle.ti_monitor.specs.HandOvers.{TellsHandOvers};
