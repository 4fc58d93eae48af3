//! What entries cost, and a table of it with a row for each environment.

use ti_types::{Entry, EnvNo, Safe};

/// What an environment has asked of a thread, and spent there (this profile: each call, stop and read costs 1).
#[derive(Clone, Copy, Debug, PartialEq, Eq)]
pub struct Costs {
    /// How many calls it has asked.
    pub asked: u64,
    /// How many calls, stops and reads it has made.
    pub calls: u64,
}

/// The environment of an entry. `None` for the thread's own entries, which cost no environment anything.
pub fn env_of(entry: Entry) -> Option<EnvNo>
    ensures { result ≡ env_of_entry entry }
{
    match entry {
        Entry::Asked(env, _, _) | Entry::Stop(env) | Entry::Read(env, _) | Entry::Go(env) => Some(
            env,
        ),
        _ => None,
    }
}

/// What an entry costs of its thread's own budget (this profile). A step costs 1. A hand-over to native or blocked costs 2,
/// which pays for the return. All others cost 0.
pub fn own_cost(entry: Entry) -> u64
    ensures cost { result ≡ own_cost_of entry }
    ensures small { result < 3 }
{
    match entry {
        Entry::Own(_) => 1,
        Entry::Hand(Safe::Native) | Entry::Hand(Safe::Blocked(_)) => 2,
        _ => 0,
    }
}

/// Charges an entry to its environment: 1 for a call, a stop or a read (this profile). If the table has no such environment,
/// nothing changes. A call must have the number that the table says. Its environment must have a call left of at most 2^52.
#[tactic(auto, using(crate::proofs::Charging::charging))]
pub fn charge(costs: &mut [Costs], entry: Entry)
    requires due { IsDue costs.old entry }
    requires paid { ArePaid costs.old }
    ensures { costs.new ≡ charged costs.old entry }
{
    match entry {
        Entry::Asked(env, number, _) => {
            let index = env.0 as usize;
            if index < costs.len() {
                costs[index] = Costs {
                    asked: number + 1,
                    calls: costs[index].calls + 1,
                };
            }
        }
        Entry::Stop(env) | Entry::Read(env, _) => {
            let index = env.0 as usize;
            if index < costs.len() {
                let old = costs[index];
                costs[index] = Costs {
                    asked: old.asked,
                    calls: old.calls + 1,
                };
            }
        }
        Entry::Start | Entry::Own(_) | Entry::Hand(_) | Entry::Back | Entry::End | Entry::Go(_) =>
            (),
    }
}

ghost use Rattle.std.specs.Prelude.{◌≡◌, ◌<◌};
ghost use Rattle.ti_replay.specs.Legal.{env_of as env_of_entry, own_cost as own_cost_of};
ghost use Rattle.ti_replay.specs.Costs.{charged, ArePaid, IsDue};
