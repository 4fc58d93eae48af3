//! What is asked for: a path and its query.

use crate::params::{Params, place};
use crate::refusals::Refusal;

/// In which form `/debug/pprof/threads` gives the stacks of all threads.
#[derive(Clone, Copy, Debug, PartialEq, Eq)]
pub enum Debug {
    /// `debug=0`: a profile, for `go tool pprof`.
    Profile,
    /// `debug=1`: text, with threads of one stack together.
    Groups,
    /// `debug=2`: text, thread by thread.
    Threads,
}

/// Which labels the samples of a profile get.
#[derive(Clone, Copy, Debug, PartialEq, Eq)]
pub enum Labels {
    /// `labels=none`.
    None,
    /// `labels=thread`.
    Thread,
    /// `labels=state`.
    State,
    /// `labels=thread,state`.
    ThreadAndState,
}

/// What is asked for.
#[derive(Clone, Copy, Debug, PartialEq, Eq)]
pub enum Target {
    /// `/`: what there is.
    Index,
    /// `/metrics`: counters, for Prometheus.
    Metrics,
    /// `/threads`: all threads and their stacks, as text.
    Threads,
    /// `/threads.json`: the same as JSON.
    ThreadsJson,
    /// `/debug/pprof/threads`: the stacks of all threads now. Without `debug` it is 0.
    ThreadsProfile {
        debug: Debug,
    },
    /// `/debug/pprof/profile`: the stacks of all threads over a time.
    Profile {
        /// 1 to 300 s, 30 if none are given.
        seconds: u16,
        /// Samples a second, 1 to 1,000, 100 if none are given.
        rate: u16,
        /// Thread and state if none are given.
        labels: Labels,
    },
}

/// The paths that are served.
#[derive(Clone, Copy)]
enum Route {
    Index,
    Metrics,
    Threads,
    ThreadsJson,
    ThreadsProfile,
    Profile,
}

fn find_route(path: &[u8]) -> Option<Route>
    ensures { result ≡ route_of path.now }
{
    if path == b"/".as_slice() {
        Some(Route::Index)
    } else if path == b"/metrics".as_slice() {
        Some(Route::Metrics)
    } else if path == b"/threads".as_slice() {
        Some(Route::Threads)
    } else if path == b"/threads.json".as_slice() {
        Some(Route::ThreadsJson)
    } else if path == b"/debug/pprof/threads".as_slice() {
        Some(Route::ThreadsProfile)
    } else if path == b"/debug/pprof/profile".as_slice() {
        Some(Route::Profile)
    } else {
        None
    }
}

/// A route that takes no parameter.
fn plain(target: Target, query: Option<Params>) -> Result<Target, Refusal>
    ensures { result ≡ plain target query }
{
    match query {
        None => Ok(target),
        Some(_) => Err(Refusal::Query),
    }
}

fn threads(query: Option<Params>) -> Result<Target, Refusal>
    ensures { result ≡ threads_of query }
{
    match query {
        None => Ok(Target::ThreadsProfile {
            debug: Debug::Profile,
        }),
        Some(
            Params {
                seconds: None,
                rate: None,
                labels: None,
                debug,
            },
        ) => Ok(Target::ThreadsProfile {
            debug: debug.unwrap_or(Debug::Profile),
        }),
        Some(_) => Err(Refusal::Query),
    }
}

fn profile(query: Option<Params>) -> Result<Target, Refusal>
    ensures { result ≡ profile_of query }
{
    match query {
        None => Ok(Target::Profile {
            seconds: 30,
            rate: 100,
            labels: Labels::ThreadAndState,
        }),
        Some(
            Params {
                seconds,
                rate,
                labels,
                debug: None,
            },
        ) => Ok(Target::Profile {
            seconds: seconds.unwrap_or(30),
            rate: rate.unwrap_or(100),
            labels: labels.unwrap_or(Labels::ThreadAndState),
        }),
        Some(_) => Err(Refusal::Query),
    }
}

/// What a route means with the parameters that were given.
fn resolve(route: Route, query: Option<Params>) -> Result<Target, Refusal>
    ensures { result ≡ resolved route query }
{
    match route {
        Route::Index => plain(Target::Index, query),
        Route::Metrics => plain(Target::Metrics, query),
        Route::Threads => plain(Target::Threads, query),
        Route::ThreadsJson => plain(Target::ThreadsJson, query),
        Route::ThreadsProfile => threads(query),
        Route::Profile => profile(query),
    }
}

/// The parameters behind the `?` at this place, if it is there.
fn query(target: &[u8], at: usize) -> Result<Option<Params>, Refusal>
    requires { at ≤ length target.now }
    ensures { result ≡ query_at target.now at }
{
    if at == target.len() {
        return Ok(None);
    }
    match Params::read(&target[at + 1..]) {
        Some(params) => Ok(Some(params)),
        None => Err(Refusal::Query),
    }
}

impl Target {
    /// The target of a request line.
    pub(crate) fn parse(target: &[u8]) -> Result<Target, Refusal>
        ensures { result ≡ target_of target.now }
    {
        let at = place(target, b'?');
        let Some(route) = find_route(&target[..at]) else {
            return Err(Refusal::Path);
        };
        resolve(route, query(target, at)?)
    }
}

ghost use Rattle.std.specs.Prelude.{◌≡◌, ◌≤◌, length};
ghost use Rattle.ti_http.specs.Targets.{route_of, plain, threads_of, profile_of, resolved, query_at, target_of};
