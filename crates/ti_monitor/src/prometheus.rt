//! What a monitor has counted, as Prometheus reads it: the text format, version 0.0.4.

use crate::metrics::{Histogram, Metrics};
use crate::prometheus_lines::{
    COUNTER, GAUGE, HISTOGRAM, Series, Unit, push_codes, push_each, push_head, push_labelled,
    push_plain, push_single,
};
use crate::state::{STATE_NAMES, STATES};
use std::alloc::AllocError;

/// The bounds of the buckets in seconds.
const BOUND_TEXTS: [&str; 13] = [
    "1e-05", "3e-05", "0.0001", "0.0003", "0.001", "0.003", "0.01", "0.03", "0.1", "0.3", "1", "3",
    "10",
];

/// Appends what serves this. The error is lack of memory.
fn push_build(out: &mut Vec<u8>, version: &str) -> Result<(), AllocError>
    ensures { OnOk result (out.new.items ≡ out.old.items ++ text_of (build_lines version.now)) }
{
    push_head(out, "build_info", GAUGE, "What serves this.")?;
    let series = Series {
        name: "build_info",
        suffix: "",
        key: "version",
        unit: Unit::Count,
    };
    push_labelled(out, &series, version, 1)
}

/// Appends a sample for each state. The error is lack of memory.
fn push_states(
    out: &mut Vec<u8>,
    name: &str,
    unit: Unit,
    values: &[u64; 9],
) -> Result<(), AllocError>
    ensures { OnOk result (out.new.items ≡ out.old.items ++ text_of (state_lines name.now unit values.now)) }
{
    let series = Series {
        name,
        suffix: "",
        key: "state",
        unit,
    };
    push_each(out, &series, &STATE_NAMES[..STATES], values)
}

/// Appends the metrics of threads. The error is lack of memory.
fn push_threads(out: &mut Vec<u8>, metrics: &Metrics) -> Result<(), AllocError>
    ensures { OnOk result (out.new.items ≡ out.old.items ++ text_of (thread_lines metrics.now)) }
{
    push_head(out, "threads", GAUGE, "Threads that are there, by state.")?;
    push_states(out, "threads", Unit::Count, &metrics.threads)?;
    push_single(
        out,
        "threads_suspended",
        GAUGE,
        "Threads that are suspended.",
        Unit::Count,
        metrics.suspended,
    )
}

/// Appends what became of threads. The error is lack of memory.
fn push_lives(out: &mut Vec<u8>, metrics: &Metrics) -> Result<(), AllocError>
    ensures { OnOk result (out.new.items ≡ out.old.items ++ text_of (life_lines metrics.now)) }
{
    push_single(
        out,
        "threads_attached_total",
        COUNTER,
        "Threads that were attached.",
        Unit::Count,
        metrics.attached,
    )?;
    push_single(
        out,
        "threads_detached_total",
        COUNTER,
        "Threads that were given back.",
        Unit::Count,
        metrics.detached,
    )?;
    push_single(
        out,
        "thread_events_lost_total",
        COUNTER,
        "Thread events that were overwritten before they were read.",
        Unit::Count,
        metrics.events_lost,
    )?;
    push_single(
        out,
        "handovers_total",
        COUNTER,
        "Times that threads handed over, in native code, blocked or at a poll.",
        Unit::Count,
        metrics.hand_overs,
    )
}

/// Appends the times of states. The error is lack of memory.
fn push_times(out: &mut Vec<u8>, metrics: &Metrics) -> Result<(), AllocError>
    ensures { OnOk result (out.new.items ≡ out.old.items ++ text_of (time_lines metrics.now)) }
{
    push_head(
        out,
        "thread_seconds_total",
        COUNTER,
        "Time of threads in each state, by probes.",
    )?;
    push_states(
        out,
        "thread_seconds_total",
        Unit::Nanos,
        &metrics.state_time,
    )?;
    push_single(
        out,
        "suspended_seconds_total",
        COUNTER,
        "Time that threads were suspended, by probes.",
        Unit::Nanos,
        metrics.suspended_time,
    )
}

/// Appends the times of answers. The error is lack of memory.
fn push_answers(out: &mut Vec<u8>, answers: &Histogram) -> Result<(), AllocError>
    ensures { OnOk result (out.new.items ≡ out.old.items ++ text_of (answer_lines answers.now)) }
{
    let name = "answer_seconds";
    let series = Series {
        name,
        suffix: "_bucket",
        key: "le",
        unit: Unit::Count,
    };
    push_head(
        out,
        name,
        HISTOGRAM,
        "Time from a call at a running thread to its answer.",
    )?;
    push_each(out, &series, &BOUND_TEXTS, &answers.within)?;
    push_labelled(out, &series, "+Inf", answers.count)?;
    push_plain(out, name, "_sum", Unit::Nanos, answers.sum)?;
    push_plain(out, name, "_count", Unit::Count, answers.count)
}

/// Appends the metrics of calls that have no answer. The error is lack of memory.
fn push_calls(out: &mut Vec<u8>, metrics: &Metrics) -> Result<(), AllocError>
    ensures { OnOk result (out.new.items ≡ out.old.items ++ text_of (call_lines metrics.now)) }
{
    push_single(
        out,
        "calls_out",
        GAUGE,
        "Calls that were posted and not collected.",
        Unit::Count,
        metrics.calls_out,
    )?;
    push_single(
        out,
        "oldest_call_seconds",
        GAUGE,
        "Age of the oldest call that has no answer, 0 if there is none.",
        Unit::Nanos,
        metrics.oldest_call,
    )
}

/// Appends the metrics of profiles, but for what came of their samples. The error is lack of memory.
fn push_profiles(out: &mut Vec<u8>, metrics: &Metrics) -> Result<(), AllocError>
    ensures { OnOk result (out.new.items ≡ out.old.items ++ text_of (profile_lines metrics.now)) }
{
    push_single(
        out,
        "profiles_total",
        COUNTER,
        "Profiles that were begun.",
        Unit::Count,
        metrics.profiles,
    )?;
    push_single(
        out,
        "profile_ticks_total",
        COUNTER,
        "Ticks of all profiles.",
        Unit::Count,
        metrics.ticks,
    )?;
    push_single(
        out,
        "profile_ticks_missed_total",
        COUNTER,
        "Ticks that came too late to be taken.",
        Unit::Count,
        metrics.missed,
    )?;
    push_single(
        out,
        "profile_samples_no_room_total",
        COUNTER,
        "Samples for which a profile had no room.",
        Unit::Count,
        metrics.no_room,
    )
}

/// Appends the samples of profiles. The error is lack of memory.
fn push_samples(out: &mut Vec<u8>, metrics: &Metrics) -> Result<(), AllocError>
    ensures { OnOk result (out.new.items ≡ out.old.items ++ text_of (sample_lines metrics.now)) }
{
    let series = Series {
        name: "profile_samples_total",
        suffix: "",
        key: "outcome",
        unit: Unit::Count,
    };
    push_head(out, series.name, COUNTER, "Samples of all profiles.")?;
    push_labelled(out, &series, "at_once", metrics.at_once)?;
    push_labelled(out, &series, "late", metrics.late)?;
    push_labelled(out, &series, "unanswered", metrics.unanswered)
}

/// Appends the metrics of the door. The error is lack of memory.
fn push_door(out: &mut Vec<u8>, requests: &[(u16, u64)], connections: u64) -> Result<(), AllocError>
    ensures { OnOk result (out.new.items ≡ out.old.items ++ text_of (door_lines requests.now connections)) }
{
    let series = Series {
        name: "http_requests_total",
        suffix: "",
        key: "code",
        unit: Unit::Count,
    };
    push_head(
        out,
        series.name,
        COUNTER,
        "Requests that were answered, by status.",
    )?;
    push_codes(out, &series, requests)?;
    push_single(
        out,
        "http_connections",
        GAUGE,
        "Connections that are open.",
        Unit::Count,
        connections,
    )
}

/// Appends all metrics. `requests` has the number of answers by status, and `connections` how many are open. The error is lack
/// of memory.
pub fn metrics_text(
    out: &mut Vec<u8>,
    version: &str,
    metrics: &Metrics,
    requests: &[(u16, u64)],
    connections: u64,
) -> Result<(), AllocError>
    ensures { OnOk result (out.new.items ≡ out.old.items ++ text_of (metrics_lines version.now metrics.now requests.now connections)) }
{
    push_build(out, version)?;
    push_threads(out, metrics)?;
    push_lives(out, metrics)?;
    push_times(out, metrics)?;
    push_answers(out, &metrics.answers)?;
    push_calls(out, metrics)?;
    push_profiles(out, metrics)?;
    push_samples(out, metrics)?;
    push_door(out, requests, connections)
}

ghost use Rattle.std.specs.Prelude.{◌≡◌, ◌++◌, OnOk};
ghost use Rattle.ti_monitor.specs.Texts.{text_of};
ghost use Rattle.ti_monitor.specs.Exposition.{answer_lines, build_lines, call_lines, door_lines, life_lines, metrics_lines, profile_lines, sample_lines, state_lines, thread_lines, time_lines};
