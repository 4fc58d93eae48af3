//! What there is to ask for.

/// The text of `/`: the paths, and how they are used.
pub const INDEX: &[u8] = b"Cebdyraq: stacks and states of threads\n\
\n\
/                        this text\n\
/threads                 all threads and their stacks, as text\n\
/threads.json            the same as JSON\n\
/debug/pprof/threads     the stacks of all threads now; debug=0 (a profile), 1 (one stack together) or 2 (thread by thread)\n\
/debug/pprof/profile     the stacks of all threads over a time; seconds=1 to 300, rate=1 to 1000 a second,\n\
\x20                        labels=none, thread, state or thread,state\n\
/metrics                 counters, for Prometheus\n\
\n\
go tool pprof http://HOST:PORT/debug/pprof/profile?seconds=10 reads a profile; with -http=:0 it shows one in a browser.\n\
Prometheus scrapes /metrics: scrape_configs: [{job_name: cebdyraq, static_configs: [{targets: ['HOST:PORT']}]}]\n";
