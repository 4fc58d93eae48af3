//! What holds of whole runs of calls.

/// Whatever calls come, in whatever order: each request that is handed out gets one answer before the next one is handed
/// out, no answer comes without a request, and after a close nothing is asked, answered or written.
pub fn runs_follow_the_protocol()
    ensures { FollowsTheProtocol }
{}

/// Whatever calls come, in whatever order: what the socket took and what is still to be written are whole answers, one for
/// each request that was answered, in their order. After a close the last bytes of these may be missing, as where time
/// closed the connection.
pub fn runs_send_answers()
    ensures { SendsAnswers }
{}

ghost use Rattle.ti_http.specs.Runs.{FollowsTheProtocol, SendsAnswers};
