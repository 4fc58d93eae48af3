//! The Java Debug Wire Protocol (JDWP) of Java 8 for a thread inspection service, with no socket and no clock.
//!
//! The wire half is a codec: it reads the head and the data of a debugger's packets, and writes replies and events. The other half
//! is a [`Session`]: it takes the bytes of one debugger and says what the driver does, as `SESSION.md` tells. It promises:
//!
//! - Each request gets one reply, with its id, in the order of the requests.
//! - What the debugger suspended is resumed before the connection closes.
//! - After an event that stopped all threads no other goes out until all are resumed, but for the end of the runtime.
//! - Each thread that stopped is let go once its stop was told.
#![tactic(auto)]

mod actions;
mod asking;
mod bodies;
mod constants;
mod disposed;
mod error;
mod event;
mod event_laws;
mod event_text;
mod events;
mod fields;
mod front;
mod ids;
mod line;
mod lists;
mod modifiers;
mod notice;
mod packet;
mod plan;
mod reading;
mod request;
mod requests_in_force;
mod rows;
mod sending;
mod session;
mod session_answers;
mod session_error;
mod session_events;
mod session_laws;
mod session_next;
mod session_requests;
mod session_stops;
mod slots;
mod stops;
mod suspension_laws;
mod suspensions;
mod text;
mod variables;
mod writing;

pub use actions::{Action, Posted};
pub use bodies::{
    capabilities_body, class_of_object_body, class_of_table_body, class_paths_body, collected_body,
    empty_list_body, generic_signature_body, groups_body, id_body, id_sizes_body, int_body,
    new_capabilities_body, no_object_body, status_body, text_body, version_body,
};
pub use disposed::{DISPOSED_LEN, disposed_at};
pub use error::JdwpError;
pub use event_laws::events_are_told_well;
pub use event_text::{EventRow, Occurrence, composite_body};
pub use ids::{
    GROUP_CLASS, IdKind, TABLE_CLASS, TEXT_CLASS, THREAD_CLASS, THREAD_GROUP, class_id, class_of,
    frame_id, frame_of, ids_are_undone, kinds_are_apart, method_id, method_of, table_id, table_of,
    text_id, text_of, thread_id, thread_of,
};
pub use lists::{
    ClassRow, FrameRow, LineRow, MethodRow, classes_body, classes_found_body, frames_body,
    group_children_body, identity_lines_body, line_table_body, methods_body, threads_body,
};
pub use modifiers::{MAX_MODIFIERS, Modifier, read_modifier};
pub use packet::{HANDSHAKE, HEAD_LEN, Head, MAX_PACKET, read_head};
pub use reading::{MAX_SLOTS, read_request};
pub use request::{EventKind, Policy, Range, Request};
pub use sending::{reply, send_event};
pub use session::Session;
pub use session_error::SessionError;
pub use session_laws::{
    no_event_while_stopped, nothing_follows_the_end, nothing_stays_suspended,
    requests_are_answered, stops_are_let_go,
};
pub use slots::read_slots;
pub use stops::{Standing, Stopped, Verdict};
pub use suspension_laws::suspensions_are_balanced;
pub use suspensions::{Holder, LetGo, Suspensions};
pub use variables::{
    Value, VariableRow, entries_body, generic_variables_body, values_body, variables_body,
};
