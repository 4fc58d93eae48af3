//! Ids on the wire, and what they stand for.
//!
//! | Id | What it names |
//! |---|---|
//! | a thread's number + 1, so 1 to 2^32 | the thread |
//! | 2^33 | the thread group |
//! | 2 · 2^33 + a class's number | the class |
//! | 3 · 2^33 + a method's number | the method |
//! | 4 · 2^33 | the class of all thread objects |
//! | 5 · 2^33 + a text's number | the text |
//! | 6 · 2^33 + a table's number | the table, an array of texts |
//! | 7 · 2^33 | the class of all texts |
//! | 8 · 2^33 | the class of all tables |
//! | 9 · 2^33 | the class of the thread group |
//!
//! Frames have ids of a kind of their own: a frame's id is read only beside the id of its thread.

use crate::error::JdwpError;

/// What a request takes an id for.
#[derive(Clone, Copy, Debug, PartialEq, Eq)]
pub enum IdKind {
    Thread,
    ThreadGroup,
    /// A thread, a thread group, a text or a table.
    Object,
    Class,
    Method,
    Frame,
}

impl IdKind {
    /// The error of a request whose id names nothing of this kind: 10 INVALID_THREAD, 11 INVALID_THREAD_GROUP,
    /// 20 INVALID_OBJECT, 21 INVALID_CLASS, 23 INVALID_METHODID or 30 INVALID_FRAMEID.
    pub fn error(self) -> JdwpError
        ensures { result ≡ unknown_id self }
    {
        match self {
            IdKind::Thread => JdwpError::InvalidThread,
            IdKind::ThreadGroup => JdwpError::InvalidThreadGroup,
            IdKind::Object => JdwpError::InvalidObject,
            IdKind::Class => JdwpError::InvalidClass,
            IdKind::Method => JdwpError::InvalidMethodId,
            IdKind::Frame => JdwpError::InvalidFrameId,
        }
    }
}

/// The id of the one thread group.
pub const THREAD_GROUP: u64 = 1 << 33;

/// The id of the class of all thread objects, `Ljava/lang/Thread;`.
pub const THREAD_CLASS: u64 = 4 << 33;

/// The id of the class of all texts, `Ljava/lang/String;`.
pub const TEXT_CLASS: u64 = 7 << 33;

/// The id of the class of all tables, `[Ljava/lang/String;`.
pub const TABLE_CLASS: u64 = 8 << 33;

/// The id of the class of the thread group, `Ljava/lang/ThreadGroup;`.
pub const GROUP_CLASS: u64 = 9 << 33;

const FIRST_CLASS: u64 = 2 << 33;

const FIRST_METHOD: u64 = 3 << 33;

const FIRST_TEXT: u64 = 5 << 33;

const FIRST_TABLE: u64 = 6 << 33;

/// The number with this id, if the range of 2^32 ids that begins at `first` has it.
fn number_from(first: u64, id: u64) -> Option<u32>
    ensures { result ≡ number_from first id }
{
    if first <= id && id - first <= u64::from(u32::MAX) {
        Some((id - first) as u32)
    } else {
        None
    }
}

/// The id of a thread.
pub fn thread_id(thread: u32) -> u64
    ensures { result ≡ id_from first_thread thread }
{
    u64::from(thread) + 1
}

/// The thread with this id. An id of another kind gives none (10 INVALID_THREAD).
pub fn thread_of(id: u64) -> Option<u32>
    ensures { result ≡ number_from first_thread id }
{
    number_from(1, id)
}

/// The id of a class.
pub fn class_id(class: u32) -> u64
    ensures { result ≡ id_from first_class class }
{
    FIRST_CLASS + u64::from(class)
}

/// The class with this id. An id of another kind gives none, and so do [`THREAD_CLASS`], [`GROUP_CLASS`], [`TEXT_CLASS`] and
/// [`TABLE_CLASS`], which have no number (21 INVALID_CLASS).
pub fn class_of(id: u64) -> Option<u32>
    ensures { result ≡ number_from first_class id }
{
    number_from(FIRST_CLASS, id)
}

/// The id of a method.
pub fn method_id(method: u32) -> u64
    ensures { result ≡ id_from first_method method }
{
    FIRST_METHOD + u64::from(method)
}

/// The method with this id. An id of another kind gives none (23 INVALID_METHODID).
pub fn method_of(id: u64) -> Option<u32>
    ensures { result ≡ number_from first_method id }
{
    number_from(FIRST_METHOD, id)
}

/// The id of a text.
pub fn text_id(text: u32) -> u64
    ensures { result ≡ id_from first_text text }
{
    FIRST_TEXT + u64::from(text)
}

/// The text with this id. An id of another kind gives none (20 INVALID_OBJECT).
pub fn text_of(id: u64) -> Option<u32>
    ensures { result ≡ number_from first_text id }
{
    number_from(FIRST_TEXT, id)
}

/// The id of a table.
pub fn table_id(table: u32) -> u64
    ensures { result ≡ id_from first_table table }
{
    FIRST_TABLE + u64::from(table)
}

/// The table with this id. An id of another kind gives none (20 INVALID_OBJECT).
pub fn table_of(id: u64) -> Option<u32>
    ensures { result ≡ number_from first_table id }
{
    number_from(FIRST_TABLE, id)
}

/// The id of the frame at this depth of a thread's stack. The newest frame is at depth 0.
pub fn frame_id(thread: u32, depth: u32) -> u64
    ensures { result ≡ frame_id thread depth }
{
    (u64::from(thread) << 32) + u64::from(depth)
}

/// The thread and the depth of the frame with this id. An id whose thread is another one than the request's is invalid there
/// (30 INVALID_FRAMEID).
pub fn frame_of(id: u64) -> (u32, u32)
    ensures { frame_id result.0 result.1 ≡ id }
{
    ((id >> 32) as u32, (id & 0xffff_ffff) as u32)
}

/// Each id is undone: it gives the number that it was made of. A number that an id gives makes that id again. So no two
/// numbers of a kind have one id.
pub fn ids_are_undone()
    ensures threads { IsUndone first_thread }
    ensures classes { IsUndone first_class }
    ensures methods { IsUndone first_method }
    ensures texts { IsUndone first_text }
    ensures tables { IsUndone first_table }
    ensures frames { (t d u e : ℕ) → d < 2 ^ 32 → e < 2 ^ 32 → frame_id t d ≡ frame_id u e → (t ≡ u) × (d ≡ e) }
{}

/// An id of one kind is none of another: no thread, class, method, text or table has an id of another kind, of the group or of
/// the class of threads, of the group, of texts or of tables.
pub fn kinds_are_apart()
    ensures { (id : ℕ) → AtMostOne (kinds_with id) }
{}

ghost use Rattle.std.specs.Prelude.{◌≡◌, ◌<◌, ◌^◌, ℕ};
ghost use Rattle.ti_jdwp.specs.Ids.{unknown_id, number_from, id_from, first_thread, first_class, first_method, first_text, first_table, frame_id, IsUndone, kinds_with, AtMostOne};
