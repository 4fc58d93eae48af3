//! A thread that is attached.
use crate::info::ThreadInfo;
use ti_handshake::SharedCell;
use ti_types::ThreadNo;

/// A thread as it was attached: its number, its name and priority, and its cell.
#[derive(Drop)]
pub struct Newcomer {
    pub thread: ThreadNo,
    pub info: ThreadInfo,
    pub cell: SharedCell,
}
