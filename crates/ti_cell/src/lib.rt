//! A thread's slot behind one word, shared by its owner and every environment.
//!
//! A `ThreadCell` has one place for the slot, and one word. The word has the lock bit, the armed bit, the barred bit and the
//! number of entries in the slot's history. To hold the cell is to set the lock bit and move the slot out. To store is to
//! move the slot back in and clear the bit.
//!
//! Each user has a seat, which carries what the user knows, and the calls take the seat. The owner has the number 0, and
//! environment `e` the number `e + 1`.
//!
//! This crate uses `ti_slot`, whose calls are made while the slot is held, and `atomic_table`, which has the word and the
//! place. It promises:
//!
//! - There is one legal history, whatever the threads do. It begins with all that a seat has seen. Of the seat's entries it
//!   has exactly those that the seat added (`specs/Rule`).
//! - A hold gives the slot with that history. What is added in the hold is its seat's own, and every later hold sees it.
//! - Once all seats came back to the owner's, the slot at the end has this history whole, whoever stored last (`close`). It
//!   begins with all that each user had seen. It has each entry of each user once, and no other.
//! - A look is one load. It shows the bits that the history has at that moment, and its length.
//! - A hold has to be stored: dropping it is a compile error. So is using a seat twice.
//! - Only `ThreadCell::make` takes memory, and its only error is lack of it.
//!
//! It does not promise that `hold` returns. It waits as long as others hold the cell, so it takes `Wait`. A thread
//! that waits sleeps after some looks, and `store` wakes it. `store_quietly` does not. No contract says either.
#![tactic(auto)]

mod cell;
mod hold;
mod lends;
mod look;
mod pace;
mod parked;
mod parked_lends;
mod poll_word;
mod role;
mod seat;
mod sleepers;
mod sleeping;
mod view;
mod wanted;
mod word;

pub use cell::ThreadCell;
pub use hold::Hold;
pub use look::Look;
pub use pace::Pace;
pub use role::{EnvRole, OwnerRole, Role};
pub use seat::{CellSeat, EnvSeat, OwnSeat};
pub use view::{CellRule, Subject, User, View};
pub use wanted::{WantedList, Watched};
