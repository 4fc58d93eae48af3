//! A list whose elements are taken out at any place for one price, however many there are.
//!
//! `Chunked` is a `Vec` cut into chunks of 128 elements. To take an element out moves what is behind it in its own chunk alone.
//! This crate depends on no other one. It promises that the list does what a `Vec` does.
#![tactic(auto)]

mod chunked;
mod chunks;
mod key_of;

pub use chunked::Chunked;
pub use key_of::KeyOf;
