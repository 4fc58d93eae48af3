//! The classes and methods that a runtime has defined, and what is told of them.
//!
//! A class is defined whole, with its methods, and never changes. Its number counts the classes defined before it, and a
//! method's number the methods before it. Any thread may define one and ask of one at any time, and no call waits.
//!
//! This crate uses `logbook` and the slots of `boxcar`. It promises:
//!
//! - All handles of one table see beginnings of one list of classes, which only grows.
//! - What is told of a number is what stands in that list under it. No number is used twice.
//! - 21 and 23 come exactly if the list that the call found has no class or method of the number.
#![tactic(auto)]

mod classes;
mod entry;
mod error;
mod info;
mod law;
mod slots;
mod told;

pub use classes::Classes;
pub use error::ClassError;
pub use info::{ClassInfo, ClassNo, Defined, LineEntry, Lines, MethodInfo, MethodName};
