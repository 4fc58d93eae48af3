//! What is wrong with a document, and which part of it.

use crate::fault::{LimitName, ScriptFault};
use std::alloc::{AllocError, AllocFailed};
use std::fmt;
use thiserror::Error;

/// A member of a document's head. `CallLimit` is the member `calls` of `limits`, and `Calls` is that of a live script.
#[derive(Clone, Copy, Debug, PartialEq, Eq)]
pub enum MemberName {
    Format,
    Limits,
    Depth,
    Own,
    CallLimit,
    Threads,
    Agents,
    Methods,
    Events,
    Walks,
    Calls,
    Entries,
}

impl MemberName {
    /// The member's name in the object that has it.
    pub fn key(self) -> &'static str
        ensures { result.now ≡ key_of self }
    {
        match self {
            MemberName::Format => "format",
            MemberName::Limits => "limits",
            MemberName::Depth => "depth",
            MemberName::Own => "own",
            MemberName::CallLimit | MemberName::Calls => "calls",
            MemberName::Threads => "threads",
            MemberName::Agents => "agents",
            MemberName::Methods => "methods",
            MemberName::Events => "events",
            MemberName::Walks => "walks",
            MemberName::Entries => "entries",
        }
    }

    /// The path to the member from the document: its name, with `limits.` before it if it is a member of `limits`.
    pub fn text(self) -> &'static str
        ensures { result.now ≡ member_text self }
    {
        match self {
            MemberName::Format => "format",
            MemberName::Limits => "limits",
            MemberName::Depth => "limits.depth",
            MemberName::Own => "limits.own",
            MemberName::CallLimit => "limits.calls",
            MemberName::Threads => "threads",
            MemberName::Agents => "agents",
            MemberName::Methods => "methods",
            MemberName::Events => "events",
            MemberName::Walks => "walks",
            MemberName::Calls => "calls",
            MemberName::Entries => "entries",
        }
    }
}

impl fmt::Display for MemberName {
    ghost use Rattle.std.specs.Prelude.{Some};
    ghost use Rattle.ti_script.specs.Members.{member_text};

    ghost output = { λ which. Some (member_text which) };

    fn fmt<W: fmt::Write>(&self, f: &mut fmt::Formatter<W>) -> fmt::Result {
        f.write_str(self.text())
    }
}

/// The part of an item that is at fault.
#[derive(Clone, Copy, Debug, PartialEq, Eq)]
pub enum Part {
    /// No single part. The item is no array or no object, or has too many parts or too few.
    Whole,
    /// A member of the head: it is missing, or has a wrong shape or a wrong name in it.
    Member(MemberName),
    /// An element of the item, counted from 0.
    Element(u32),
}

/// The first fault of a document, with the part at fault. `ScriptFault` is the same without the part.
///
/// Items are numbered from 1, and item 0 is the head. `part` is the member or the element that is at fault. Source: this
/// profile.
#[derive(Clone, Copy, Debug, PartialEq, Eq, Error)]
pub enum LocatedFault {
    /// The bytes are not UTF-8, or no JSON text.
    #[error("the document is no JSON")]
    Json,
    /// A wrong kind of value, a wrong number of elements, an unknown word, or a number out of its range.
    #[error("item {item} has the wrong shape")]
    Shape { item: u32, part: Part },
    /// A name that is malformed, given twice, or not declared where it is looked up.
    #[error("item {item} has a wrong name")]
    Name { item: u32, part: Part },
    /// A number or a count that is out of its limit.
    #[error("the limit {which} is passed")]
    Limit { which: LimitName },
    /// Memory ran out for the tree, the names or the items.
    #[error("no memory")]
    Memory,
}

impl LocatedFault {
    /// The same fault without the part.
    pub fn without_part(self) -> ScriptFault
        ensures { result ≡ fault_of self }
    {
        match self {
            LocatedFault::Json => ScriptFault::Json,
            LocatedFault::Shape { item, .. } => ScriptFault::Shape { item },
            LocatedFault::Name { item, .. } => ScriptFault::Name { item },
            LocatedFault::Limit { which } => ScriptFault::Limit { which },
            LocatedFault::Memory => ScriptFault::Memory,
        }
    }

    /// The fault that a member of the head has the wrong shape, or is missing.
    pub(crate) fn in_shape_of(member: MemberName) -> Self
        ensures { result ≡ member_shape member }
    {
        LocatedFault::Shape {
            item: 0,
            part: Part::Member(member),
        }
    }

    /// The fault that a member of the head has a wrong name in it.
    pub(crate) fn in_names_of(member: MemberName) -> Self
        ensures { result ≡ member_name member }
    {
        LocatedFault::Name {
            item: 0,
            part: Part::Member(member),
        }
    }
}

impl From<AllocError> for LocatedFault {
    ghost use Rattle.std.specs.Prelude.{◌≡◌};
    ghost use Rattle.ti_script.specs.declared.located.LocatedFault.TheVariants.{Memory};

    ghost from_gives = { λ _ e. e ≡ Memory };

    fn from(_refused: AllocError) -> LocatedFault {
        LocatedFault::Memory
    }
}

impl<T: Drop> From<AllocFailed<T>> for LocatedFault {
    ghost use Rattle.std.specs.Prelude.{◌≡◌};
    ghost use Rattle.ti_script.specs.declared.located.LocatedFault.TheVariants.{Memory};

    ghost from_gives = { λ _ e. e ≡ Memory };

    fn from(_refused: AllocFailed<T>) -> LocatedFault {
        LocatedFault::Memory
    }
}

ghost use Rattle.std.specs.Prelude.{◌≡◌};
ghost use Rattle.ti_script.specs.Members.{key_of, member_text};
ghost use Rattle.ti_script.specs.Faults.{member_shape, member_name, fault_of};
