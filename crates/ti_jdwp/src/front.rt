//! What stands first in an input.

use crate::packet::{HEAD_LEN, Head, read_head};

/// The request that stands first in an input.
#[derive(Clone, Copy)]
pub(crate) struct First {
    pub(crate) id: u32,
    pub(crate) set: u8,
    pub(crate) command: u8,
    /// Bytes of the packet, with its head.
    pub(crate) length: usize,
}

impl First {
    pub(crate) const NONE: First = First {
        id: 0,
        set: 0,
        command: 0,
        length: 0,
    };

    /// The bytes behind the head of the packet, which the input begins with, as far as they came.
    pub(crate) fn data(self, input: &[u8]) -> &[u8]
        ensures { result.now ≡ data_of self input.now }
    {
        if self.length < HEAD_LEN || input.len() < HEAD_LEN {
            return &[];
        }
        let behind = &input[HEAD_LEN..];
        if self.length <= input.len() {
            &behind[..self.length - HEAD_LEN]
        } else {
            behind
        }
    }
}

/// What stands first in an input.
#[derive(Clone, Copy)]
pub(crate) enum Front {
    /// No whole packet yet.
    More,
    /// No packet.
    Broken,
    /// A whole reply of this many bytes, which is ignored.
    Reply(usize),
    /// A whole request.
    Request(First),
}

/// What stands first in the input.
pub(crate) fn front_of(input: &[u8]) -> Front
    ensures { IsFront input.now result }
{
    match read_head(input) {
        Head::NeedsMore => Front::More,
        Head::TooShort | Head::TooLong => Front::Broken,
        Head::Reply { length } => {
            if length <= input.len() {
                Front::Reply(length)
            } else {
                Front::More
            }
        }
        Head::Request {
            id,
            set,
            command,
            length,
        } => {
            if length <= input.len() {
                Front::Request(First {
                    id,
                    set,
                    command,
                    length,
                })
            } else {
                Front::More
            }
        }
    }
}

ghost use Rattle.std.specs.Prelude.{◌≡◌};
ghost use Rattle.ti_jdwp.specs.Talks.{IsFront, data_of};
