//! Sets of capabilities.

/// A set of capabilities, kept as a sum of bits: 1 can_suspend, 2 can_pop_frame, 4 can_tag_objects (JVM TI 11,
/// jvmtiCapabilities; the bits are this profile's).
#[derive(Clone, Copy, Debug, PartialEq, Eq)]
pub struct Caps {
    /// The sum of the bits.
    pub bits: u8,
}

impl Caps {
    /// The capability to suspend and resume threads.
    pub const CAN_SUSPEND: Caps = Caps { bits: 1 };

    /// The capability to pop frames.
    pub const CAN_POP_FRAME: Caps = Caps { bits: 2 };

    /// The capability to tag objects. It cannot be had in this profile.
    pub const CAN_TAG_OBJECTS: Caps = Caps { bits: 4 };

    /// No capability.
    pub fn none() -> Caps
        ensures { result ≡ no_caps }
    {
        Caps { bits: 0 }
    }

    /// The capabilities that are in either set (JVM TI 11, AddCapabilities: those from before stay).
    pub fn add(self, other: Caps) -> Caps
        ensures { result ≡ caps_with self other }
    {
        Caps {
            bits: self.bits | other.bits,
        }
    }

    /// The capabilities of this set that are not in the other. One that is not in this set is no error (JVM TI 11,
    /// RelinquishCapabilities).
    pub fn relinquish(self, other: Caps) -> Caps
        ensures { result ≡ caps_without self other }
    {
        Caps {
            bits: self.bits - (self.bits & other.bits),
        }
    }

    /// Whether each capability of the other set is in this one.
    pub fn has(self, other: Caps) -> bool
        ensures { result ≡ has_all self other }
    {
        self.bits & other.bits == other.bits
    }

    /// Whether each capability of this set can be had: can_suspend and can_pop_frame can (this profile).
    pub fn can_be_had(self) -> bool
        ensures { result ≡ can_be_had_of self }
    {
        self.bits < 4
    }
}

ghost use Rattle.std.specs.Prelude.{◌≡◌};
ghost use Rattle.ti_types.specs.Caps.{no_caps, caps_with, caps_without, has_all, can_be_had as can_be_had_of};
