//! What a debugger asks for.

use crate::error::JdwpError;

/// Where a text or the modifiers stand in the data of a request: the bytes from `start` to `end`, without the one at `end`.
#[derive(Clone, Copy, Debug, PartialEq, Eq)]
pub struct Range {
    pub start: usize,
    pub end: usize,
}

impl Range {
    /// The bytes of the request's data that stand there. A range that is not within the data has none.
    pub fn of(self, bytes: &[u8]) -> &[u8]
        ensures { result.now ≡ bytes_at self bytes.now }
    {
        if self.start <= self.end && self.end <= bytes.len() {
            &bytes[self.start..self.end]
        } else {
            &[]
        }
    }
}

/// The kinds of events that a debugger can ask for.
#[derive(Clone, Copy, Debug, PartialEq, Eq)]
pub enum EventKind {
    /// 1 SINGLE_STEP.
    SingleStep,
    /// 2 BREAKPOINT.
    Breakpoint,
    /// 6 THREAD_START.
    ThreadStart,
    /// 7 THREAD_DEATH.
    ThreadDeath,
    /// 8 CLASS_PREPARE.
    ClassPrepare,
    /// 9 CLASS_UNLOAD.
    ClassUnload,
    /// 90 VM_START.
    VmStart,
    /// 99 VM_DEATH.
    VmDeath,
}

impl EventKind {
    /// The number of the kind on the wire.
    pub fn number(self) -> u8
        ensures { result ≡ kind_number self }
    {
        match self {
            EventKind::SingleStep => 1,
            EventKind::Breakpoint => 2,
            EventKind::ThreadStart => 6,
            EventKind::ThreadDeath => 7,
            EventKind::ClassPrepare => 8,
            EventKind::ClassUnload => 9,
            EventKind::VmStart => 90,
            EventKind::VmDeath => 99,
        }
    }

    /// The kind with this number.
    ///
    /// Fails with 99 NOT_IMPLEMENTED for a kind of JDWP that is not served, and with 102 INVALID_EVENT_TYPE for a number
    /// that no kind has.
    pub fn from_number(number: u8) -> Result<EventKind, JdwpError>
        ensures { result ≡ kind_of number }
    {
        match number {
            1 => Ok(EventKind::SingleStep),
            2 => Ok(EventKind::Breakpoint),
            6 => Ok(EventKind::ThreadStart),
            7 => Ok(EventKind::ThreadDeath),
            8 => Ok(EventKind::ClassPrepare),
            9 => Ok(EventKind::ClassUnload),
            90 => Ok(EventKind::VmStart),
            99 => Ok(EventKind::VmDeath),
            3..=5 | 10 | 20 | 21 | 30 | 40..=46 => Err(JdwpError::NotImplemented),
            _ => Err(JdwpError::InvalidEventType),
        }
    }
}

/// Which threads an event suspends.
#[derive(Clone, Copy, Debug, PartialEq, Eq)]
pub enum Policy {
    /// 0 NONE.
    None,
    /// 1 EVENT_THREAD: the thread at which the event takes place.
    EventThread,
    /// 2 ALL.
    All,
}

impl Policy {
    /// The number of the policy on the wire.
    pub fn number(self) -> u8
        ensures { result ≡ policy_number self }
    {
        match self {
            Policy::None => 0,
            Policy::EventThread => 1,
            Policy::All => 2,
        }
    }

    /// The policy with this number. 103 ILLEGAL_ARGUMENT above 2.
    pub fn from_number(number: u8) -> Result<Policy, JdwpError>
        ensures { result ≡ policy_of number }
    {
        match number {
            0 => Ok(Policy::None),
            1 => Ok(Policy::EventThread),
            2 => Ok(Policy::All),
            _ => Err(JdwpError::IllegalArgument),
        }
    }
}

/// What a debugger asks for. Ids are those of the wire. The comments give the command set and the command.
#[derive(Clone, Copy, Debug, PartialEq, Eq)]
pub enum Request {
    /// 1/1.
    Version,
    /// 1/2, with the signature.
    ClassesBySignature(Range),
    /// 1/20 AllClassesWithGeneric.
    AllClasses,
    /// 1/4.
    AllThreads,
    /// 1/5.
    TopLevelThreadGroups,
    /// 1/6.
    Dispose,
    /// 1/7.
    IdSizes,
    /// 1/8.
    SuspendAll,
    /// 1/9.
    ResumeAll,
    /// 1/12.
    Capabilities,
    /// 1/13.
    ClassPaths,
    /// 1/14, with the objects ([`disposed_at`](crate::disposed_at)).
    DisposeObjects(Range),
    /// 1/15.
    HoldEvents,
    /// 1/16.
    ReleaseEvents,
    /// 1/17.
    CapabilitiesNew,
    /// 2/1, of a class.
    Signature(u64),
    /// 2/13, of a class.
    SignatureWithGeneric(u64),
    /// 2/2, of a class.
    ClassLoader(u64),
    /// 2/3, of a class.
    Modifiers(u64),
    /// 2/14 FieldsWithGeneric, of a class.
    Fields(u64),
    /// 2/7, of a class.
    SourceFile(u64),
    /// 2/9, of a class.
    ClassStatus(u64),
    /// 2/10, of a class.
    Interfaces(u64),
    /// 2/15, of a class.
    MethodsWithGeneric(u64),
    /// 3/1, of a class.
    Superclass(u64),
    /// 6/1.
    LineTable {
        class: u64,
        method: u64,
    },
    /// 6/2.
    VariableTable {
        class: u64,
        method: u64,
    },
    /// 6/4.
    IsObsolete {
        class: u64,
        method: u64,
    },
    /// 6/5.
    VariableTableWithGeneric {
        class: u64,
        method: u64,
    },
    /// 9/1, of an object.
    ReferenceType(u64),
    /// 9/9, of an object.
    IsCollected(u64),
    /// 10/1, of a text.
    TextValue(u64),
    /// 11/1, of a thread.
    ThreadName(u64),
    /// 11/2, of a thread.
    Suspend(u64),
    /// 11/3, of a thread.
    Resume(u64),
    /// 11/4, of a thread.
    ThreadStatus(u64),
    /// 11/5, of a thread.
    ThreadGroup(u64),
    /// 11/6: frames of a thread from `start` on, the newest being 0. `length` is -1 for all that are left.
    Frames {
        thread: u64,
        start: i32,
        length: i32,
    },
    /// 11/7, of a thread.
    FrameCount(u64),
    /// 11/12, of a thread.
    SuspendCount(u64),
    /// 12/1, of a thread group.
    GroupName(u64),
    /// 12/2, of a thread group.
    GroupParent(u64),
    /// 12/3, of a thread group.
    GroupChildren(u64),
    /// 13/1, of a table.
    TableLength(u64),
    /// 13/2: this many entries of a table from `start` on, the first being 0.
    TableEntries {
        table: u64,
        start: i32,
        length: i32,
    },
    /// 15/1, with the number of modifiers. They stand in the range one after the other.
    SetEvent {
        kind: EventKind,
        policy: Policy,
        modifiers: Range,
        count: u32,
    },
    /// 15/2, of any kind, with the number of the event request.
    ClearEvent {
        kind: u8,
        request: i32,
    },
    /// 16/1, of variables whose slots stand in the range ([`read_slots`](crate::read_slots)).
    FrameValues {
        thread: u64,
        frame: u64,
        slots: Range,
    },
    /// 16/3.
    ThisObject {
        thread: u64,
        frame: u64,
    },
    /// 16/4: the frame goes, and all newer ones.
    PopFrames {
        thread: u64,
        frame: u64,
    },
}

ghost use Rattle.std.specs.Prelude.{◌≡◌};
ghost use Rattle.ti_jdwp.specs.Events.{kind_number, kind_of, policy_number, policy_of};
ghost use Rattle.ti_jdwp.specs.Fields.{bytes_at};
