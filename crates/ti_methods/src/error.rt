//! Why a class is not defined, or nothing is told of one.

use std::alloc::AllocError;
use std::error::Error;
use std::fmt;

/// Why a call is refused. The first five have JVM TI 11's numbers, the last two this profile's.
#[derive(Clone, Copy, Debug, PartialEq, Eq)]
pub enum ClassError {
    /// 21 INVALID_CLASS: no class of this number was defined.
    InvalidClass = 21,
    /// 23 INVALID_METHODID: no method of this number was defined.
    InvalidMethod = 23,
    /// 101 ABSENT_INFORMATION: the class has no source file, or the method no lines.
    AbsentInformation = 101,
    /// 104 NATIVE_METHOD: a native method has no lines.
    NativeMethod = 104,
    /// 110 OUT_OF_MEMORY: there is no memory for the class, or for what is told.
    OutOfMemory = 110,
    /// 215: another thread is just defining the class, or is in the way of a definition. Try again.
    Busy = 215,
    /// 216: there would be 2^32 classes or methods, or 2^63 handles.
    Full = 216,
}

impl ClassError {
    /// The number by which the error is known: JVM TI 11's, or from 201 on this profile's.
    pub fn number(self) -> u32
        ensures { result ≡ number_of self }
    {
        self as u32
    }

    /// The error's name in JVM TI's spelling, as in `INVALID_METHODID`.
    pub fn name(self) -> &'static str
        ensures { result.now ≡ name_of self }
    {
        match self {
            ClassError::InvalidClass => "INVALID_CLASS",
            ClassError::InvalidMethod => "INVALID_METHODID",
            ClassError::AbsentInformation => "ABSENT_INFORMATION",
            ClassError::NativeMethod => "NATIVE_METHOD",
            ClassError::OutOfMemory => "OUT_OF_MEMORY",
            ClassError::Busy => "BUSY",
            ClassError::Full => "FULL",
        }
    }
}

impl fmt::Display for ClassError {
    ghost use Rattle.std.specs.Prelude.{Some};
    ghost use Rattle.ti_methods.specs.Errors.{name_of};

    ghost output = { λ error. Some (name_of error) };

    fn fmt<W: fmt::Write>(&self, f: &mut fmt::Formatter<W>) -> fmt::Result {
        f.write_str(self.name())
    }
}

impl Error for ClassError {}

impl From<AllocError> for ClassError {
    ghost use Rattle.std.specs.Prelude.{◌≡◌};
    ghost use Rattle.ti_methods.specs.declared.error.ClassError.TheVariants.{OutOfMemory};

    ghost from_gives = { λ _ e. e ≡ OutOfMemory };

    /// Lack of memory is OUT_OF_MEMORY, 110 (JVM TI 11).
    fn from(_: AllocError) -> Self {
        ClassError::OutOfMemory
    }
}

ghost use Rattle.std.specs.Prelude.{◌≡◌};
ghost use Rattle.ti_methods.specs.Errors.{name_of, number_of};
