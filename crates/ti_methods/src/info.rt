//! What a runtime says of a class and its methods.

use ti_types::MethodNo;

/// A class, by its number. Numbers count from 0, and are never used again.
#[derive(Clone, Copy, Debug, PartialEq, Eq)]
pub struct ClassNo(pub u32);

/// A class with its methods: a Java class, or whatever of a program comes at once, as a chunk, a module or a file.
#[derive(Drop, Debug)]
pub struct ClassInfo {
    /// Its signature (JVM TI 11), as in `Ljava/lang/Object;`. Two classes may have the same.
    pub signature: String,
    /// The name of the file that it was read from.
    pub source_file: Option<String>,
    /// Its methods. They have numbers in this order.
    pub methods: Vec<MethodInfo>,
}

/// A method of a class.
#[derive(Drop, Debug)]
pub struct MethodInfo {
    pub name: String,
    /// Its signature (JVM TI 11), as in `(I)V`.
    pub signature: String,
    /// The line at which it is defined. 0 if it is not known.
    pub first_line: u32,
    pub lines: Lines,
    pub is_native: bool,
}

/// The lines of a method.
#[derive(Drop, Debug)]
pub enum Lines {
    /// They are not known.
    Absent,
    /// A location is its line.
    Locations,
    /// For each entry, the line of the locations from its start on, up to the next entry (JVM TI 11,
    /// jvmtiLineNumberEntry).
    Table(Vec<LineEntry>),
}

/// From this location on, a method is at this line.
#[derive(Clone, Copy, Debug, PartialEq, Eq)]
pub struct LineEntry {
    pub start_location: u32,
    pub line: u32,
}

/// The numbers of a class that was defined.
#[derive(Clone, Copy, Debug, PartialEq, Eq)]
pub struct Defined {
    pub class: ClassNo,
    /// The number of its first method. The others follow it. If it has none, it is that of the next method of any class.
    pub first: MethodNo,
}

/// A method's name, its signature, and the line at which it is defined (JVM TI 11, GetMethodName).
#[derive(Drop, Debug)]
pub struct MethodName {
    pub name: String,
    pub signature: String,
    pub first_line: u32,
}
