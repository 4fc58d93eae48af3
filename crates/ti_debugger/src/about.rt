//! What a debugger is told of the runtime.

/// What a debugger is told of the runtime.
#[derive(Drop)]
pub struct About {
    /// A description of the runtime, for people.
    pub description: String,
    /// The version of the runtime. The version of the protocol is 1.8.
    pub version: String,
    /// The name of the runtime.
    pub name: String,
    /// The directory that source files are looked for in.
    pub base: String,
    /// The class path.
    pub path: String,
}
