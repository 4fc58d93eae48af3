//! The law that the promises of global operations depend on.

/// A desk has seen its thread standing for its environment, after a prefix of the history. Until the environment lets the
/// thread go, whatever the desk sees has no further entry of the thread's own. The mode is that of the prefix. The frames
/// are those of the prefix, after the pops since.
pub fn desks_stay()
    ensures { DesksStay }
{}

ghost use Rattle.ti_vmop.specs.Desks.{DesksStay};
