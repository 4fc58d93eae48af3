//! The numbers of threads, environments and methods.
/// A thread, by its number, counted from 0.
#[derive(Clone, Copy, Debug, PartialEq, Eq)]
pub struct ThreadNo(pub u32);

/// An agent's environment, by its number, counted from 0.
#[derive(Clone, Copy, Debug, PartialEq, Eq)]
pub struct EnvNo(pub u32);

/// A method, by its number. Every number is allowed.
#[derive(Clone, Copy, Debug, PartialEq, Eq)]
pub struct MethodNo(pub u32);
