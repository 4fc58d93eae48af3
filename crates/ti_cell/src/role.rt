//! Whose seat a seat is.

/// Whose seat it is: the thread's own, or an environment's. It is there for contracts alone.
pub trait Role {
    ghost use Rattle.std.specs.Prelude.{ℕ};

    /// Whether a seat of this number is theirs, where there are so many environments.
    ghost sits: { ℕ → ℕ → Type 0 };
}

/// The role of the thread itself.
pub struct OwnerRole;

impl Role for OwnerRole {
    ghost use Rattle.std.specs.Prelude.{◌≡◌};

    ghost sits = { λ number envs. number ≡ 0 };
}

/// The role of an environment.
pub struct EnvRole;

impl Role for EnvRole {
    ghost use Rattle.std.specs.Prelude.{◌<◌, ◌≤◌};

    ghost sits = { λ number envs. (0 < number) × (number ≤ envs) };
}
