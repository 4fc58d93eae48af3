//! An event that waits to be told, with all that is told of it.

use crate::request::Policy;
use crate::text::Text;

/// An event that meets requests.
#[derive(Drop)]
pub(crate) struct Notice {
    /// Which threads it suspends.
    pub(crate) policy: Policy,
    /// The thread at which it took place.
    pub(crate) thread: u32,
    /// The thread stopped, and waits until it is told.
    pub(crate) stop: bool,
    /// The body of the packet that tells it.
    pub(crate) body: Text,
}
