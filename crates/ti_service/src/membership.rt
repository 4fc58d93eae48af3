//! What an agent has beside its environment.

use crate::event::EventModes;
use crate::service::Service;
use ti_agent::{FreeDesk, Home};
use ti_types::Caps;

/// What an agent has beside its environment: its handle of the service, the desks that it has taken and not added, which
/// events it is told, and whether its last meeting failed.
///
/// It may be the home of an environment whose number the handle has, and of desks at the threads that came to the service.
#[derive(Drop)]
pub struct Membership {
    pub(crate) service: Service,
    /// Desks that were taken, and could not be added for lack of memory. The last is added first.
    pub(crate) waiting: Vec<FreeDesk>,
    pub(crate) events: EventModes,
    /// Whether its last meeting failed. Then there may be threads that it has not met, though it has seen that they came.
    pub(crate) unmet: bool,
}

impl Home for Membership {
    ghost use Rattle.ti_service.specs.Homes.{HasCome, IsHomeOf};

    ghost about = { λ m e l. IsHomeOf m.service m.waiting.items e l };

    ghost holds = { λ m s. HasCome m.service.view.seen s };

    ghost potential = { λ m. m.service.cell.potential };

    fn potential(&self) -> Caps {
        self.service.potential()
    }
}
