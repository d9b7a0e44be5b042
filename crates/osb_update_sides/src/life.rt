//! What the updates of an instance see of the instance itself.
ghost use Rattle.std.specs.Prelude.{◌≡◌};
ghost use Rattle.osb_update.specs.Begun as broker;
ghost use Rattle.osb_update_sides.specs.Life as spec;

use osb_instance::{Holding, HoldingPhase, Record};
use osb_message::ServiceId;
use osb_platform::State;

/// What the updates of an instance see of the instance itself: what the platform records of it, and what the broker
/// holds (this project's choice).
#[derive(Clone, Copy, Debug, PartialEq, Eq)]
pub struct Life {
    /// What the platform records, or none before the instance is created.
    pub recorded: Option<Record>,
    /// What the broker holds.
    pub holding: Holding,
}

impl Life {
    // Whether the instance isn't to be removed: what is recorded of its updates counts.
    pub(crate) fn is_kept(&self) -> bool
        ensures is { result ≡ spec.is_kept self.now }
    {
        match self.recorded {
            None => true,
            Some(record) => matches!(
                record.row().state,
                State::Wanted | State::Polling | State::Ready | State::Unsettled
            ),
        }
    }

    // Whether it is recorded `ready`.
    pub(crate) fn is_ready(&self) -> bool
        ensures is { result ≡ spec.is_ready self.now }
    {
        match self.recorded {
            None => false,
            Some(record) => record.is_ready(),
        }
    }

    /// Whether its row is ready, and no work of it is pending. It takes no memory.
    pub fn is_available(&self) -> bool
        ensures is { result ≡ broker.is_available self.now.holding }
    {
        match (self.holding.row(), self.holding.work()) {
            (Some(row), None) => row.phase == HoldingPhase::Ready,
            _ => false,
        }
    }

    fn has_service(&self, service: ServiceId) -> bool
        ensures has { result ≡ spec.has_service self.now.holding.row service }
    {
        match self.holding.row() {
            None => false,
            Some(row) => row.service == service,
        }
    }

    // Whether both sides agree on the instance itself: it is available if it is recorded `ready`, and has the service
    // then.
    pub(crate) fn is_of(&self, service: ServiceId) -> bool
        ensures is { result ≡ spec.is_life service self.now }
    {
        (!self.is_ready() || self.is_available())
            && (!self.is_available() || self.has_service(service))
    }

    // Whether the instance may become so: once it is to be removed it stays so, and `ready` ends by a removal alone.
    pub(crate) fn goes_on(&self, after: &Life) -> bool
        ensures goes { result ≡ spec.goes_on self.now after.now }
    {
        (!after.is_kept() || self.is_kept())
            && (!(self.is_ready() && after.is_kept()) || after.is_ready())
    }
}
