//! The requests of an update, as a broker reads them.
ghost use Rattle.std.specs.Prelude.{◌≡◌};
ghost use Rattle.osb_update_sides.specs.Steps as spec;

use osb_update::{Change, UpdateRequest, UpdateSent};

/// A request of an update that was sent.
#[derive(Clone, Copy, Debug, PartialEq, Eq, Hash)]
pub struct UpdateAsked {
    /// Its attempt, which is the number of an Update too.
    pub attempt: u64,
    /// The request.
    pub asked: Asked,
}

/// A request of an update, as a broker reads it.
#[derive(Clone, Copy, Debug, PartialEq, Eq, Hash)]
pub enum Asked {
    /// An Update that names these settings.
    Update(Change),
    /// A Poll. Whichever plan of the service it names, it is read as naming the plan of the instance's row (this
    /// project's choice).
    Poll,
    /// A Fetch.
    Fetch,
}

// The request as the broker reads it.
pub(crate) fn asked_by(sent: &UpdateSent) -> UpdateAsked
    ensures asked { result ≡ spec.asked_by sent.now }
{
    let asked = match &sent.request {
        UpdateRequest::Update(names) => Asked::Update(*names),
        UpdateRequest::Poll(_) => Asked::Poll,
        UpdateRequest::Fetch => Asked::Fetch,
    };
    UpdateAsked {
        attempt: sent.attempt,
        asked,
    }
}
