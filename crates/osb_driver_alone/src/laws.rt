//! The theorem.
ghost use Rattle.osb_driver_alone.specs.World.{AlwaysKept, UseOwnModes};

/// Does nothing: its contract is what is proved of the world of `specs/World.antt`. Whatever happens from the
/// beginning, the row and the resource are those of one instance of `AnyPlatform`, which has come about by its events.
/// Each happening is none or one of these events, and gives its answer. An answer that a driver comes to was given to
/// the driver's own request. So the promises of a broker hold of the row, the resource and the answers. The first
/// transaction of a request is that of the mode of the request's own plan.
pub fn keeps_promises()
    ensures own_modes { UseOwnModes }
    ensures always { AlwaysKept }
{}
