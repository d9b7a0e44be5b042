//! The theorem.
ghost use Rattle.osb_binding_platform_driver.specs.ServiceWorld.{AlwaysAgree, AreOwn};

/// Does nothing: its contract is what is proved of the world of `specs/ServiceWorld.antt`. From the beginning, the rows of
/// the instance and of each binding are what the network's platform records, a binding's row has its credentials exactly
/// while it is ready, and what has happened is a run of the network. So records, rows, resources and credentials agree. The
/// last transaction of a driver ends only its own request.
pub fn refines()
    ensures own { AreOwn }
    ensures always { AlwaysAgree }
{}
