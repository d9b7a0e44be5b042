//! The theorem.
ghost use Rattle.osb_binding_driver.specs.ServiceWorld.{AlwaysAgree};

/// Does nothing: its contract is what is proved of the world of `specs/ServiceWorld.antt`. From the beginning, the rows and
/// the resources of the instance and of each binding are those of the network, what has happened is a run of it, and an
/// answer that a driver comes to is the one that the network has given to its request. So records, rows and resources
/// agree.
pub fn refines()
    ensures always { AlwaysAgree }
{}
