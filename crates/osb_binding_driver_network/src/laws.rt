//! The theorem.
ghost use Rattle.osb_binding_driver_network.specs.World.{AlwaysAgree};

/// Does nothing: its contract is what is proved of the world of `specs/World.antt`. Whatever happens from the beginning, both
/// sides are those of one instance with its bindings of the network, which has come about by events of the network. An
/// answer that a broker's driver comes to is the one that the network has given to its request. So records, rows,
/// resources and the platform's credentials agree.
pub fn refines()
    ensures always { AlwaysAgree }
{}
