//! The theorem.
ghost use Rattle.osb_driver_network.specs.World.{AlwaysAgrees};

/// Does nothing: its contract is what is proved of the world of `specs/World.antt`. Whatever happens from the beginning, the
/// platform's record, the broker's row and the resource are those of one instance of the network, which has come about by
/// events of the network. An answer that a broker's driver comes to is the one that the network has given to its request.
/// So they agree.
pub fn refines()
    ensures always { AlwaysAgrees }
{}
