//! The theorem.
ghost use Rattle.osb_driver.specs.World.{AlwaysAgrees, AreGiven, AreRuns, StaysSound};

/// Does nothing: its contract is what is proved of the world of `specs/World.antt`. The row and the resource stay those of
/// the network's instance. What happens is a run of the network. From the beginning, an answer that a driver comes to was
/// given to its request, and the platform's record, the row and the resource agree.
pub fn refines()
    ensures sound { StaysSound }
    ensures runs { AreRuns }
    ensures given { AreGiven }
    ensures always { AlwaysAgrees }
{}
