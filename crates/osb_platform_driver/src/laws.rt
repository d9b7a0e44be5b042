//! The theorem.
ghost use Rattle.osb_platform_driver.specs.World.{AlwaysAgrees, AreOwn, AreRuns, StaysSound};

/// Does nothing: its contract is what is proved of the world of `specs/World.antt`. The row stays what the network's platform
/// records. A request that a driver sends was recorded before, and is the network's of its number. An answer that a driver
/// takes came to its own request. The last transaction of a driver ends only its own request. What happens is a run of the
/// network. So from the beginning, the row, what the broker holds and the resource agree.
pub fn refines()
    ensures sound { StaysSound }
    ensures own { AreOwn }
    ensures runs { AreRuns }
    ensures always { AlwaysAgrees }
{}
