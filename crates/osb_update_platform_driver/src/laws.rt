//! The theorem.
ghost use Rattle.osb_update_platform_driver.specs.World.{AlwaysAgrees, AreOwn, AreRuns, StaysSound};
ghost use Rattle.osb_update_platform_driver.specs.World.{KeepsTheDrivers, LeavesTheRow, TakesNothing, TakesOverAtRest};
ghost use Rattle.osb_update_platform_driver.specs.World.{WaitsAsItMust};

/// Does nothing: its contract is what is proved of the world of `specs/World.antt`. The row stays what the network's
/// platform records. A request that a driver sends was recorded before, and is the network's. An answer that a driver
/// takes came to its own request. The last transaction of a driver ends only its own request. What happens is a run of
/// the network. So from the beginning, the row, what the broker holds and the resource agree on the settings.
pub fn refines()
    ensures sound { StaysSound }
    ensures own { AreOwn }
    ensures runs { AreRuns }
    ensures always { AlwaysAgrees }
{}

/// Does nothing: its contract is what is proved of the row that the instance and its updates share, with one number. An
/// instance that goes on as [`may_remove`](crate::may_remove) allows it waits for a request of an update exactly as the
/// network's instance does. A driver of updates takes over the row only if the instance is recorded ready and no
/// request of the instance is in flight. That leaves what `osb_platform_driver` proves of the drivers of the instance.
/// While the instance is so, such a driver that isn't to clean it up leaves the row as it is.
pub fn shares_the_row()
    ensures waits { WaitsAsItMust }
    ensures rest { TakesOverAtRest }
    ensures keeps { KeepsTheDrivers }
    ensures leaves { LeavesTheRow }
    ensures takes { TakesNothing }
{}
