//! What is proved of the transactions.
ghost use Rattle.osb_update_driver.specs.World.{AlwaysKept, RunsItsOwn};
ghost use Rattle.osb_update_driver.specs.Rows.{AnswersEnd, AnswersFirst, KeepsEnd, KeepsFinish, KeepsFirst, KeepsRequest, TakesUpAll};

/// Does nothing: its contract is what is proved of the transactions (`specs/Rows.antt`). Each is none or one
/// event of `osb_update_network`, and writes the row that the event leaves. An answer that a
/// transaction of an update comes to is that of its event. While an update is under way, the instance
/// has no work and no operation, so one number and one lock serve both.
pub fn keeps_rows()
    ensures first { KeepsFirst }
    ensures request { KeepsRequest }
    ensures end { KeepsEnd }
    ensures finish { KeepsFinish }
    ensures answers_first { AnswersFirst }
    ensures answers_end { AnswersEnd }
    ensures one { TakesUpAll }
{}

/// Does nothing: its contract is what is proved of the world of `specs/World.antt`, of any number of drivers and any
/// platform. Whatever happens from the beginning, the row and the resource are those of an instance of `AnyPlatform` of
/// `osb_update_network`, which has come about by its events, and each happening is none or one of them. So the promises
/// of a broker hold of the row and the resource. Whoever has the lock and works does the one work that goes on, of the
/// instance or of an update, and the outcome that the driver will write whose number the row has is true: so one number
/// and one lock serve both. The pending work is of that driver's own request, and an answer that a driver comes to is
/// that of its event. The transaction of a driver is that of
/// [`UpdateDriver::transaction`](crate::UpdateDriver::transaction).
pub fn keeps_promises()
    ensures transaction { RunsItsOwn }
    ensures always { AlwaysKept }
{}
