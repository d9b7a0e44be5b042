//! One instance alone.
use osb_broker::BrokerRow;
use osb_message::{Answer, Request};
use osb_platform::PlatformRow;

/// All that there is of one instance, on both sides and between them (this project's choice). An id
/// that was never recorded has none of the four.
#[derive(Clone, Copy, Debug, PartialEq, Eq, Hash)]
pub struct Cell {
    /// What the platform records.
    pub platform: Option<PlatformRow>,
    /// What the broker holds.
    pub broker: Option<BrokerRow>,
    /// The request that was sent and is neither answered, nor timed out, nor dropped by a restart.
    pub out: Option<Request>,
    /// The broker's answer to it, on its way to the platform.
    pub travelling: Option<Answer>,
}
