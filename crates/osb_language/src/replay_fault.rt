//! Why a schedule or a replay is refused.
ghost use Rattle.std.specs.Prelude.{◌≡◌};
ghost use Rattle.osb_language.specs.Conversions.{exit_status, replay_fault};

use crate::fault::LineFault;
use thiserror::Error;

/// Why a schedule isn't taken (this project's choice).
#[derive(Clone, Copy, Debug, PartialEq, Eq, Error)]
pub enum ScheduleFault {
    /// The first faulty line, its number from 1.
    #[error("line {line}: {fault}")]
    At {
        /// The number of the line.
        line: u32,
        /// What is wrong with it.
        fault: LineFault,
    },
    /// An allocation failed.
    #[error("out of memory")]
    Memory,
}

/// Why a replay has written no report (this project's choice).
#[derive(Clone, Copy, Debug, PartialEq, Eq, Error)]
pub enum ReplayFault {
    /// The first faulty line of the schedule, its number from 1.
    #[error("line {line}: {fault}")]
    Schedule {
        /// The number of the line.
        line: u32,
        /// What is wrong with it.
        fault: LineFault,
    },
    /// The reader failed.
    #[error("read failed")]
    Read,
    /// The writer failed or took nothing.
    #[error("write failed")]
    Write,
    /// An allocation failed.
    #[error("out of memory")]
    Memory,
}

impl From<ScheduleFault> for ReplayFault {
    ghost from_gives = { λ found fault. fault ≡ replay_fault found };

    fn from(found: ScheduleFault) -> ReplayFault {
        match found {
            ScheduleFault::At { line, fault } => ReplayFault::Schedule { line, fault },
            ScheduleFault::Memory => ReplayFault::Memory,
        }
    }
}

/// The status that the program ends with: 1 for a faulty schedule, 3 for a failed read, 4 for a
/// failed write, 5 where memory ran out (this project's choice). It takes no memory.
pub fn status_of(fault: &ReplayFault) -> u8
    ensures status { result ≡ exit_status fault.now }
{
    match fault {
        ReplayFault::Schedule { .. } => 1,
        ReplayFault::Read => 3,
        ReplayFault::Write => 4,
        ReplayFault::Memory => 5,
    }
}
