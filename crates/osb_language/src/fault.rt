//! Why a line is refused.
use thiserror::Error;

/// What is wrong with a line of a schedule (this project's choice, as is the whole language).
///
/// The last three depend on the lines before it: `osb_lines`, which reads them all, returns them, and
/// [`read_line`](crate::read_line) never does.
#[derive(Clone, Copy, Debug, PartialEq, Eq, Error)]
pub enum LineFault {
    /// A byte above 127, in a comment too.
    #[error("NotAscii")]
    NotAscii = 1,
    /// More than 512 bytes before the line feed, a carriage return included.
    #[error("LineTooLong")]
    LineTooLong = 2,
    /// A first word that no line begins with.
    #[error("UnknownWord")]
    UnknownWord = 3,
    /// More or fewer words than such a line has.
    #[error("WordCount")]
    WordCount = 4,
    /// A word that isn't an id, where one belongs.
    #[error("BadId")]
    BadId = 5,
    /// A word that isn't one of the choices, where one belongs.
    #[error("BadChoice")]
    BadChoice = 6,
    /// A plan line after an event.
    #[error("LatePlan")]
    LatePlan = 7,
    /// A plan line whose service and plan an earlier one has.
    #[error("DuplicatePlan")]
    DuplicatePlan = 8,
    /// A line after the first 100,000.
    #[error("TooManyLines")]
    TooManyLines = 9,
}
