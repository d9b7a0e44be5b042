//! How much a schedule may have, and how much is read at once (this project's choice).

/// How many lines a schedule has at most.
pub const MOST_LINES: u32 = 100_000;

/// How many bytes of a schedule are read at most: as many as [`MOST_LINES`] lines of
/// [`LONGEST_LINE`](osb_language::LONGEST_LINE) bytes have with their line feeds, and one more. Some line
/// among them has a fault.
pub const MOST_BYTES: usize = 51_300_001;

/// How many bytes a reader is asked for at most in one call.
pub const LARGEST_READ: usize = 4096;
