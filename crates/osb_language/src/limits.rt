//! How much a line may have (this project's choice).

/// How many bytes a line has at most before its line feed, a carriage return included.
pub const LONGEST_LINE: usize = 512;
