//! The resource itself.

/// What there is of an instance in the backend: the database, queue or storage itself (this project's choice).
#[derive(Clone, Copy, Debug, PartialEq, Eq, Hash)]
pub enum Resource {
    /// There is none.
    Absent,
    /// Some of it is there.
    Part,
    /// All of it is there.
    Whole,
}
