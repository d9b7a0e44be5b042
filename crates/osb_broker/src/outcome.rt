//! How the work behind a request goes.

/// How the work behind a request goes, which the broker's caller says.
///
/// It counts only where the work would be done at all: at a Provision of an instance that isn't
/// there, at a Deprovision of one that is there and that no operation runs on, and at a Poll of
/// one that is there, each where nothing refuses the request first. Everywhere else it is ignored.
///
/// The three outcomes are this project's choice: the standard says what a platform does after a
/// Provision is answered 500 to 599 (section Orphan Mitigation), and not what a broker then holds.
#[derive(Clone, Copy, Debug, PartialEq, Eq, Hash)]
pub enum Outcome {
    /// The work is done, or at an asynchronous plan started.
    Done,
    /// It fails before anything was changed. The answer is an error.
    Before,
    /// It fails after the change was made. The answer is an error, and the change stays.
    After,
}
