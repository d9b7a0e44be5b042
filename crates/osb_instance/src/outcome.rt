//! How pending work ends.
ghost use Rattle.std.specs.Prelude.{◌≡◌};
ghost use Rattle.osb_instance.specs.Begin.{rejection_status};

/// The status by which a broker rejects a Provision for good (section Service Broker Errors).
#[derive(Clone, Copy, Debug, PartialEq, Eq, Hash)]
pub enum Rejection {
    /// 400: what was asked for can't be made, for example since a parameter is wrong.
    BadRequest,
    /// 422: what was asked for isn't made, for example since a quota is used up or a name is taken.
    UnprocessableEntity,
}

impl Rejection {
    /// The status, 400 or 422. It takes no memory.
    pub fn status(self) -> u16
        ensures status { result ≡ rejection_status self }
    {
        match self {
            Rejection::BadRequest => 400,
            Rejection::UnprocessableEntity => 422,
        }
    }
}

/// How the pending work of a request ended (this project's choice). Work that is half done is none of these: undo it
/// and report `Before`, finish it and report `Done`, or report nothing until it is known.
#[derive(Clone, Copy, Debug, PartialEq, Eq, Hash)]
pub enum WorkOutcome {
    /// It is done, or at an asynchronous plan started.
    Done,
    /// It failed, and all is as it was: nothing was created, or nothing was deleted.
    Before,
    /// It failed, and yet all of it was done: the whole resource exists, or nothing is left of it.
    After,
    /// The backend rejects a Provision, and nothing of the resource exists. No copy of the request can succeed later.
    Refused(Rejection),
}
