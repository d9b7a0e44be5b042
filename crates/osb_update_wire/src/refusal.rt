//! Why a broker rejects an Update or a Fetch before it looks at any instance.
ghost use Rattle.std.specs.Prelude.{◌≡◌, Some};
ghost use Rattle.serde_json.specs.Written.{compact_text};
ghost use Rattle.osb_message.specs.declared.messages.Kind.TheVariants as Kind;
ghost use Rattle.osb_wire.specs.Answers.{answer_in};
ghost use Rattle.osb_wire.specs.Bodies.{object_in};
ghost use Rattle.osb_update_wire.specs.Refusals as refusals;

use osb_wire::Refusal;
use thiserror::Error;

/// Why a broker rejects an Update or a Fetch before it looks at any instance. It answers with
/// [`status`](UpdateRefusal::status) and [`body`](UpdateRefusal::body), and nothing has changed.
#[derive(Clone, Copy, Debug, PartialEq, Eq, Hash, Error)]
pub enum UpdateRefusal {
    /// The member `x-osb-update` isn't an integer from 1 to 2^64 - 1, in decimal digits: 400.
    #[error("x-osb-update must be an integer from 1 to 2^64 - 1")]
    BadNumber,
    /// For a reason that other requests of an instance are rejected for, too.
    #[error("{0}")]
    Refused(Refusal),
}

impl UpdateRefusal {
    /// The status to answer with. It takes no memory.
    pub fn status(self) -> u16
        ensures status { result ≡ refusals.status_of self }
    {
        match self {
            UpdateRefusal::BadNumber => 400,
            UpdateRefusal::Refused(refusal) => refusal.status(),
        }
    }

    /// The body to answer with: an object with `error` and a `description` for a person (section Service Broker Errors),
    /// with no spaces. It takes no memory, so that want of it can be told.
    ///
    /// To an Update, a platform takes 404, 405, 412 and 413 for a gateway's, and sends the Update again. It takes 400 for
    /// the broker's rejection.
    pub fn body(self) -> &'static str
        ensures text { result.now ≡ compact_text (refusals.object_of self) }
        ensures reads { object_in result.now ≡ Some (refusals.object_of self) }
        ensures taken { answer_in Kind.Provision (refusals.status_of self) result.now ≡ refusals.taken_for self }
    {
        match self {
            UpdateRefusal::BadNumber => {
                "{\"description\":\"x-osb-update must be an integer from 1 to 2^64 - 1.\",\"error\":\"BadRequest\"}"
            }
            UpdateRefusal::Refused(refusal) => refusal.body(),
        }
    }
}
