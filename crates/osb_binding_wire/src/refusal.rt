//! Why a broker refuses a request of a binding before it looks at any binding.
ghost use Rattle.std.specs.Prelude.{◌≡◌, Some};
ghost use Rattle.serde_json.specs.Written.{compact_text};
ghost use Rattle.osb_message.specs.declared.messages.Kind.{Kind};
ghost use Rattle.osb_wire.specs.Answers.{answer_in};
ghost use Rattle.osb_wire.specs.Bodies.{object_in};
ghost use Rattle.osb_binding_wire.specs.Refusals as refusals;

use osb_wire::Refusal;
use thiserror::Error;

/// Why a broker refuses a request of a binding before it looks at any binding. It answers with
/// [`status`](BindingRefusal::status) and [`body`](BindingRefusal::body), and nothing has changed.
#[derive(Clone, Copy, Debug, PartialEq, Eq, Hash, Error)]
pub enum BindingRefusal {
    /// The id of the binding isn't UTF-8, is empty or longer than 255 bytes, or is `.` or `..`: 400.
    #[error("the binding id must be UTF-8 of 1 to 255 bytes, and no dot segment")]
    BadBinding,
    /// For a reason that a request of an instance is refused for, too.
    #[error("{0}")]
    Refused(Refusal),
}

impl BindingRefusal {
    /// The status to answer with. It takes no memory.
    pub fn status(self) -> u16
        ensures status { result ≡ refusals.status_of self }
    {
        match self {
            BindingRefusal::BadBinding => 400,
            BindingRefusal::Refused(refusal) => refusal.status(),
        }
    }

    /// The body to answer with: an object with `error` and a `description` for a person (section Service Broker Errors),
    /// with no spaces. It takes no memory, so that want of it can be told.
    ///
    /// A platform takes 404, 405, 412 and 413 to a Bind for a gateway's, and cleans up; 400 and 503 it takes for the
    /// broker's error.
    pub fn body(self) -> &'static str
        ensures text { result.now ≡ compact_text (refusals.object_of self) }
        ensures reads { object_in result.now ≡ Some (refusals.object_of self) }
        ensures taken { (kind : Kind) → answer_in kind (refusals.status_of self) result.now
            ≡ refusals.taken_for kind self }
    {
        match self {
            BindingRefusal::BadBinding => {
                "{\"description\":\"The binding id must be UTF-8 of 1 to 255 bytes, and no dot segment.\",\"error\":\"BadRequest\"}"
            }
            BindingRefusal::Refused(refusal) => refusal.body(),
        }
    }
}
