//! What a broker answers to the requests of an update.
use osb_message::Answer;
use osb_update::Settings;

/// An answer to a request of an update.
#[derive(Clone, Copy, Debug, PartialEq, Eq, Hash)]
pub struct UpdateGiven {
    /// The attempt of the request.
    pub attempt: u64,
    /// The answer.
    pub said: Said,
}

/// What such an answer has.
#[derive(Clone, Copy, Debug, PartialEq, Eq, Hash)]
pub enum Said {
    /// A status and a body.
    Answer(Answer),
    /// 200 to a Fetch: the settings, and the number of the newest Update that was judged (the member `x-osb-update`,
    /// this project's choice).
    Found(Settings, u64),
}
