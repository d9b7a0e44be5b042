//! What a broker reports of the settings of an instance.
ghost use Rattle.std.specs.Prelude.{◌≡◌};
ghost use Rattle.osb_network.specs.AnyPlatform as network;
ghost use Rattle.osb_update_network.specs.Reported as spec;

use osb_instance::Begun;
use osb_message::{Answer, Body, Kind, LastState};
use osb_update::{Fetched, Settings, UpdateBegun};

/// What a broker has reported of the settings of an instance, and any platform may believe (this project's choice).
#[derive(Clone, Copy, Debug, PartialEq, Eq, Hash)]
pub struct Reported {
    /// The instance has these settings: a Provision that asked for them was answered with 200 or 201, or an Update with
    /// 200, a Fetch reported them, or a Poll reported that what was accepted has succeeded. And since then no Deprovision
    /// has arrived, and no work of another Update has begun.
    pub settings: Option<Settings>,
    /// These settings were accepted: the last Provision or Update that was answered with 202 asked for them. And since
    /// then no Deprovision has arrived, no work of another Update has begun, and no Provision has found nothing.
    pub accepted: Option<Settings>,
    /// What was reported as the work of the latest Update began. It counts again if that Update is rejected.
    pub before: Option<Settings>,
}

impl Reported {
    /// Nothing.
    pub(crate) fn nothing() -> Reported
        ensures nothing { result ≡ spec.nothing_reported }
    {
        Reported {
            settings: None,
            accepted: None,
            before: None,
        }
    }

    fn has_settings(&self, settings: &Settings) -> Reported
        ensures reported { result ≡ spec.has_settings settings.now self.now }
    {
        Reported {
            settings: Some(*settings),
            accepted: self.accepted,
            before: self.before,
        }
    }

    fn accepts(&self, settings: &Settings) -> Reported
        ensures reported { result ≡ spec.accepts settings.now self.now }
    {
        Reported {
            settings: self.settings,
            accepted: Some(*settings),
            before: self.before,
        }
    }

    // A request arrives: what was reported counts until a Deprovision does.
    pub(crate) fn heard(&self, kind: Kind) -> Reported
        ensures reported { result ≡ spec.heard kind self.now }
    {
        match kind {
            Kind::Deprovision => Reported::nothing(),
            Kind::Provision | Kind::Poll => *self,
        }
    }

    // A Provision finds nothing.
    pub(crate) fn made_anew(&self) -> Reported
        ensures reported { result ≡ spec.made_anew self.now }
    {
        Reported {
            settings: self.settings,
            accepted: None,
            before: self.before,
        }
    }

    // The last operation has succeeded.
    fn has_succeeded(&self) -> Reported
        ensures reported { result ≡ spec.has_succeeded self.now }
    {
        match &self.accepted {
            Some(accepted) => self.has_settings(accepted),
            None => *self,
        }
    }

    fn by_provision(&self, answer: Answer, asked: &Settings) -> Reported
        ensures reported { result ≡ spec.by_provision answer asked.now self.now }
    {
        if answer.status == 200 || answer.status == 201 {
            self.has_settings(asked)
        } else if answer.status == 202 {
            self.accepts(asked)
        } else {
            *self
        }
    }

    fn by_poll(&self, answer: Answer) -> Reported
        ensures reported { result ≡ spec.by_poll answer self.now }
    {
        if answer.status == 200 && is_succeeded(answer.body) {
            self.has_succeeded()
        } else {
            *self
        }
    }

    // A request of the kind is answered.
    pub(crate) fn by_answer(
        &self,
        kind: Kind,
        leaving: bool,
        answer: Answer,
        asked: &Settings,
    ) -> Reported
        ensures reported { result ≡ spec.by_answer kind leaving answer asked.now self.now }
    {
        match kind {
            Kind::Provision => self.by_provision(answer, asked),
            Kind::Poll if !leaving => self.by_poll(answer),
            Kind::Poll | Kind::Deprovision => *self,
        }
    }

    // A request of the kind comes, and is answered at once or not.
    pub(crate) fn by_begun(
        &self,
        begun: Begun,
        kind: Kind,
        leaving: bool,
        asked: &Settings,
    ) -> Reported
        ensures reported { result ≡ spec.by_begun begun kind leaving asked.now self.now }
    {
        match begun {
            Begun::Answered(answer) => self.by_answer(kind, leaving, answer, asked),
            Begun::Work(_) => *self,
        }
    }

    // The work of an Update begins.
    fn put_aside(&self) -> Reported
        ensures reported { result ≡ spec.put_aside self.now }
    {
        Reported {
            settings: None,
            accepted: None,
            before: self.settings,
        }
    }

    fn by_update_answer(&self, answer: Answer, to: &Settings) -> Reported
        ensures reported { result ≡ spec.by_update_answer answer to.now self.now }
    {
        if answer.status == 200 {
            self.has_settings(to)
        } else if answer.status == 202 {
            self.accepts(to)
        } else {
            *self
        }
    }

    // An Update to these settings comes.
    pub(crate) fn by_update(&self, begun: &UpdateBegun, to: &Settings) -> Reported
        ensures reported { result ≡ spec.by_update begun.now to.now self.now }
    {
        match begun {
            UpdateBegun::Answered(answer) => self.by_update_answer(*answer, to),
            UpdateBegun::MaintenanceInfoConflict => *self,
            UpdateBegun::Work(_, _) => self.put_aside(),
        }
    }

    // The pending work of an Update is rejected.
    fn taken_back(&self) -> Reported
        ensures reported { result ≡ spec.taken_back self.now }
    {
        Reported {
            settings: self.before,
            accepted: self.accepted,
            before: None,
        }
    }

    // The pending work of an Update to these settings ends.
    pub(crate) fn by_end(&self, answer: Answer, to: &Settings) -> Reported
        ensures reported { result ≡ spec.by_end answer to.now self.now }
    {
        if 400 <= answer.status && answer.status <= 499 {
            self.taken_back()
        } else {
            self.by_update_answer(answer, to)
        }
    }

    // A Fetch is answered.
    pub(crate) fn by_fetch(&self, fetched: &Fetched) -> Reported
        ensures reported { result ≡ spec.by_fetch fetched.now self.now }
    {
        match fetched {
            Fetched::Found(settings, _) => self.has_settings(settings),
            Fetched::Answered(_) => *self,
        }
    }
}

fn is_succeeded(body: Body) -> bool
    ensures is { result ≡ network.is_succeeded body }
{
    match body {
        Body::State(LastState::Succeeded) => true,
        _ => false,
    }
}
